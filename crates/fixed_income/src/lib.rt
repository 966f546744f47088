// The flows after a date, as records and in plain lists.
#![tactic(auto)]

pub mod plain;
pub mod records;

pub use plain::flows_after_plain;
pub use records::get_cash_flows_after;

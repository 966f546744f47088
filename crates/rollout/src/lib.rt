// All flows of a note or the first refusal, into plain lists or as records.
#![tactic(auto)]

pub mod plain;
pub mod records;

pub use plain::rollout_flows;
pub use records::rollout_cash_flows;

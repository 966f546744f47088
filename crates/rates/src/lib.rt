// `Simple` discounting: the factor, one flow, and a stream as records or in plain lists.
#![tactic(auto)]

pub mod factors;
pub mod plain;
pub mod records;
pub mod simple;

pub use plain::discount_plain_flows;
pub use records::discount_cash_flow_stream;
pub use simple::{FlatRate, discount_cash_flow, discount_factor};

// Dates, amounts, flows and refusals as text.
#![tactic(auto)]

pub mod amount;
pub mod date;
pub mod flow;
pub mod refusal;

pub use amount::{amount_length, write_amount};
pub use date::write_date;
pub use flow::{cash_flow_length, write_cash_flow};

// Inner: for the crates of the register, which have judged what these ask for.
pub use flow::put_cash_flow_at;
pub use refusal::write_refusal;

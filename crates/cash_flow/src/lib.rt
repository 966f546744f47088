// A cash flow: its date, its currency and its amount; `round2digits`; comparison of two flows.
#![tactic(auto)]

pub mod currency;
pub mod flow;
pub mod round;

pub use currency::{Currency, is_currency, is_same_currency, is_up_to_billion};
pub use flow::{CashFlow, aggregatable, fuzzy_cash_flows_cmp_eq};
pub use round::round2digits;

// Inner: for the crates of the register, which have judged what these ask for.
pub use flow::date_or_none;

// What C hands in and what is handed over to it, as numbers.
#![tactic(auto)]

pub mod answers;
pub mod arguments;

// Inner: for the crates of the register, which have judged what these ask for.
pub use answers::{hand_check, hand_coupon, hand_date, hand_over, hand_period, yes_no};
pub use arguments::{note_of, period_of};

// An f64 as text with four decimals, from its exact value.
#![tactic(auto)]

pub mod big_digits;
pub mod float;
pub mod four_decimals;

pub use big_digits::{leading_zeros, put_scaled};
pub use float::{decimal_length, write_decimal};

// Inner: for the crates of the register, which have judged what these ask for.
pub use float::put_decimal_at;

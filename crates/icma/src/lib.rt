// Act/Act ICMA between two dates: whole periods and broken parts, by walks from the roll date.
#![tactic(auto)]

pub mod parts;
pub mod walks;

pub use parts::{Part, Parts};

// Inner: for the crates of the register, which have judged what these ask for.
pub use parts::icma_parts;

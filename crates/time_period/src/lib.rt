// Periods: a step from a date, how often one comes in a year, and a period added or subtracted.
#![tactic(auto)]

pub mod added;
pub mod frequencies;
pub mod steps;

pub use added::{add_to, add_to_with, sub_from, sub_from_with};
pub use frequencies::frequency;
pub use steps::{TimePeriod, TimePeriodUnit, inverse};

// Inner: for the crates of the register, which have judged what these ask for.
pub use steps::step;

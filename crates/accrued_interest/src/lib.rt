// Interest accrued on one note, and how far off it may be.
#![tactic(auto)]

pub mod note;
pub mod period;

pub use note::accrued_interest;

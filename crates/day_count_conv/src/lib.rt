// The year fraction by six conventions: its refusals, its f64, and how far off it may be.
#![tactic(auto)]

pub mod conventions;
pub mod fractions;
pub mod judged;

pub use conventions::{DayCountConv, NoteTerms};
pub use fractions::year_fraction;

// Inner: for the crates of the register, which have judged what these ask for.
pub use conventions::{no_terms, rolled_from};
pub use fractions::fraction_between;
pub use judged::{fraction_judged, fraction_of_period};

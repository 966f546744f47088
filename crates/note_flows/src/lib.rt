// What a note pays next, and its flows one at a time.
#![tactic(auto)]

pub mod flows;
pub mod schedule;

// Inner: for the crates of the register; only `NoteFlows::new` judges.
pub use flows::{KEPT, NoteFlows, Paid};
pub use schedule::Due;

// A note with its holiday table, packed.
#![tactic(auto)]

pub mod numbers;
pub mod packed;

pub use packed::write_note;

// A packed note with its holiday table, read.
#![tactic(auto)]

pub mod note;
pub mod packed;
pub mod table;

pub use packed::{PackedNote, read_note};

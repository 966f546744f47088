// From the bytes of a packed note to its lines, or to `refused N`.
#![tactic(auto)]

pub mod lines;
pub mod note;

pub use note::list_note;

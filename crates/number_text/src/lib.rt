// Decimals: read from bytes, how long their text is, and written to bytes.
#![tactic(auto)]

pub mod length;
pub mod read;
pub mod write;

pub use length::{decimal_length, padded_length, signed_length};
pub use write::{write_i32, write_padded, write_u32};

// Inner: for the crates of the register, which have judged what these ask for.
pub use read::{read_decimal, read_i32, read_u32};
pub use write::Writer;

// The note: its limits, its checks in their order, its first coupon end, and what a fraction of a
// year pays.
#![tactic(auto)]

pub mod coupons;
pub mod limits;
pub mod note;

pub use limits::{NO_RATE, NoteNumber, is_coupon_rate, is_note_number};
pub use note::{Note, check_note, check_note_with, is_position};

// Inner: for the crates of the register, which have judged what these ask for.
pub use coupons::{coupon_amount, first_coupon_end, interest, nominal};

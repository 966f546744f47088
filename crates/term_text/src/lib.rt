// The text of a period and of a coupon date, read and written.
#![tactic(auto)]

pub mod coupon;
pub mod period;

pub use coupon::{read_coupon_date, write_coupon_date};
pub use period::{read_period, write_period};

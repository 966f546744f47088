// The calendar of document 01: dates, serial days and weekdays, each found from the other.
#![tactic(auto)]

pub mod convert;
pub mod dates;
pub mod gregorian;
pub mod serial;

pub use dates::{Date, Day, Days, LAST_DAY, LAST_YEAR, is_before, is_date, is_day, is_same};
pub use gregorian::{is_leap, length_of_month, length_of_year};
pub use serial::{date_of, day_after, day_of, days_between, weekday};

// Inner: for the crates of the register, which have judged what these ask for.
pub use convert::{date_of_day, day_of_date};
pub use gregorian::{days_before_month, first_of_year};

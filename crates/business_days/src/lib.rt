// Business days over a lent holiday table: Saturdays, Sundays and the listed days are none.
#![tactic(auto)]

pub mod days;
pub mod table;
pub mod walk;

pub use days::{bdays_earlier, bdays_later, is_business_day, next_bday, prev_bday};
pub use table::{MOST_HOLIDAYS, is_table};

// Inner: for the crates of the register, which have judged what these ask for.
pub use table::{Holidays, place_in};
pub use walk::{Spot, lower_bound_from};

// Business days over a lent holiday table: the day and the table are judged, and then the question
// is put.
ghost use Rattle.std.specs.Prelude.{◌≡◌, true, MatchResult};
ghost use Rattle.outcome.specs.Outcome.{given, refused};
ghost use Rattle.outcome.specs.Refusals.{number_of};
ghost use Rattle.calendar.specs.dates.Dates.{is_day};
ghost use Rattle.business_days.specs.table.Table.{is_table};
ghost use Rattle.business_days.specs.days.Answers.{judged, BusinessPromise, NextPromise, PreviousPromise, LaterPromise, EarlierPromise};

use crate::walk::Spot;
use calendar::{Day, is_day};
use outcome::Refusal;

// A day's spot in a table, both judged in the order of the refusals: 1, 13.
fn judged_spot(d: Day, table: &[u32]) -> Result<Spot, Refusal>
    ensures { MatchResult result (λ s. (is_day d ≡ true) × (is_table table.now ≡ true) × (s.day ≡ d.0) × (s.holidays.days.now ≡ table.now)) (λ e. refused (number_of e) ≡ judged d table.now (given d)) }
{
    if !is_day(d) {
        return Err(Refusal::InvalidDate);
    }
    Spot::judged(d.0, table).ok_or(Refusal::BadHolidayTable)
}

// Whether a serial day is no Saturday, no Sunday and not listed; refused 1, 13.
pub fn is_business_day(d: Day, table: &[u32]) -> Result<bool, Refusal>
    ensures { BusinessPromise d table.now result }
{
    let spot = judged_spot(d, table)?;
    Ok(spot.is_business())
}

// The serial day k business days on, the day itself for 0; refused 1, 13, then 1 for the result.
pub fn bdays_later(d: Day, k: u32, table: &[u32]) -> Result<Day, Refusal>
    ensures { LaterPromise d k table.now result }
{
    judged_spot(d, table)?.later(k)
}

// The serial day k business days back, the day itself for 0; refused 1, 13, then 1 for the result.
pub fn bdays_earlier(d: Day, k: u32, table: &[u32]) -> Result<Day, Refusal>
    ensures { EarlierPromise d k table.now result }
{
    judged_spot(d, table)?.earlier(k)
}

// The next business day, strictly later; refused 1, 13, then 1 for the result.
pub fn next_bday(d: Day, table: &[u32]) -> Result<Day, Refusal>
    ensures { NextPromise d table.now result }
{
    bdays_later(d, 1, table)
}

// The previous business day, strictly earlier; refused 1, 13, then 1 for the result.
pub fn prev_bday(d: Day, table: &[u32]) -> Result<Day, Refusal>
    ensures { PreviousPromise d table.now result }
{
    bdays_earlier(d, 1, table)
}

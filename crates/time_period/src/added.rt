// A period added to a date and subtracted from it, with a holiday table and without one, as finql's
// time_period.rs.
ghost use Rattle.std.specs.Prelude.{◌≡◌, true};
ghost use Rattle.outcome.specs.Refusals.{outcome_of};
ghost use Rattle.calendar.specs.dates.Dates.{is_date};
ghost use Rattle.time_period.specs.steps.Steps.{absent, table, lent};
ghost use Rattle.time_period.specs.added.Added.{judged_step, AddPromise, SubPromise};

use crate::steps::{TimePeriod, inverse, step_over};
use business_days::Holidays;
use calendar::{Date, is_date};
use outcome::Refusal;

// A step from a date that exists, over a table that is judged whatever the unit, or without one;
// refused 12, 13, then 1 for the result.
#[inline(always)]
fn judged_step(p: TimePeriod, t: Date, holidays: Option<&[u32]>) -> Result<Date, Refusal>
    requires { is_date t ≡ true }
    ensures { outcome_of result ≡ judged_step p (lent holidays.entry) t }
{
    let Some(table) = holidays else {
        return step_over(p, t, None);
    };
    let judged = Holidays::judged(table).ok_or(Refusal::BadHolidayTable)?;
    step_over(p, t, Some(judged))
}

#[inline(always)]
#[tactic(auto, unfolding(crate::specs::added::Added::add_to))]
fn add_over(p: TimePeriod, t: Date, holidays: Option<&[u32]>) -> Result<Date, Refusal>
    ensures { AddPromise p (lent holidays.entry) t result }
{
    if !is_date(t) {
        return Err(Refusal::InvalidDate);
    }
    judged_step(p, t, holidays)
}

#[inline(always)]
#[tactic(auto, unfolding(crate::specs::added::Added::sub_from))]
fn sub_over(p: TimePeriod, t: Date, holidays: Option<&[u32]>) -> Result<Date, Refusal>
    ensures { SubPromise p (lent holidays.entry) t result }
{
    if !is_date(t) {
        return Err(Refusal::InvalidDate);
    }
    judged_step(inverse(p)?, t, holidays)
}

// The date a period on, without a holiday table; refused 1, 12, then 1 for the result.
pub fn add_to(p: TimePeriod, t: Date) -> Result<Date, Refusal>
    ensures { AddPromise p absent t result }
{
    add_over(p, t, None)
}

// The date a period back, without a holiday table; refused 1, 4, 12, then 1 for the result.
pub fn sub_from(p: TimePeriod, t: Date) -> Result<Date, Refusal>
    ensures { SubPromise p absent t result }
{
    sub_over(p, t, None)
}

// The date a period on, over a holiday table; refused 1, 13 (whatever the unit), then 1 for the
// result.
pub fn add_to_with(p: TimePeriod, t: Date, holidays: &[u32]) -> Result<Date, Refusal>
    ensures { AddPromise p (table holidays.now) t result }
{
    add_over(p, t, Some(holidays))
}

// The date a period back, over a holiday table; refused 1, 4, 13 (whatever the unit), then 1 for
// the result.
pub fn sub_from_with(p: TimePeriod, t: Date, holidays: &[u32]) -> Result<Date, Refusal>
    ensures { SubPromise p (table holidays.now) t result }
{
    sub_over(p, t, Some(holidays))
}

// Dates some months, years or days on: every signed number is answered.
#![tactic(auto)]

ghost use Rattle.std.specs.Prelude.{◌≡◌, true, ◌≤◌, ◌<◌, pos, ◌+ℤ◌};
ghost use Rattle.std.specs.Int.Signed.{mag};
ghost use Rattle.outcome.specs.Refusals.{outcome_of};
ghost use Rattle.calendar.specs.dates.Dates.{is_date, month_date};
ghost use Rattle.date_step.specs.Steps.{from_zero_to, months_later, existing_date, years_later, days_later, AddMonthsPromise, AddYearsPromise, AddDaysPromise};

use calendar::{Date, LAST_YEAR, date_of_day, day_of_date, is_date, length_of_month};
use outcome::Refusal;

const LAST_DAY_INDEX: u32 = 3652058;

const LAST_MONTH_INDEX: u32 = 119987;

// Where a signed move leads from a number, up to the last: the one place where signs are met. No
// move is longer than seven times an i32, so that the sum fits.
fn moved(at: u32, n: i64, last: u32) -> Result<u32, Refusal>
    requires { (at ≤ 3652059) × (last ≤ 3652059) × (mag n < 17179869184) }
    ensures { outcome_of result ≡ from_zero_to last (pos at +ℤ n) }
{
    let to = at as i64 + n;
    if to < 0 || (last as i64) < to {
        return Err(Refusal::InvalidDate);
    }
    Ok(to as u32)
}

// The day of a month by the month's number, cut to the month's last.
fn in_month(index: u32, day: u32) -> Date
    requires { index ≤ 119987 }
    ensures { result ≡ month_date index day }
{
    let year = index / 12 + 1;
    let month = index % 12 + 1;
    // Every month has 28 days.
    if day <= 28 {
        return Date { year, month, day };
    }
    let day = day.min(length_of_month(year, month));
    Date { year, month, day }
}

// The date itself where it exists; else refused 1.
#[tactic(auto, unfolding(crate::specs::Steps::existing_date))]
fn existing(t: Date) -> Result<Date, Refusal>
    ensures { outcome_of result ≡ existing_date t }
{
    if !is_date(t) {
        return Err(Refusal::InvalidDate);
    }
    Ok(t)
}

// Inner: the date so many months on, its day cut; asks for a date that exists.
pub fn months_later(t: Date, n: i32) -> Result<Date, Refusal>
    requires { is_date t ≡ true }
    ensures { outcome_of result ≡ months_later t n }
{
    let index = 12 * (t.year - 1) + (t.month - 1);
    let i = moved(index, n as i64, LAST_MONTH_INDEX)?;
    Ok(in_month(i, t.day))
}

// The date so many months on, its day cut to the month's last; refused 1.
pub fn add_months(t: Date, n: i32) -> Result<Date, Refusal>
    ensures { AddMonthsPromise t n result }
{
    months_later(existing(t)?, n)
}

// Inner: the same month and day so many years on; asks for a date that exists.
pub fn years_later(t: Date, n: i32) -> Result<Date, Refusal>
    requires { is_date t ≡ true }
    ensures { outcome_of result ≡ years_later t n }
{
    let year = moved(t.year, n as i64, LAST_YEAR)?;
    existing(Date { year, ..t })
}

// The same month and day so many years on; refused 1, also where that year has no such day.
pub fn add_years(t: Date, n: i32) -> Result<Date, Refusal>
    ensures { AddYearsPromise t n result }
{
    years_later(existing(t)?, n)
}

// Inner: the date so many days on; asks for a date that exists and fewer than 2^34 days.
pub fn days_later(t: Date, n: i64) -> Result<Date, Refusal>
    requires { (is_date t ≡ true) × (mag n < 17179869184) }
    ensures { outcome_of result ≡ days_later t n }
{
    // Counted from 0, so that the compiler makes one test of those for both ends of the calendar.
    let i = moved(day_of_date(t) - 1, n, LAST_DAY_INDEX)?;
    Ok(date_of_day(i + 1))
}

// The date so many days on; refused 1.
pub fn add_days(t: Date, n: i64) -> Result<Date, Refusal>
    ensures { AddDaysPromise t n result }
{
    // Every 64-bit number of days is answered, so that weeks need no rule of their own. A move of
    // more than the whole calendar leads out of it.
    let t = existing(t)?;
    if n < -3652059 || 3652059 < n {
        return Err(Refusal::InvalidDate);
    }
    days_later(t, n)
}

// Serial days and dates, each found from the other, of any date and any day.
ghost use Rattle.calendar.specs.serial.Answers.{DayOfPromise, DateOfPromise, WeekdayPromise, DaysBetweenPromise, DayAfterPromise};

use crate::convert::{date_of_day, day_of_date};
use crate::dates::{Date, Day, Days, LAST_DAY, is_date, is_day};
use outcome::Refusal;

// The serial day of a date; refused 1.
#[tactic(auto, unfolding(crate::specs::serial::Answers::day_of))]
pub fn day_of(t: Date) -> Result<Day, Refusal>
    ensures { DayOfPromise t result }
{
    if !is_date(t) {
        return Err(Refusal::InvalidDate);
    }
    Ok(Day(day_of_date(t)))
}

// The date of a serial day; refused 1.
#[tactic(auto, unfolding(crate::specs::serial::Answers::date_of, crate::specs::dates::Dates::is_day))]
pub fn date_of(d: Day) -> Result<Date, Refusal>
    ensures { DateOfPromise d result }
{
    if is_day(d) {
        Ok(date_of_day(d.0))
    } else {
        Err(Refusal::InvalidDate)
    }
}

// The weekday of a serial day, Monday 1 to Sunday 7; refused 1.
#[tactic(auto, unfolding(crate::specs::serial::Answers::weekday_of, crate::specs::dates::Dates::is_day))]
pub fn weekday(d: Day) -> Result<u32, Refusal>
    ensures { WeekdayPromise d result }
{
    if !is_day(d) {
        return Err(Refusal::InvalidDate);
    }
    Ok((d.0 + 6) % 7 + 1)
}

// The day count from one serial day to another that is not before it; refused 1, 19.
#[tactic(auto, unfolding(crate::specs::serial::Answers::days_between))]
pub fn days_between(from: Day, to: Day) -> Result<Days, Refusal>
    ensures { DaysBetweenPromise from to result }
{
    if !is_day(from) || !is_day(to) {
        return Err(Refusal::InvalidDate);
    }
    if to < from {
        return Err(Refusal::StartAfterEnd);
    }
    Ok(Days(to.0 - from.0))
}

// The serial day that lies a day count after another; refused 1.
#[tactic(auto, unfolding(crate::specs::serial::Answers::day_after, crate::specs::dates::Dates::is_day))]
pub fn day_after(d: Day, s: Days) -> Result<Day, Refusal>
    ensures { DayAfterPromise d s result }
{
    if !is_day(d) || LAST_DAY - d.0 < s.0 {
        return Err(Refusal::InvalidDate);
    }
    Ok(Day(d.0 + s.0))
}

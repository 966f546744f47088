// The calendar of document 01: its dates and serial days, judged and compared.
ghost use Rattle.calendar.specs.dates.Dates.{IsDatePromise, IsDayPromise, BeforePromise, SamePromise};

use crate::gregorian::length_of_month;

// A serial day: 1 is 0001-01-01, and 3652059 is 9999-12-31.
#[derive(Clone, Copy, Debug, PartialEq, Eq, PartialOrd, Ord)]
pub struct Day(pub u32);

// A day count: the length between two serial days.
#[derive(Clone, Copy, Debug, PartialEq, Eq, PartialOrd, Ord)]
pub struct Days(pub u32);

// Two dates compare by year, then month, then day.
#[derive(Clone, Copy, Debug, PartialEq, Eq, PartialOrd, Ord)]
pub struct Date {
    pub year: u32,
    pub month: u32,
    pub day: u32,
}

pub const LAST_YEAR: u32 = 9999;

pub const LAST_DAY: u32 = 3652059;

// Whether a date exists, from 0001-01-01 to 9999-12-31.
pub fn is_date(t: Date) -> bool
    ensures { IsDatePromise t result }
{
    if t.month < 1 || 12 < t.month || t.day < 1 || t.year < 1 || LAST_YEAR < t.year {
        return false;
    }
    // Every month has 28 days.
    t.day <= 28 || t.day <= length_of_month(t.year, t.month)
}

// Whether a serial day is in the calendar, from 1 to 3,652,059.
#[tactic(auto, unfolding(crate::specs::dates::Dates::is_day))]
pub fn is_day(d: Day) -> bool
    ensures { IsDayPromise d result }
{
    1 <= d.0 && d.0 <= LAST_DAY
}

// Whether a date lies before another, by year, then month, then day.
#[tactic(auto, unfolding(crate::specs::dates::Dates::is_before))]
pub fn is_before(a: Date, b: Date) -> bool
    ensures { BeforePromise a b result }
{
    a < b
}

// Whether two dates have the same year, month and day.
#[tactic(auto, unfolding(crate::specs::dates::Dates::is_same))]
pub fn is_same(a: Date, b: Date) -> bool
    ensures { SamePromise a b result }
{
    a == b
}

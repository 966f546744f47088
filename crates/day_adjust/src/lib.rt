// Day adjustment: a date that is no business day moves by one of four rules.
#![tactic(auto)]

ghost use Rattle.std.specs.Prelude.{◌≡◌, true, ◌||◌, ◌≤◌, eqb, leb};
ghost use Rattle.outcome.specs.Outcome.{given, and_then, pick};
ghost use Rattle.outcome.specs.Refusals.{outcome_of};
ghost use Rattle.calendar.specs.gregorian.Gregorian.{month_length};
ghost use Rattle.calendar.specs.dates.Dates.{is_date, day_number, the_date};
ghost use Rattle.day_adjust.specs.Adjustment.{next_date, prev_date, moved_date, adjusted, AdjustPromise};

use business_days::Spot;
use calendar::{Date, date_of_day, day_of_date, is_date, length_of_month};
use outcome::Refusal;

#[derive(Clone, Copy, Debug, PartialEq, Eq)]
pub enum DayAdjust {
    None,
    Following,
    Preceding,
    Modified,
}

// Whether a month has a day of that number, and perhaps more. Every month has 28.
fn reaches(year: u32, month: u32, day: u32) -> bool
    requires { (1 ≤ month) × (month ≤ 12) }
    ensures { result ≡ leb day (month_length year month) }
{
    day <= 28 || day <= length_of_month(year, month)
}

// A date, and the spot of its serial day. The methods are inlined, so that the parts stay in
// registers.
#[derive(Clone, Copy)]
pub struct DateSpot<'a> {
    pub date: Date,
    pub spot: Spot<'a>,
    pub ghost exists: { is_date date ≡ true },
    pub ghost own: { spot.day ≡ day_number date },
}

impl<'a> DateSpot<'a> {
    // The date of a day near it: within its month only the day's number differs, which takes no
    // division.
    #[inline(always)]
    fn date_near(self, at: u32) -> Date
        requires { (1 ≤ at) × (at ≤ 3652059) }
        ensures { result ≡ the_date at }
    {
        let t = self.date;
        let n = self.spot.day;
        if at < n {
            let back = n - at;
            if back < t.day {
                return Date {
                    day: t.day - back,
                    ..t
                };
            }
        } else {
            let day = t.day + (at - n);
            if reaches(t.year, t.month, day) {
                return Date { day, ..t };
            }
        }
        date_of_day(at)
    }

    // The dates of the next and of the previous business day.
    #[inline(always)]
    fn next(self) -> Result<Date, Refusal>
        ensures { outcome_of result ≡ next_date self.entry.spot.holidays.days.now self.entry.spot.day }
    {
        let day = self.spot.next()?;
        Ok(self.date_near(day.0))
    }

    #[inline(always)]
    fn previous(self) -> Result<Date, Refusal>
        ensures { outcome_of result ≡ prev_date self.entry.spot.holidays.days.now self.entry.spot.day }
    {
        let day = self.spot.previous()?;
        Ok(self.date_near(day.0))
    }

    // Following and modified look ahead first. Modified turns back where the month differs, and
    // only compares its number, as finql does.
    #[inline(always)]
    fn ahead(self, across: bool) -> Result<Date, Refusal>
        ensures { let table = self.entry.spot.holidays.days.now in let n = self.entry.spot.day in outcome_of result ≡ and_then (next_date table n) (λ u. pick (across || eqb u.month self.entry.date.month) (given u) (prev_date table n)) }
    {
        let u = self.next()?;
        if across || u.month == self.date.month {
            return Ok(u);
        }
        self.previous()
    }

    // Where it moves that is no business day.
    #[inline(always)]
    fn moved(self, rule: DayAdjust) -> Result<Date, Refusal>
        ensures { outcome_of result ≡ moved_date rule self.entry.date self.entry.spot.day self.entry.spot.holidays.days.now }
    {
        match rule {
            DayAdjust::None => Ok(self.date),
            DayAdjust::Following => self.ahead(true),
            DayAdjust::Preceding => self.previous(),
            DayAdjust::Modified => self.ahead(false),
        }
    }

    // Inner: the adjusted date.
    #[inline(always)]
    pub fn adjusted(self, rule: DayAdjust) -> Result<Date, Refusal>
        ensures { outcome_of result ≡ adjusted rule self.entry.date self.entry.spot.holidays.days.now }
    {
        // Most dates stay, and then no call is made.
        if self.spot.is_business() {
            return Ok(self.date);
        }
        self.moved(rule)
    }
}

// The date that a date is adjusted to by one of four rules; refused 1, 13 (under none too), then 1
// for the result.
#[tactic(auto, unfolding(crate::specs::Adjustment::adjust_date))]
pub fn adjust_date(rule: DayAdjust, t: Date, table: &[u32]) -> Result<Date, Refusal>
    ensures { AdjustPromise rule t table.now result }
{
    if !is_date(t) {
        return Err(Refusal::InvalidDate);
    }
    let Some(spot) = Spot::judged(day_of_date(t), table) else {
        return Err(Refusal::BadHolidayTable);
    };
    DateSpot { date: t, spot }.adjusted(rule)
}

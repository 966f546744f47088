// Periods, as finql's time_period.rs: their inverse, and a step from a date.
ghost use Rattle.std.specs.Prelude.{◌≡◌, true};
ghost use Rattle.outcome.specs.Refusals.{outcome_of};
ghost use Rattle.calendar.specs.dates.Dates.{is_date};
ghost use Rattle.time_period.specs.steps.Steps.{absent, table, judged, business_step, stepped, InversePromise};

use business_days::{Holidays, Spot};
use calendar::Date;
use outcome::Refusal;

#[derive(Clone, Copy, Debug, PartialEq, Eq)]
pub enum TimePeriodUnit {
    Daily,
    BusinessDaily,
    Weekly,
    Monthly,
    Annual,
}

#[derive(Clone, Copy, Debug, PartialEq, Eq)]
pub struct TimePeriod {
    pub num: i32,
    pub unit: TimePeriodUnit,
}

// The period with its number negated; refused 4 for -2,147,483,648.
#[tactic(auto, unfolding(crate::specs::steps::Steps::inverse_of))]
pub fn inverse(p: TimePeriod) -> Result<TimePeriod, Refusal>
    ensures { InversePromise p result }
{
    if p.num == i32::MIN {
        return Err(Refusal::InvalidPeriod);
    }
    Ok(TimePeriod {
        num: -p.num,
        unit: p.unit,
    })
}

fn step_business(n: i32, t: Date, holidays: Holidays) -> Result<Date, Refusal>
    requires { is_date t ≡ true }
    ensures { outcome_of result ≡ business_step n (table holidays.entry.days.now) t }
{
    let spot = Spot::new(calendar::day_of_date(t), holidays);
    let k = n.unsigned_abs();
    let found = if n < 0 {
        spot.earlier(k)?
    } else {
        spot.later(k)?
    };
    calendar::date_of(found)
}

// The date a period on, over holidays or without them. Always inlined: where none are lent no date
// goes through memory.
#[inline(always)]
#[tactic(auto, unfolding(crate::specs::steps::Steps::business_step))]
pub(crate) fn step_over(p: TimePeriod, t: Date, holidays: Option<Holidays>) -> Result<Date, Refusal>
    requires { is_date t ≡ true }
    ensures { outcome_of result ≡ stepped p (judged holidays.entry) t }
{
    match p.unit {
        TimePeriodUnit::Daily => date_step::days_later(t, i64::from(p.num)),
        TimePeriodUnit::BusinessDaily => match holidays {
            Some(h) => step_business(p.num, t, h),
            None => Err(Refusal::MissingCalendar),
        },
        TimePeriodUnit::Weekly => date_step::days_later(t, 7 * i64::from(p.num)),
        TimePeriodUnit::Monthly => date_step::months_later(t, p.num),
        TimePeriodUnit::Annual => date_step::years_later(t, p.num),
    }
}

// Inner: the date a period on, without a holiday table; asks for a date that exists.
pub fn step(p: TimePeriod, t: Date) -> Result<Date, Refusal>
    requires { is_date t ≡ true }
    ensures { outcome_of result ≡ stepped p absent t }
{
    // A walk judges its dates once.
    step_over(p, t, None)
}

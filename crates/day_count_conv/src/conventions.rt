// Day count conventions: the six rules of a year fraction; here ICMA, and the refusal that 30/360
// and 30E/360 share.
ghost use Rattle.std.specs.Prelude.{◌≡◌, true, not};
ghost use Rattle.outcome.specs.Outcome.{given, unless};
ghost use Rattle.outcome.specs.Refusals.{outcome_of};
ghost use Rattle.calendar.specs.dates.Dates.{is_date};
ghost use Rattle.day_fraction.specs.Fractions.{impossible};
ghost use Rattle.day_fraction.specs.declared.SimpleRule.TheVariants as simple;
ghost use Rattle.day_count_conv.specs.conventions.Whole.{regular, whole_period};
ghost use Rattle.day_count_conv.specs.conventions.Conventions.{fractions_in_f64, part_added, parts_bits, frequent_fraction, icma_fraction, roll_date_exists, no_terms, rolled_from};

use calendar::Date;
use day_fraction::{DateSpan, is_30th_to_31st};
use icma::{Part, Parts, icma_parts};
use outcome::Refusal;
use time_period::{TimePeriod, frequency};

// In the order of document 01's table.
#[derive(Clone, Copy, Debug, PartialEq, Eq)]
pub enum DayCountConv {
    Act365,
    Act360,
    Act365l,
    D30_360,
    D30E360,
    ActActICMA,
}

// What only some conventions ask for beside two dates; the others ignore it.
#[derive(Clone, Copy, Debug, PartialEq, Eq)]
pub struct NoteTerms {
    pub roll: Option<Date>,
    pub period: Option<TimePeriod>,
}

// Inner: the terms of two dates alone, no roll date and no period; terms are made here only.
pub fn no_terms() -> NoteTerms
    ensures { result ≡ no_terms }
{
    NoteTerms {
        roll: None,
        period: None,
    }
}

// Inner: the terms of a period that rolls from a date.
pub fn rolled_from(t: Date, p: TimePeriod) -> NoteTerms
    ensures { result ≡ rolled_from t p }
{
    NoteTerms {
        roll: Some(t),
        period: Some(p),
    }
}

// Inner: a fraction by 30/360 or 30E/360, refused 9 where it is 0; asks for dates in order.
pub(crate) fn unless_zero(span: DateSpan, fraction: f64) -> Result<f64, Refusal>
    ensures of_30_360 { outcome_of result ≡ unless (not (impossible simple.D30_360 span.start span.end)) 9 (given fraction) }
    ensures of_30_e_360 { outcome_of result ≡ unless (not (impossible simple.D30E360 span.start span.end)) 9 (given fraction) }
{
    if is_30th_to_31st(span) {
        return Err(Refusal::Impossible360);
    }
    Ok(fraction)
}

// A broken part added to the fraction so far.
fn part_added(yf: f64, part: Option<Part>) -> f64
    ensures { result ≡ part_added yf part }
{
    match part {
        Some(p) => yf + p.days as f64 / p.length as f64,
        None => yf,
    }
}

// finql's operations in its order.
fn parts_bits(frequency: u32, parts: Parts) -> f64
    ensures { result ≡ parts_bits frequency parts }
{
    match parts {
        Parts::Short { days, length } => days as f64 / (length as f64 * frequency as f64),
        Parts::Long { first, last, count } => {
            let yf = part_added(part_added(0.0, first), last);
            (yf + count as f64) / frequency as f64
        }
    }
}

// The frequency of a period that ICMA takes; refused 5, 14.
fn regular(p: TimePeriod) -> Result<u32, Refusal>
    ensures { outcome_of result ≡ regular p }
{
    let f = frequency(p)?;
    if p.num < 1 {
        return Err(Refusal::PeriodBelowOne);
    }
    Ok(f)
}

fn walked(p: TimePeriod, span: DateSpan, roll: Date) -> Result<f64, Refusal>
    requires { is_date roll ≡ true }
    ensures { outcome_of result ≡ frequent_fraction fractions_in_f64 p span.start span.end roll }
{
    let f = regular(p)?;
    let parts = icma_parts(p, span, roll)?;
    Ok(parts_bits(f, parts))
}

// Inner: the fraction by ICMA; asks for dates in order and a roll date that exists.
#[inline(always)]
pub(crate) fn act_act_icma(x: NoteTerms, span: DateSpan) -> Result<f64, Refusal>
    requires { roll_date_exists x.roll ≡ true }
    ensures { outcome_of result ≡ icma_fraction fractions_in_f64 x.roll x.period span.start span.end }
{
    let Some(roll) = x.roll else {
        return Err(Refusal::IcmaMissingRollDate);
    };
    let Some(p) = x.period else {
        return Err(Refusal::IcmaMissingTimePeriod);
    };
    walked(p, span, roll)
}

// Inner: the fraction of one whole period by ICMA, which takes no walk.
#[tactic(auto, unfolding(crate::specs::conventions::Whole::whole_period, crate::specs::conventions::Whole::regular))]
pub(crate) fn whole_period(p: TimePeriod) -> Result<f64, Refusal>
    ensures { outcome_of result ≡ whole_period p }
{
    let whole = Parts::Long {
        first: None,
        last: None,
        count: 1,
    };
    Ok(parts_bits(regular(p)?, whole))
}

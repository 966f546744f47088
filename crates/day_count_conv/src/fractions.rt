// Year fractions of any dates: the dates are judged, and then the rule is put.
ghost use Rattle.std.specs.Prelude.{◌≡◌};
ghost use Rattle.outcome.specs.Refusals.{outcome_of};
ghost use Rattle.day_count_conv.specs.conventions.Conventions.{no_terms, roll_dated, FractionPromise};
ghost use Rattle.day_count_conv.specs.conventions.Judging.{Judged};

use crate::conventions::{DayCountConv, NoteTerms, no_terms};
use crate::judged::{by_rule, fraction_judged};
use calendar::{Date, is_date};
use day_fraction::DateSpan;
use outcome::Refusal;

// Whether a roll date that is given exists; only ICMA looks at it.
#[inline(always)]
fn roll_dated(convention: DayCountConv, x: NoteTerms) -> bool
    ensures { result ≡ roll_dated convention x.roll }
{
    convention != DayCountConv::ActActICMA || x.roll.is_none_or(is_date)
}

// The two dates, and a roll date that ICMA looks at; refused 1, 19.
#[inline(always)]
fn judged(
    convention: DayCountConv,
    start: Date,
    end: Date,
    x: NoteTerms,
) -> Result<DateSpan, Refusal>
    ensures { Judged convention start end x (outcome_of result) }
{
    if !is_date(start) || !is_date(end) || !roll_dated(convention, x) {
        return Err(Refusal::InvalidDate);
    }
    if end < start {
        return Err(Refusal::StartAfterEnd);
    }
    Ok(DateSpan { start, end })
}

// The year fraction from start to end, finql's f64, within 1/2^38 of the exact fraction; refused 1,
// 19, 10, 11, 5, 14, then 1 or 9.
pub fn year_fraction(
    convention: DayCountConv,
    start: Date,
    end: Date,
    x: NoteTerms,
) -> Result<f64, Refusal>
    ensures { FractionPromise convention start end x result }
{
    let span = judged(convention, start, end, x)?;
    fraction_judged(convention, span.start, span.end, x)
}

// Inner: the year fraction with no roll date and no period; refused 1, 19, 10, 9.
pub fn fraction_between(convention: DayCountConv, from: Date, to: Date) -> Result<f64, Refusal>
    ensures { FractionPromise convention from to no_terms result }
{
    // Its one caller, the C face, takes it in whole: with no terms no walk is left.
    let x = no_terms();
    let span = judged(convention, from, to, x)?;
    by_rule(convention, span, x)
}

// Year fractions of dates already judged, by six rules.
ghost use Rattle.std.specs.Prelude.{◌≡◌, true};
ghost use Rattle.outcome.specs.Outcome.{given};
ghost use Rattle.outcome.specs.Refusals.{outcome_of};
ghost use Rattle.day_fraction.specs.Fractions.{Span};
ghost use Rattle.icma.specs.parts.Walk.{step};
ghost use Rattle.day_count_conv.specs.conventions.Conventions.{fractions_in_f64, rolled_from, by_rule, roll_dated};

use crate::conventions::{
    DayCountConv, NoteTerms, act_act_icma, no_terms, unless_zero, whole_period,
};
use calendar::Date;
use day_fraction::{
    DateSpan, calc_30_360, calc_30_e_360, calc_act_360, calc_act_365, calc_act_365_leap,
};
use outcome::Refusal;
use time_period::TimePeriod;

// Inner: the year fraction; asks for dates in order, and under ICMA a roll date that exists. Always
// inlined: where no terms are given no walk is left, and the dates stay in registers.
#[inline(always)]
#[tactic(auto, unfolding(crate::specs::conventions::Conventions::simple_fraction, day_fraction::specs::Fractions::impossible))]
pub(crate) fn by_rule(
    convention: DayCountConv,
    span: DateSpan,
    x: NoteTerms,
) -> Result<f64, Refusal>
    requires { roll_dated convention x.roll ≡ true }
    ensures { outcome_of result ≡ by_rule fractions_in_f64 convention span.start span.end x }
{
    match convention {
        DayCountConv::Act365 => Ok(calc_act_365(span)),
        DayCountConv::Act360 => Ok(calc_act_360(span)),
        DayCountConv::Act365l => Ok(calc_act_365_leap(span)),
        DayCountConv::D30_360 => unless_zero(span, calc_30_360(span)),
        DayCountConv::D30E360 => unless_zero(span, calc_30_e_360(span)),
        DayCountConv::ActActICMA => act_act_icma(x, span),
    }
}

// Inner: the year fraction; asks for dates in order, and under ICMA a roll date that exists.
pub fn fraction_judged(
    convention: DayCountConv,
    start: Date,
    end: Date,
    x: NoteTerms,
) -> Result<f64, Refusal>
    requires { (Span start end) × (roll_dated convention x.roll ≡ true) }
    ensures { outcome_of result ≡ by_rule fractions_in_f64 convention start end x }
{
    // A rollout does not judge its own dates again.
    by_rule(convention, DateSpan { start, end }, x)
}

// Inner: the fraction of a period rolled from its start; asks for dates in order, a period apart.
pub fn fraction_of_period(
    convention: DayCountConv,
    p: TimePeriod,
    from: Date,
    to: Date,
) -> Result<f64, Refusal>
    requires { (Span from to) × (step p from ≡ given to) }
    ensures { outcome_of result ≡ by_rule fractions_in_f64 convention from to (rolled_from from p) }
{
    // A rollout steps once.
    if let DayCountConv::ActActICMA = convention {
        return whole_period(p);
    }
    // No other rule looks at the terms: with none, the dates stay in registers.
    by_rule(
        convention,
        DateSpan {
            start: from,
            end: to,
        },
        no_terms(),
    )
}

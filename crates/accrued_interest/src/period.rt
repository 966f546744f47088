// The interest accrued in one coupon period of a note: its full amount, times elapsed days over
// period days.
ghost use Rattle.std.specs.Prelude.{◌≡◌, true};
ghost use Rattle.outcome.specs.Refusals.{outcome_of};
ghost use Rattle.calendar.specs.dates.Dates.{is_date};
ghost use Rattle.accrued_interest.specs.period.PeriodInterest.{Begun, accrued_in, amounts_in_f64};

use bond::Note;
use calendar::Date;
use outcome::Refusal;

// A coupon period, by its unadjusted dates.
#[derive(Clone, Copy)]
pub(crate) struct CouponPeriod {
    pub start: Date,
    pub end: Date,
}

// Inner: what has accrued in a period; asks for a day that exists and a period that has begun.
pub(crate) fn accrued_in(note: Note, today: Date, p: CouponPeriod) -> Result<f64, Refusal>
    requires { (is_date today ≡ true) × Begun today p }
    ensures { outcome_of result ≡ accrued_in amounts_in_f64 note today p }
{
    // Nothing in the last period, nor past its end.
    if p.end >= note.maturity {
        return Ok(0.0);
    }
    let terms = day_count_conv::rolled_from(p.start, note.period);
    let fraction = day_count_conv::fraction_judged(
        note.day_count_convention,
        p.start,
        p.end,
        terms,
    )?;
    let amount = bond::interest(f64::from(note.denomination), note.rate, fraction);
    let start = calendar::day_of_date(p.start);
    let elapsed = calendar::day_of_date(today) - start;
    let days = calendar::day_of_date(p.end) - start;
    Ok(amount * (f64::from(elapsed) / f64::from(days)))
}

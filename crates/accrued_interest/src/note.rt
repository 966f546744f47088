// Accrued interest on one note, as finql's bond.rs: no position and no holiday table are taken.
ghost use Rattle.std.specs.Prelude.{◌≡◌, true, pos};
ghost use Rattle.std.specs.Int.Signed.{lt_z};
ghost use Rattle.outcome.specs.Refusals.{outcome_of};
ghost use Rattle.calendar.specs.dates.Dates.{is_date};
ghost use Rattle.time_period.specs.steps.Steps.{absent, stepped};
ghost use Rattle.accrued_interest.specs.period.PeriodInterest.{Begun};
ghost use Rattle.accrued_interest.specs.note.Accrued.{period_holding, accrued_on, amounts_in_f64, AccruedPromise};

use crate::period::CouponPeriod;
use bond::Note;
use calendar::Date;
use outcome::Refusal;
use time_period::{TimePeriod, TimePeriodUnit};

// The end a period on. Months go first, and without the call that the other units share: this walk
// is nearly all of the time.
fn next_end(p: TimePeriod, t: Date) -> Result<Date, Refusal>
    requires { is_date t ≡ true }
    ensures { outcome_of result ≡ stepped p absent t }
{
    match p.unit {
        TimePeriodUnit::Monthly => date_step::months_later(t, p.num),
        _ => time_period::step(p, t),
    }
}

// On from the first period until today is not past the end, or the end not before maturity.
fn period_holding(note: Note, today: Date, first: CouponPeriod) -> Result<CouponPeriod, Refusal>
    requires { (lt_z (pos 0) note.period.num ≡ true) × (is_date today ≡ true) × Begun today first }
    ensures { outcome_of result ≡ period_holding note today first }
{
    let mut p = first;
    while p.end < today && p.end < note.maturity {
        let end = next_end(note.period, p.end)?;
        p = CouponPeriod { start: p.end, end };
    }
    Ok(p)
}

// Of a note that is accepted.
#[tactic(auto, unfolding(crate::specs::note::Accrued::accrued_on, crate::specs::note::Accrued::accrued_from))]
fn accrued_on(note: Note, today: Date) -> Result<f64, Refusal>
    requires { (lt_z (pos 0) note.period.num ≡ true) × (is_date note.issue_date ≡ true) }
    ensures { outcome_of result ≡ accrued_on amounts_in_f64 note today }
{
    if !calendar::is_date(today) {
        return Err(Refusal::InvalidDate);
    }
    let start = note.issue_date;
    if today < start {
        return Ok(0.0);
    }
    let end = bond::first_coupon_end(note)?;
    let p = period_holding(note, today, CouponPeriod { start, end })?;
    crate::period::accrued_in(note, today, p)
}

// The interest accrued on one note at a day, up to a denomination of 1,000,000 within 1/100,000 of
// the exact amount; refused by the note's checks, 1, then by the fraction.
pub fn accrued_interest(note: Note, today: Date) -> Result<f64, Refusal>
    ensures { AccruedPromise note today result }
{
    let checked = bond::check_note(note)?;
    accrued_on(checked, today)
}

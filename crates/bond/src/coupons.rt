// A note's coupons: where the first ends, and what a fraction of a year pays.
ghost use Rattle.std.specs.Prelude.{◌≡◌};
ghost use Rattle.outcome.specs.Refusals.{outcome_of};
ghost use Rattle.bond.specs.note.Notes.{in_year_of, interest_on, nominal_of, coupon_amount, FirstEndPromise};

use crate::note::Note;
use calendar::{Date, LAST_YEAR};
use coupon_date::CouponDate;
use outcome::Refusal;

#[tactic(auto, unfolding(date_step::specs::Steps::existing_date, crate::specs::note::Notes::in_year_of))]
fn in_year_of(year: u32, coupon: CouponDate) -> Result<Date, Refusal>
    ensures { outcome_of result ≡ in_year_of year coupon }
{
    let t = Date {
        year,
        month: coupon.month,
        day: coupon.day,
    };
    if calendar::is_date(t) {
        Ok(t)
    } else {
        Err(Refusal::InvalidDate)
    }
}

// Inner: the end of the first coupon period, meant for a note that passed its checks.
#[tactic(auto, using(crate::proofs::note::Ends::past_the_last), unfolding(crate::specs::note::Notes::first_coupon_end))]
pub fn first_coupon_end(note: Note) -> Result<Date, Refusal>
    ensures { FirstEndPromise note result }
{
    let issue = note.issue_date;
    let coupon = note.coupon_date;
    if issue.month < coupon.month {
        return in_year_of(issue.year, coupon);
    }
    if LAST_YEAR <= issue.year {
        return Err(Refusal::InvalidDate);
    }
    in_year_of(issue.year + 1, coupon)
}

// Inner: what a fraction of a year pays on a nominal, meant for numbers that are checked.
#[tactic(auto, using(crate::proofs::limits::Limits::hundred_whole))]
pub fn interest(nominal: f64, rate: f64, fraction: f64) -> f64
    ensures { result ≡ interest_on nominal rate fraction }
{
    nominal * rate / 100.0 * fraction
}

// Inner: position times denomination, which is paid back, meant for numbers that are checked.
pub fn nominal(position: f64, note: Note) -> f64
    ensures { result ≡ nominal_of position note }
{
    position * f64::from(note.denomination)
}

// Inner: what a coupon pays for its fraction of a year, meant for numbers that are checked.
#[tactic(auto, unfolding(crate::specs::note::Notes::coupon_amount))]
pub fn coupon_amount(position: f64, note: Note, fraction: f64) -> f64
    ensures { result ≡ coupon_amount position note fraction }
{
    interest(nominal(position, note), note.rate, fraction)
}

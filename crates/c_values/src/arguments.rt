// What the numbers that come from C stand for: periods and notes, by their codes.
ghost use Rattle.std.specs.Prelude.{◌≡◌};
ghost use Rattle.outcome.specs.Refusals.{outcome_of};
ghost use Rattle.c_values.specs.arguments.Numbers.{date, coupon, currency, period_of_numbers, note_number, note_of};

use bond::{Note, NoteNumber};
use calendar::Date;
use cash_flow::Currency;
use coupon_date::CouponDate;
use outcome::Refusal;
use time_period::TimePeriod;

// Inner: the period of C's number and unit code; refused 18.
#[tactic(auto, using(outcome::proofs::Refusals::handed_on), unfolding(crate::specs::arguments::Numbers::period_of_numbers))]
pub fn period_of(num: i32, unit: u32) -> Result<TimePeriod, Refusal>
    ensures { outcome_of result ≡ period_of_numbers num unit }
{
    let unit = packed_codes::unit_of_code(unit)?;
    Ok(TimePeriod { num, unit })
}

// Inner: the note of C's numbers, its codes looked up in the order of the arguments; refused 18.
#[tactic(auto, using(outcome::proofs::Refusals::handed_on), unfolding(crate::specs::arguments::Numbers::note_of))]
pub fn note_of(
    number_count: u32,
    number_digits: u64,
    issue_year: u32,
    issue_month: u32,
    issue_day: u32,
    maturity_year: u32,
    maturity_month: u32,
    maturity_day: u32,
    coupon_day: u32,
    coupon_month: u32,
    period_num: i32,
    period_unit: u32,
    rule: u32,
    adjustment: u32,
    denomination: u32,
    rate: f64,
    c1: u8,
    c2: u8,
    c3: u8,
) -> Result<Note, Refusal>
    ensures { outcome_of result ≡ note_of (note_number number_count number_digits) (date issue_year issue_month issue_day) (date maturity_year maturity_month maturity_day) (coupon coupon_day coupon_month) period_num period_unit rule adjustment denomination rate (currency c1 c2 c3) }
{
    let number = NoteNumber {
        count: number_count,
        digits: number_digits,
    };
    let issue_date = Date {
        year: issue_year,
        month: issue_month,
        day: issue_day,
    };
    let maturity = Date {
        year: maturity_year,
        month: maturity_month,
        day: maturity_day,
    };
    let coupon_date = CouponDate {
        day: coupon_day,
        month: coupon_month,
    };
    let currency = Currency {
        first: c1,
        second: c2,
        third: c3,
    };
    let period = period_of(period_num, period_unit)?;
    let day_count_convention = packed_codes::convention_of_code(rule)?;
    let business_day_rule = packed_codes::adjustment_of_code(adjustment)?;
    Ok(Note {
        number,
        issue_date,
        maturity,
        coupon_date,
        period,
        day_count_convention,
        business_day_rule,
        denomination,
        rate,
        currency,
    })
}

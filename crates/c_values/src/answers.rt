// How an answer is handed over to C: the refusal's number is returned, or 0, and only then is what
// is lent written.
ghost use Rattle.std.specs.Prelude.{◌≡◌};
ghost use Rattle.outcome.specs.Outcome.{passed_as};
ghost use Rattle.outcome.specs.Refusals.{outcome_of};
ghost use Rattle.c_values.specs.answers.HandOver.{HandsOver, ReturnsNumber, yes_no};
ghost use Rattle.c_values.specs.answers.Coded.{coded};

use calendar::Date;
use coupon_date::CouponDate;
use outcome::Refusal;
use time_period::TimePeriod;

const ANSWERED: u32 = 0;

// Inner: 1 for yes and 0 for no, as C is told.
pub fn yes_no(b: bool) -> u32
    ensures { result ≡ yes_no b }
{
    if b { 1 } else { 0 }
}

// Inner: hands C a value, or the refusal's number.
pub fn hand_over<T: Copy>(answer: Result<T, Refusal>, out: &mut T) -> u32
    ensures { HandsOver (outcome_of answer) result out.old out.new }
{
    match answer {
        Ok(x) => {
            *out = x;
            ANSWERED
        }
        Err(e) => e.number(),
    }
}

// Inner: hands C 0 for what passes its check, or the refusal's number.
pub fn hand_check<T: Copy>(answer: Result<T, Refusal>) -> u32
    ensures { ReturnsNumber (outcome_of answer) result }
{
    answer.err().map_or(ANSWERED, Refusal::number)
}

// Inner: hands C year, month and day, or the refusal's number.
pub fn hand_date(
    answer: Result<Date, Refusal>,
    year: &mut u32,
    month: &mut u32,
    day: &mut u32,
) -> u32
    ensures { HandsOver (outcome_of answer) result (record { year = year.old; month = month.old; day = day.old }) (record { year = year.new; month = month.new; day = day.new }) }
{
    match answer {
        Ok(t) => {
            *year = t.year;
            *month = t.month;
            *day = t.day;
            ANSWERED
        }
        Err(e) => e.number(),
    }
}

// Inner: hands C day and month of a coupon date, or the refusal's number.
pub fn hand_coupon(answer: Result<CouponDate, Refusal>, day: &mut u32, month: &mut u32) -> u32
    ensures { HandsOver (outcome_of answer) result (record { day = day.old; month = month.old }) (record { day = day.new; month = month.new }) }
{
    match answer {
        Ok(c) => {
            *day = c.day;
            *month = c.month;
            ANSWERED
        }
        Err(e) => e.number(),
    }
}

// Inner: hands C a period's number and its unit's packed code, or the refusal's number.
pub fn hand_period(answer: Result<TimePeriod, Refusal>, num: &mut i32, unit: &mut u32) -> u32
    ensures { HandsOver (passed_as coded (outcome_of answer)) result (num.old, unit.old) (num.new, unit.new) }
{
    match answer {
        Ok(p) => {
            *num = p.num;
            *unit = packed_codes::code_of_unit(p.unit);
            ANSWERED
        }
        Err(e) => e.number(),
    }
}

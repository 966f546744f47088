// Coupon dates: the day and the month at which a note's coupons end.
#![tactic(auto)]

ghost use Rattle.coupon_date.specs.Coupons.{NewPromise};

use calendar::length_of_month;
use outcome::Refusal;

#[derive(Clone, Copy, Debug, PartialEq, Eq)]
pub struct CouponDate {
    pub day: u32,
    pub month: u32,
}

// Any year that is not a leap year will do: 29.02 is no coupon date.
const COMMON_YEAR: u32 = 2019;

// The coupon date of a day and a month; refused 7, 8.
#[tactic(auto, unfolding(crate::specs::Coupons::coupon_date_of))]
pub fn new_coupon_date(day: u32, month: u32) -> Result<CouponDate, Refusal>
    ensures { NewPromise day month result }
{
    if day == 0 || month == 0 || 12 < month {
        return Err(Refusal::DayOutOfRange);
    }
    if length_of_month(COMMON_YEAR, month) < day {
        return Err(Refusal::DayTooBig);
    }
    Ok(CouponDate { day, month })
}

// The limits of a note's number and of its rate.
ghost use Rattle.bond.specs.limits.Limits.{NoteNumberPromise, CouponRatePromise};

// How many digits, and the digits as a number: 00417 and 417 are two numbers.
#[derive(Clone, Copy, Debug, PartialEq, Eq)]
pub struct NoteNumber {
    pub count: u32,
    pub digits: u64,
}

// From these bits on a number has its sign bit set or is not finite.
pub const NO_RATE: u64 = 0x7ff0_0000_0000_0000;

// Whether a note's number has 1 to 10 digits, as many as it says.
#[tactic(auto, unfolding(crate::specs::limits::Limits::is_note_number))]
pub fn is_note_number(number: NoteNumber) -> bool
    ensures { NoteNumberPromise number result }
{
    let digits = number.digits;
    match number.count {
        1 => digits < 10,
        2 => digits < 100,
        3 => digits < 1_000,
        4 => digits < 10_000,
        5 => digits < 100_000,
        6 => digits < 1_000_000,
        7 => digits < 10_000_000,
        8 => digits < 100_000_000,
        9 => digits < 1_000_000_000,
        10 => digits < 10_000_000_000,
        _ => false,
    }
}

// Whether a rate in percent is finite, from 0 to 100, its sign bit clear.
#[tactic(auto, using(crate::proofs::limits::Limits::nan_no_rate, crate::proofs::limits::Limits::rate_high, crate::proofs::limits::Limits::rate_low))]
pub fn is_coupon_rate(rate: f64) -> bool
    ensures { CouponRatePromise rate result }
{
    if rate.is_nan() {
        return false;
    }
    rate.to_bits() < NO_RATE && rate <= 100.0
}

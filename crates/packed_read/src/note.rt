// The note that the numbers of a packed note are.
ghost use Rattle.std.specs.Prelude.{◌≡◌, ◌+◌, ◌-◌, ◌*◌, ◌/◌, ◌^◌, ◌≤◌, ◌<◌, ltb, true};
ghost use Rattle.outcome.specs.Outcome.{pick};
ghost use Rattle.outcome.specs.Refusals.{outcome_of};
ghost use Rattle.packed_layout.specs.NoteLayout.{Name, number_in};
ghost use Rattle.packed_read.specs.note.Codes.{place_good, digits_good, digits_number, number_good};
ghost use Rattle.packed_read.specs.note.Records.{note_number_in, currency_in, note_with, note_from};
ghost use Rattle.bond.specs.note.Notes.{note_checks};

use bond::{NO_RATE, Note, NoteNumber};
use calendar::Date;
use cash_flow::Currency;
use coupon_date::CouponDate;
use day_adjust::DayAdjust;
use day_count_conv::DayCountConv;
use outcome::Refusal;
use packed_layout::NoteNumbers;
use time_period::{TimePeriod, TimePeriodUnit};

#[tactic(auto, unfolding(crate::specs::note::Codes::place_good))]
fn place_good(count: u32, i: u32, n: u64) -> bool
    ensures { result ≡ place_good count i n }
{
    if i < count { n < 10 } else { n == 15 }
}

// What stands in the first places, of ten.
fn first_places(digits: u64, k: u32) -> u64
    requires { k ≤ 10 }
    ensures { result ≡ digits / 16 ^ (10 - k) }
{
    digits >> (40 - 4 * k)
}

// Each place is as it should be. Not one function with `digits_number`: the note is refused by
// this before anything is read as a number.
fn digits_good(count: u32, digits: u64) -> bool
    ensures { result ≡ digits_good count 10 digits }
{
    let mut good = true;
    for k in 0..10 {
        good &= place_good(count, k, first_places(digits, k + 1) % 16);
    }
    good
}

#[tactic(auto, unfolding(crate::specs::note::Codes::number_good))]
fn number_good(count: u32, digits: u64) -> bool
    ensures { result ≡ number_good count digits }
{
    1 <= count && count <= 10 && digits_good(count, digits)
}

// One place more; a place that is not used adds nothing.
fn with_place(count: u32, k: u32, number: u64, place: u64) -> u64
    requires { (number ≤ 20000000000) × (place < 16) }
    ensures { result ≡ pick (ltb k count) (number * 10 + place) number }
{
    if k < count {
        number * 10 + place
    } else {
        number
    }
}

// The digits as a number.
fn digits_number(count: u32, digits: u64) -> u64
    ensures { result ≡ digits_number count 10 digits }
{
    let mut number = 0;
    for k in 0..10 {
        number = with_place(count, k, number, first_places(digits, k + 1) % 16);
    }
    number
}

fn number_in(numbers: NoteNumbers) -> NoteNumber
    ensures { result ≡ note_number_in numbers.fields }
{
    let count = numbers.fields[packed_layout::DIGIT_COUNT] as u32;
    NoteNumber {
        count,
        digits: digits_number(count, numbers.fields[packed_layout::DIGITS]),
    }
}

fn currency_in(numbers: NoteNumbers) -> Currency
    ensures { result ≡ currency_in numbers.fields }
{
    Currency {
        first: (64 + numbers.fields[packed_layout::FIRST_LETTER]) as u8,
        second: (64 + numbers.fields[packed_layout::SECOND_LETTER]) as u8,
        third: (64 + numbers.fields[packed_layout::THIRD_LETTER]) as u8,
    }
}

// Of bits that are a number's, neither a NaN's nor an infinity's.
fn note_with(
    numbers: NoteNumbers,
    unit: TimePeriodUnit,
    convention: DayCountConv,
    rule: DayAdjust,
) -> Note
    requires { number_in numbers.fields Name.rate < 9218868437227405312 }
    ensures { result ≡ note_with numbers.fields unit convention rule }
{
    Note {
        number: number_in(numbers),
        issue_date: Date {
            year: numbers.fields[packed_layout::ISSUE_YEAR] as u32,
            month: numbers.fields[packed_layout::ISSUE_MONTH] as u32,
            day: numbers.fields[packed_layout::ISSUE_DAY] as u32,
        },
        maturity: Date {
            year: numbers.fields[packed_layout::MATURITY_YEAR] as u32,
            month: numbers.fields[packed_layout::MATURITY_MONTH] as u32,
            day: numbers.fields[packed_layout::MATURITY_DAY] as u32,
        },
        coupon_date: CouponDate {
            day: numbers.fields[packed_layout::COUPON_DAY] as u32,
            month: numbers.fields[packed_layout::COUPON_MONTH] as u32,
        },
        period: TimePeriod {
            num: numbers.fields[packed_layout::NUMBER] as i32,
            unit,
        },
        day_count_convention: convention,
        business_day_rule: rule,
        denomination: numbers.fields[packed_layout::DENOMINATION] as u32,
        rate: f64::from_bits(numbers.fields[packed_layout::RATE]),
        currency: currency_in(numbers),
    }
}

// Bits that are no number's are refused before they become an f64.
fn checked(
    numbers: NoteNumbers,
    unit: TimePeriodUnit,
    convention: DayCountConv,
    rule: DayAdjust,
    table: bool,
) -> Result<Note, Refusal>
    requires { number_good (number_in numbers.fields Name.digit_count) (number_in numbers.fields Name.digits) ≡ true }
    ensures { outcome_of result ≡ note_checks true table (note_with numbers.fields unit convention rule) }
{
    if NO_RATE <= numbers.fields[packed_layout::RATE] {
        return Err(Refusal::NumberOutOfLimits);
    }
    bond::check_note_with(note_with(numbers, unit, convention, rule), true, table)
}

// Inner: of numbers that stood in their bits; what was found of the table behind them comes with
// them.
#[tactic(auto, using(crate::proofs::note::Reading::bad_number, crate::proofs::note::Reading::spare_set))]
pub(crate) fn note_from_numbers(numbers: NoteNumbers, table: bool) -> Result<Note, Refusal>
    ensures { outcome_of result ≡ note_from table numbers.fields }
{
    let digit_count = numbers.fields[packed_layout::DIGIT_COUNT] as u32;
    if !number_good(digit_count, numbers.fields[packed_layout::DIGITS])
        || numbers.fields[packed_layout::SPARE] != 0
    {
        return Err(Refusal::MalformedRecord);
    }
    let unit = packed_codes::unit_of_code(numbers.fields[packed_layout::UNIT] as u32)?;
    let convention = packed_codes::convention_of_code(
        numbers.fields[packed_layout::DAY_COUNT] as u32,
    )?;
    let rule = packed_codes::adjustment_of_code(numbers.fields[packed_layout::ADJUSTMENT] as u32)?;
    checked(numbers, unit, convention, rule, table)
}

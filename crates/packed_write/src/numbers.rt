// The numbers that a note is packed as.
ghost use Rattle.std.specs.Prelude.{◌≡◌, ◌+◌, ◌-◌, ◌/◌, ◌%◌, ◌^◌, ◌≤◌, ◌<◌, ltb};
ghost use Rattle.outcome.specs.Outcome.{pick};
ghost use Rattle.packed_write.specs.numbers.Codes.{digits_places};
ghost use Rattle.packed_write.specs.numbers.Numbers.{numbers_of};
ghost use Rattle.packed_write.specs.numbers.Packable.{Packable};

use bond::Note;
use packed_layout::{FIELDS, NoteNumbers};

// What stands in a place: a digit, or 15 behind the last.
fn place_at(count: u32, k: u32, digits: u64) -> u64
    requires { count ≤ 10 }
    ensures { (result ≡ pick (ltb k count) (digits / 10 ^ (count - (k + 1)) % 10) 15) × (result < 16) }
{
    if k < count {
        digits / 10u64.pow(count - (k + 1)) % 10
    } else {
        15
    }
}

// Ten places of four bits.
fn digits_places(count: u32, digits: u64) -> u64
    requires { count ≤ 10 }
    ensures { result ≡ digits_places count 10 digits }
{
    let mut places = 0;
    for k in 0..10 {
        places = places * 16 + place_at(count, k, digits);
    }
    places
}

// A capital's place in the alphabet.
fn letter(b: u8) -> u64
    requires { 64 ≤ b }
    ensures { result ≡ b - 64 }
{
    u64::from(b - 64)
}

// Inner: the numbers of an accepted note, each of which fits its bits.
pub(crate) fn numbers_from_note(note: Note) -> NoteNumbers
    requires { Packable note }
    ensures { result.fields ≡ numbers_of note }
{
    let mut fields = [0; FIELDS];
    fields[packed_layout::DIGIT_COUNT] = u64::from(note.number.count);
    fields[packed_layout::DIGITS] = digits_places(note.number.count, note.number.digits);
    fields[packed_layout::ISSUE_YEAR] = u64::from(note.issue_date.year);
    fields[packed_layout::ISSUE_MONTH] = u64::from(note.issue_date.month);
    fields[packed_layout::ISSUE_DAY] = u64::from(note.issue_date.day);
    fields[packed_layout::MATURITY_YEAR] = u64::from(note.maturity.year);
    fields[packed_layout::MATURITY_MONTH] = u64::from(note.maturity.month);
    fields[packed_layout::MATURITY_DAY] = u64::from(note.maturity.day);
    fields[packed_layout::COUPON_DAY] = u64::from(note.coupon_date.day);
    fields[packed_layout::COUPON_MONTH] = u64::from(note.coupon_date.month);
    fields[packed_layout::UNIT] = u64::from(packed_codes::code_of_unit(note.period.unit));
    fields[packed_layout::NUMBER] = u64::from(note.period.num.unsigned_abs());
    fields[packed_layout::DAY_COUNT] = u64::from(packed_codes::code_of_convention(
        note.day_count_convention,
    ));
    fields[packed_layout::ADJUSTMENT] = u64::from(packed_codes::code_of_adjustment(
        note.business_day_rule,
    ));
    fields[packed_layout::DENOMINATION] = u64::from(note.denomination);
    fields[packed_layout::RATE] = note.rate.to_bits();
    fields[packed_layout::FIRST_LETTER] = letter(note.currency.first);
    fields[packed_layout::SECOND_LETTER] = letter(note.currency.second);
    fields[packed_layout::THIRD_LETTER] = letter(note.currency.third);
    NoteNumbers { fields }
}

// The bits of a packed note: one table of widths, by which its numbers are read and put.
#![tactic(auto)]

ghost use Rattle.std.specs.Prelude.{◌≡◌, ◌*◌, ◌≤◌, length};
ghost use Rattle.bit_fields.specs.BitWriters.{HasRoom, FieldsPut};
ghost use Rattle.packed_layout.specs.Layouts.{total};
ghost use Rattle.packed_layout.specs.NoteLayout.{note_widths, note_numbers, note_fields, NumbersFit, bit_length, byte_length};

use bit_fields::LentBits;

pub const FIELDS: usize = 20;

const WIDTHS: [usize; FIELDS] = [
    4, 40, 14, 4, 5, 14, 4, 5, 5, 4, 3, 12, 3, 2, 32, 64, 5, 5, 5, 10,
];

// The place of each field in the table. Constants and no enum: they index, and `Field::Digits as
// usize` at each use would say no more.
pub const DIGIT_COUNT: usize = 0;

pub const DIGITS: usize = 1;

pub const ISSUE_YEAR: usize = 2;

pub const ISSUE_MONTH: usize = 3;

pub const ISSUE_DAY: usize = 4;

pub const MATURITY_YEAR: usize = 5;

pub const MATURITY_MONTH: usize = 6;

pub const MATURITY_DAY: usize = 7;

pub const COUPON_DAY: usize = 8;

pub const COUPON_MONTH: usize = 9;

pub const UNIT: usize = 10;

pub const NUMBER: usize = 11;

pub const DAY_COUNT: usize = 12;

pub const ADJUSTMENT: usize = 13;

pub const DENOMINATION: usize = 14;

pub const RATE: usize = 15;

pub const FIRST_LETTER: usize = 16;

pub const SECOND_LETTER: usize = 17;

pub const THIRD_LETTER: usize = 18;

pub const SPARE: usize = 19;

// The numbers in a note's fields, each of which fits its bits.
#[derive(Clone, Copy)]
pub struct NoteNumbers {
    pub fields: [u64; FIELDS],
    pub ghost fit: { NumbersFit fields },
}

// The sum of the widths: 30 bytes.
const NOTE_BITS: usize = 240;

// The table of holidays behind the note: its count, and each day.
pub const COUNT_WIDTH: usize = 16;

pub const DAY_WIDTH: usize = 22;

// Inner: how many bits a note takes, behind which the table begins.
pub fn note_bits() -> usize
    ensures { result ≡ total note_widths }
{
    NOTE_BITS
}

// Inner: how many bits a note and so many holidays take; asks for at most 4,096 holidays.
pub fn record_bits(holidays: usize) -> usize
    requires { holidays ≤ 4096 }
    ensures { result ≡ bit_length holidays }
{
    note_bits() + COUNT_WIDTH + DAY_WIDTH * holidays
}

// Inner: how many bytes they take; asks the same.
pub fn record_bytes(holidays: usize) -> usize
    requires { holidays ≤ 4096 }
    ensures { result ≡ byte_length holidays }
{
    record_bits(holidays).div_ceil(8)
}

// Inner: the numbers in a note's fields; asks for bytes that hold them all.
pub fn read_numbers(s: &[u8]) -> NoteNumbers
    requires { total note_widths ≤ 8 * length s.now }
    ensures { result.fields ≡ note_numbers s.now }
{
    let mut fields = [0; FIELDS];
    let mut at = 0;
    for k in 0..FIELDS {
        fields[k] = bit_fields::read_field(s, at, WIDTHS[k]);
        at += WIDTHS[k];
    }
    NoteNumbers { fields }
}

// Inner: a note's numbers put into its fields; asks for room.
pub fn put_numbers(writer: &mut LentBits<'_>, numbers: NoteNumbers)
    requires { HasRoom writer.old (total note_widths) }
    ensures { FieldsPut writer.old writer.new (total note_widths) (note_fields numbers.fields) }
{
    for k in 0..FIELDS {
        writer.put(numbers.fields[k], WIDTHS[k]);
    }
}

// A packed note and the holiday table behind it, written into lent bytes.
ghost use Rattle.std.specs.Prelude.{◌≡◌, true, map, ◌+◌, ◌*◌, ◌≤◌, length};
ghost use Rattle.outcome.specs.Refusals.{outcome_of};
ghost use Rattle.bit_fields.specs.Bits.{in_bits};
ghost use Rattle.bit_fields.specs.BitWriters.{HasRoom, FieldsPut};
ghost use Rattle.number_text.specs.write.Writing.{Wrote, Written};
ghost use Rattle.business_days.specs.table.Table.{is_table};
ghost use Rattle.packed_layout.specs.NoteLayout.{count_width, day_width, table_fields, byte_length};
ghost use Rattle.packed_write.specs.numbers.Packable.{Packable};
ghost use Rattle.packed_write.specs.packed.Fields.{numbers_bytes, record_bytes};
ghost use Rattle.packed_write.specs.packed.Writing.{WritePromise};

use bit_fields::LentBits;
use bond::Note;
use outcome::Refusal;
use packed_layout::{COUNT_WIDTH, DAY_WIDTH, NoteNumbers};

// The largest number that the 12 bits of a period hold.
const MOST_NUMBER: i32 = 4095;

fn put_days(writer: &mut LentBits<'_>, table: &[u32])
    requires { HasRoom writer.old (day_width * length table.now) × (is_table table.now ≡ true) }
    ensures { FieldsPut writer.old writer.new (day_width * length table.now) (map (in_bits day_width) table.now) }
{
    for day in table {
        writer.put(u64::from(*day), DAY_WIDTH);
    }
}

fn put_table(writer: &mut LentBits<'_>, table: &[u32])
    requires { HasRoom writer.old (count_width + day_width * length table.now) × (is_table table.now ≡ true) }
    ensures { FieldsPut writer.old writer.new (count_width + day_width * length table.now) (table_fields table.now) }
{
    writer.put(table.len() as u64, COUNT_WIDTH);
    put_days(writer, table);
}

// The numbers, the table, and zero bits to the byte.
fn put_record(numbers: NoteNumbers, table: &[u32], out: &mut [u8]) -> usize
    requires { (is_table table.now ≡ true) × (byte_length (length table.now) ≤ length out.old) }
    ensures { Wrote out.old out.new 0 (numbers_bytes numbers.fields table.now) result }
{
    let mut lent = LentBits::new(out);
    packed_layout::put_numbers(&mut lent, numbers);
    put_table(&mut lent, table);
    lent.fill_byte();
    lent.writer.place
}

fn write_judged(note: Note, table: &[u32], out: &mut [u8]) -> Result<usize, Refusal>
    requires { (Packable note) × (is_table table.now ≡ true) }
    ensures { Written out.old out.new (record_bytes note table.now) (outcome_of result) }
{
    if out.len() < packed_layout::record_bytes(table.len()) {
        return Err(Refusal::TooFewPlaces);
    }
    let numbers = crate::numbers::numbers_from_note(note);
    Ok(put_record(numbers, table, out))
}

// The packed bytes of a note and its holidays; refused 18 for a period above 4,095, by the note's
// checks, then 16.
pub fn write_note(note: Note, table: &[u32], out: &mut [u8]) -> Result<usize, Refusal>
    ensures { WritePromise note table.now out.old out.new result }
{
    if MOST_NUMBER < note.period.num {
        return Err(Refusal::MalformedRecord);
    }
    bond::check_note_with(note, true, business_days::is_table(table))?;
    write_judged(note, table, out)
}

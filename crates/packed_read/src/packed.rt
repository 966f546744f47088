// A packed note and the holiday table behind it, read from bytes.
ghost use Rattle.std.specs.Prelude.{◌≡◌, true, ◌≤◌, ◌++◌, length, take, drop};
ghost use Rattle.outcome.specs.Refusals.{outcome_of};
ghost use Rattle.packed_read.specs.table.Tables.{table_count, table_days, is_whole, is_table_in};
ghost use Rattle.packed_read.specs.packed.Notes.{note_in_bytes, ReadNotePromise};

use bond::Note;
use business_days::MOST_HOLIDAYS;
use outcome::Refusal;

#[derive(Clone, Copy)]
pub struct PackedNote {
    pub note: Note,
    pub holidays: usize,
}

// The note in the bytes; if they are whole and the table is taken, its days stand in front.
fn note_in_bytes(s: &[u8], days: &mut [u32]) -> Result<Note, Refusal>
    requires { 4096 ≤ length days.old }
    ensures { (outcome_of result ≡ note_in_bytes s.now) × ((is_whole s.now ≡ true) × (is_table_in s.now ≡ true) → take (table_count s.now) days.new ≡ table_days s.now) }
{
    if !crate::table::is_whole(s) {
        return Err(Refusal::MalformedRecord);
    }
    let n = crate::table::table_count(s);
    let numbers = packed_layout::read_numbers(s);
    let taken = crate::table::is_table_in(s, n, days);
    crate::note::note_from_numbers(numbers, taken)
}

// The note in the bytes and its holidays into the lent places; refused 18, by the note's checks,
// then 16.
pub fn read_note(s: &[u8], table: &mut [u32]) -> Result<PackedNote, Refusal>
    ensures { ReadNotePromise s.now table.old table.new result }
{
    let mut days = [0; MOST_HOLIDAYS];
    let note = note_in_bytes(s, &mut days)?;
    let n = crate::table::table_count(s);
    if table.len() < n {
        return Err(Refusal::TooFewPlaces);
    }
    table[..n].copy_from_slice(&days[..n]);
    Ok(PackedNote { note, holidays: n })
}

// The holiday table behind a packed note: its length, and its days one after the other.
ghost use Rattle.std.specs.Prelude.{◌≡◌, true, ◌+◌, ◌*◌, ◌≤◌, ◌<◌, length, take};
ghost use Rattle.business_days.specs.table.Table.{ascends_from};
ghost use Rattle.packed_read.specs.table.Tables.{table_count, day_at, days_from, is_whole, is_table_in};
ghost use Rattle.packed_layout.specs.NoteLayout.{bit_length, byte_length};

use business_days::MOST_HOLIDAYS;
use calendar::LAST_DAY;
use packed_layout::{COUNT_WIDTH, DAY_WIDTH};

// Inner: how many holidays the record says, of bytes that are there.
pub(crate) fn table_count(s: &[u8]) -> usize
    requires { byte_length 0 ≤ length s.now }
    ensures { (result ≡ table_count s.now) × (result < 65536) }
{
    bit_fields::read_field(s, packed_layout::note_bits(), COUNT_WIDTH) as usize
}

fn day_at(s: &[u8], i: usize) -> u32
    requires { (i < 4096) × (bit_length (i + 1) ≤ 8 * length s.now) }
    ensures { result ≡ day_at s.now i }
{
    bit_fields::read_field(s, packed_layout::record_bits(i), DAY_WIDTH) as u32
}

// Inner: every byte is there, none is left over, and the bits behind the last day are zero; behind
// a count above 4,096 nothing is judged.
pub(crate) fn is_whole(s: &[u8]) -> bool
    ensures { result ≡ is_whole s.now }
{
    if s.len() < packed_layout::record_bytes(0) {
        return false;
    }
    let n = table_count(s);
    if MOST_HOLIDAYS < n {
        return true;
    }
    let end = packed_layout::record_bits(n);
    s.len() == packed_layout::record_bytes(n)
        && bit_fields::read_field(s, end, s.len() * 8 - end) == 0
}

// The days in their order, each read once: false at the first that is not past the one before it,
// or not of the calendar.
fn read_days(s: &[u8], n: usize, days: &mut [u32]) -> bool
    requires { (n ≤ 4096) × (bit_length n ≤ 8 * length s.now) × (n ≤ length days.old) }
    ensures { (result ≡ ascends_from 1 (days_from s.now 0 n)) × (result ≡ true → take n days.new ≡ days_from s.now 0 n) }
{
    let mut low = 1;
    for i in 0..n {
        let d = day_at(s, i);
        if d < low || LAST_DAY < d {
            return false;
        }
        days[i] = d;
        low = d + 1;
    }
    true
}

// Inner: whether the table is taken; if so, its days stand in front.
pub(crate) fn is_table_in(s: &[u8], n: usize, days: &mut [u32]) -> bool
    requires { (is_whole s.now ≡ true) × (n ≡ table_count s.now) × (4096 ≤ length days.old) }
    ensures { (result ≡ is_table_in s.now) × (result ≡ true → take n days.new ≡ days_from s.now 0 n) }
{
    n <= MOST_HOLIDAYS && read_days(s, n, days)
}

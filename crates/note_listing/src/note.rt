// The list on the desk: from the bytes of a packed note to its flows as lines, or to its refusal.
ghost use Rattle.std.specs.Prelude.{◌≡◌, ◌≤◌, length};
ghost use Rattle.outcome.specs.Refusals.{outcome_of};
ghost use Rattle.note_listing.specs.lines.Inner.{LinesWritten};
ghost use Rattle.note_listing.specs.note.Listing.{note_lines, listing, ListPromise};
ghost use Rattle.note_listing.specs.note.Inner.{with_days, Measures};

use bond::Note;
use cash_flow::Currency;
use number_text::Writer;
use outcome::Refusal;

// A list, measured: the currency of its flows, how many they are, and how many bytes their lines
// take.
#[derive(Clone, Copy)]
struct Measure {
    currency: Currency,
    flows: usize,
    bytes: usize,
}

// The flows of a note and its holidays in front of two lists, and the measure of their list.
fn measured(
    note: Note,
    table: &[u32],
    days: &mut [u32],
    amounts: &mut [f64],
) -> Result<Measure, Refusal>
    requires { (length days.old ≡ 2000) × (length amounts.old ≡ 2000) }
    ensures { Measures (note_lines (with_days note table.now)) days.new amounts.new (outcome_of result) }
{
    let currency = note.currency;
    let flows = rollout::rollout_flows(note, 1.0, table, days, amounts)?;
    let bytes = crate::lines::lines_length(currency, &days[..flows], &amounts[..flows])?;
    Ok(Measure {
        currency,
        flows,
        bytes,
    })
}

// The lines of a note and its holidays, or a refusal. Its lists take their place once the note is
// read.
fn list_flows(note: Note, table: &[u32], out: &mut [u8]) -> Result<usize, Refusal>
    ensures { LinesWritten (note_lines (with_days note table.now)) out.old out.new result }
{
    let mut days = [0u32; 2000];
    let mut amounts = [0.0f64; 2000];
    match measured(note, table, &mut days, &mut amounts) {
        Ok(list) => {
            if out.len() < list.bytes {
                return Err(Refusal::TooFewPlaces);
            }
            let n = list.flows;
            let mut w = Writer::new(out);
            crate::lines::put_lines(list.currency, &days[..n], &amounts[..n], &mut w);
            Ok(list.bytes)
        }
        // It is written, and not handed on, so that no `?` fits.
        Err(refusal) => flow_text::write_refusal(refusal.number(), out),
    }
}

// The listing of a packed note in lent bytes, its flows or `refused N`, at most 662,000 bytes;
// refused 16.
pub fn list_note(s: &[u8], out: &mut [u8]) -> Result<usize, Refusal>
    ensures { (ListPromise s.now out.old out.new result) × (length (listing s.now) ≤ 662000) }
{
    let mut table = [0u32; 4096];
    match packed_read::read_note(s, &mut table) {
        Ok(packed) => list_flows(packed.note, &table[..packed.holidays], out),
        Err(refusal) => flow_text::write_refusal(refusal.number(), out),
    }
}

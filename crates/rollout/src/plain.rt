// Rollout of a note into its cash flows: judged and counted first, and written only where all of
// them are given and fit.
ghost use Rattle.rollout.specs.plain.Rollout.{RolloutPromise};

use bond::Note;
use note_flows::{KEPT, NoteFlows};
use outcome::Refusal;

// A note's flows as serial days and amounts in two lent lists, and their count; refused by the
// note's checks, then flow by flow, last 16.
pub fn rollout_flows(
    note: Note,
    position: f64,
    table: &[u32],
    days: &mut [u32],
    amounts: &mut [f64],
) -> Result<usize, Refusal>
    ensures { RolloutPromise note position table.now days.old amounts.old result days.new amounts.new }
{
    let flows = NoteFlows::new(note, position, table)?;
    let mut kept_days = [0u32; KEPT];
    let mut kept_amounts = [0.0f64; KEPT];
    let n = flows.collect(&mut kept_days, &mut kept_amounts)?;
    if days.len() < n || amounts.len() < n {
        return Err(Refusal::TooFewPlaces);
    }
    if KEPT < n {
        return flows.collect(days, amounts);
    }
    days[..n].copy_from_slice(&kept_days[..n]);
    amounts[..n].copy_from_slice(&kept_amounts[..n]);
    Ok(n)
}

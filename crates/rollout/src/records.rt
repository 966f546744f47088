// Rollout of a note into records: judged and counted first, and written only where all of them are
// given and fit.
ghost use Rattle.std.specs.Prelude.{◌≡◌, ◌≤◌};
ghost use Rattle.calendar.specs.dates.Dates.{the_date};
ghost use Rattle.rollout.specs.records.Records.{RecordsPromise};

use bond::Note;
use cash_flow::{CashFlow, Currency};
use note_flows::{KEPT, NoteFlows};
use outcome::Refusal;

// A kept flow: its day's date, the note's currency and its amount.
fn kept_flow(currency: Currency, day: u32, amount: f64) -> CashFlow
    requires { (1 ≤ day) × (day ≤ 3652059) }
    ensures { result ≡ record { date = the_date day; currency = currency; amount = amount } }
{
    CashFlow {
        date: calendar::date_of_day(day),
        currency,
        amount,
    }
}

// A note's flows as records in lent room, and their count, as finql's rollout; refused by the
// note's checks, then flow by flow, last 16.
pub fn rollout_cash_flows(
    note: Note,
    position: f64,
    table: &[u32],
    room: &mut [CashFlow],
) -> Result<usize, Refusal>
    ensures { RecordsPromise note position table.now room.old result room.new }
{
    let flows = NoteFlows::new(note, position, table)?;
    let mut days = [0u32; KEPT];
    let mut amounts = [0.0f64; KEPT];
    let n = flows.collect(&mut days, &mut amounts)?;
    if room.len() < n {
        return Err(Refusal::TooFewPlaces);
    }
    if KEPT < n {
        return flows.collect_records(room);
    }
    // One index for three lists: three in a `zip` would be no plainer.
    for k in 0..n {
        room[k] = kept_flow(note.currency, days[k], amounts[k]);
    }
    Ok(n)
}

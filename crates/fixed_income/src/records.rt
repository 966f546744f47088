// Flows after a date, over records.
ghost use Rattle.std.specs.Prelude.{◌≡◌};
ghost use Rattle.outcome.specs.Refusals.{outcome_of};
ghost use Rattle.outcome.specs.Room.{counted};
ghost use Rattle.fixed_income.specs.records.After.{is_later};
ghost use Rattle.fixed_income.specs.records.Promises.{records_written, AfterPromise};

use calendar::Date;
use cash_flow::CashFlow;
use outcome::Refusal;

#[tactic(auto, unfolding(calendar::specs::dates::Dates::is_before))]
fn is_later(flow: CashFlow, date: Date) -> bool
    ensures { result ≡ is_later date flow }
{
    date < flow.date
}

// How many records are later than a date; refused 1, and 16 for fewer places. All of them are judged
// before one is written.
fn count_after(flows: &[CashFlow], date: Date, places: usize) -> Result<usize, Refusal>
    ensures { outcome_of result ≡ counted (records_written flows.now date places) }
{
    if !calendar::is_date(date) {
        return Err(Refusal::InvalidDate);
    }
    let mut count = 0;
    for f in flows {
        if !calendar::is_date(f.date) {
            return Err(Refusal::InvalidDate);
        }
        if is_later(*f, date) {
            count += 1;
        }
    }
    if places < count {
        return Err(Refusal::TooFewPlaces);
    }
    Ok(count)
}

// The records strictly later than a date, in order, in lent room, and their count; refused 1, 16.
pub fn get_cash_flows_after(
    flows: &[CashFlow],
    date: Date,
    room: &mut [CashFlow],
) -> Result<usize, Refusal>
    ensures { AfterPromise flows.now date room.old result room.new }
{
    let count = count_after(flows, date, room.len())?;
    let mut k = 0;
    for flow in flows {
        if is_later(*flow, date) {
            room[k] = *flow;
            k += 1;
        }
    }
    Ok(count)
}

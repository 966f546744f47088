// Flows after a serial day, over plain lists.
ghost use Rattle.std.specs.Prelude.{◌≡◌};
ghost use Rattle.outcome.specs.Refusals.{outcome_of};
ghost use Rattle.outcome.specs.Room.{counted};
ghost use Rattle.fixed_income.specs.plain.Plain.{plain_flows, days_written, FlowsAfterPlainPromise};

use calendar::Day;
use outcome::Refusal;

// How many serial days are later than a day; refused 1, and 16 for fewer places. All of them are
// judged before one is written. As of records: a closure for each test would be no plainer.
fn count_after(day: Day, days: &[u32], places: usize) -> Result<usize, Refusal>
    ensures { outcome_of result ≡ counted (days_written day days.now places) }
{
    if !calendar::is_day(day) {
        return Err(Refusal::InvalidDate);
    }
    let mut count = 0;
    for d in days {
        if !calendar::is_day(Day(*d)) {
            return Err(Refusal::InvalidDate);
        }
        if day.0 < *d {
            count += 1;
        }
    }
    if places < count {
        return Err(Refusal::TooFewPlaces);
    }
    Ok(count)
}

// The flows of three plain lists strictly later than a serial day, in order, in three lent lists,
// and their count; refused 1, 16.
pub fn flows_after_plain(
    day: Day,
    days: &[u32],
    currencies: &[u32],
    amounts: &[f64],
    out_days: &mut [u32],
    out_currencies: &mut [u32],
    out_amounts: &mut [f64],
) -> Result<usize, Refusal>
    ensures { FlowsAfterPlainPromise day (plain_flows days.now currencies.now amounts.now) out_days.old out_currencies.old out_amounts.old result out_days.new out_currencies.new out_amounts.new }
{
    // A flow stands at one place of each list, so there are as many as the shortest has.
    let n = days.len().min(currencies.len().min(amounts.len()));
    let places = out_days
        .len()
        .min(out_currencies.len().min(out_amounts.len()));
    let count = count_after(day, &days[..n], places)?;
    let mut k = 0;
    // One index for the lists that are read, another for those that are written.
    for i in 0..n {
        if day.0 < days[i] {
            out_days[k] = days[i];
            out_currencies[k] = currencies[i];
            out_amounts[k] = amounts[i];
            k += 1;
        }
    }
    Ok(count)
}

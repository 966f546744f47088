// A note's flows one at a time, each on its payment date, and the pass that counts and keeps them
// all.
ghost use Rattle.std.specs.Prelude.{◌≡◌, true, set};
ghost use Rattle.outcome.specs.Outcome.{and_then};
ghost use Rattle.outcome.specs.Refusals.{outcome_of};
ghost use Rattle.outcome.specs.Room.{counted};
ghost use Rattle.calendar.specs.dates.Dates.{is_date, day_number};
ghost use Rattle.note_flows.specs.schedule.Schedule.{is_accepted, is_dated};
ghost use Rattle.note_flows.specs.flows.NoteFlows.{cash_flows, flow_day, amount_of};

use crate::schedule::Due;
use bond::Note;
use business_days::{Holidays, Spot};
use calendar::Date;
use cash_flow::CashFlow;
use day_adjust::DateSpot;
use outcome::Refusal;

// How many flows a first pass keeps for a second: 21 years of months. There is no heap, and more
// would cost a short note too much to clear.
pub const KEPT: usize = 256;

// A place past every table: the first payment's is searched for.
const NO_PLACE: usize = 4097;

// A flow, and the serial day that it is paid on.
#[derive(Clone, Copy)]
pub struct Paid {
    pub day: u32,
    pub flow: CashFlow,
}

// The flows of a note that passed its checks: what is due, and the last payment's place among the
// holidays.
#[derive(Clone, Copy)]
pub struct NoteFlows<'a> {
    note: Note,
    position: f64,
    holidays: Holidays<'a>,
    place: usize,
    due: Due,
    ghost accepted: { is_accepted note ≡ true },
    ghost dated: { is_dated due ≡ true },
}

// The serial day of a date, of which another's is known: a date that did not move keeps its day.
fn day_from(u: Date, t: Date, n: u32) -> u32
    requires { (is_date u ≡ true) × (n ≡ day_number t) }
    ensures { result ≡ day_number u }
{
    if u == t { n } else { calendar::day_of_date(u) }
}

// Keeps a value at a place where there is one.
fn keep<T: Copy>(places: &mut [T], k: usize, x: T)
    ensures { places.new ≡ set places.old k x }
{
    if k < places.len() {
        places[k] = x;
    }
}

impl<'a> NoteFlows<'a> {
    ghost use Rattle.note_flows.specs.flows.Turns.{left, Turned, Kept};

    // Inner: all flows of a note, or the refusal of its checks.
    pub fn new(note: Note, position: f64, table: &'a [u32]) -> Result<NoteFlows<'a>, Refusal>
        ensures { and_then (outcome_of result) left ≡ cash_flows note position table.now }
    {
        let position_in = bond::is_position(position);
        let table_taken = business_days::is_table(table);
        bond::check_note_with(note, position_in, table_taken)?;
        Ok(NoteFlows {
            note,
            position,
            holidays: Holidays { days: table },
            place: NO_PLACE,
            due: Due::First,
        })
    }

    // Inner: the next flow, the refusal that stands in its place, or none behind the last.
    #[tactic(auto, using(crate::proofs::flows::Dues::owing))]
    pub fn next(&mut self) -> Result<Option<Paid>, Refusal>
        ensures { Turned self.old self.new (outcome_of result) }
    {
        let Some(payment) = crate::schedule::owed(self.note, self.position, self.due)? else {
            return Ok(None);
        };
        let rule = self.note.business_day_rule;
        let n = calendar::day_of_date(payment.date);
        let spot = Spot::near(n, self.holidays, self.place);
        self.place = spot.place;
        let unadjusted = DateSpot {
            date: payment.date,
            spot,
        };
        let date = unadjusted.adjusted(rule)?;
        self.due = payment.next;
        Ok(Some(Paid {
            day: day_from(date, payment.date, n),
            flow: CashFlow {
                date,
                currency: self.note.currency,
                amount: payment.amount,
            },
        }))
    }

    // Inner: how many flows are left, or their refusal; their days and amounts are kept in lists that
    // have places for all.
    pub fn collect(mut self, days: &mut [u32], amounts: &mut [f64]) -> Result<usize, Refusal>
        ensures outcome { outcome_of result ≡ counted (left self.entry) }
        ensures days_kept { Kept flow_day (left self.entry) days.old days.new }
        ensures amounts_kept { Kept amount_of (left self.entry) amounts.old amounts.new }
    {
        let mut count: usize = 0;
        while let Some(paid) = self.next()? {
            keep(days, count, paid.day);
            keep(amounts, count, paid.flow.amount);
            count += 1;
        }
        Ok(count)
    }

    // Inner: the same, with the flows themselves.
    pub fn collect_records(mut self, room: &mut [CashFlow]) -> Result<usize, Refusal>
        ensures outcome { outcome_of result ≡ counted (left self.entry) }
        ensures kept { Kept (λ x. x) (left self.entry) room.old room.new }
    {
        let mut k: usize = 0;
        while let Some(paid) = self.next()? {
            keep(room, k, paid.flow);
            k += 1;
        }
        Ok(k)
    }
}

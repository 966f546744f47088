// Flows as lists, where a flow is what stands at one place of each of the three, and flows as
// records.
use crate::fields::{Fields, TABLE};
use crate::given::Given;
use crate::lent;
use crate::line::{self, Answer, Bits, Letters};
use crate::lines::Lines;
use calendar::{Date, Day};
use cash_flow::CashFlow;
use outcome::Refusal;
use std::fmt::{self, Write};

// The most flows that lists hold.
const LISTED: usize = 100;

// More records than a rollout keeps, so that what it reads anew is asked too.
const RECORDS: usize = 300;

// A date's serial day, 0 where there is none.
fn day_number(t: Date) -> u32 {
    calendar::day_of(t).map_or(0, |d| d.0)
}

#[derive(Clone, Copy)]
struct Lists {
    days: Given<u32, LISTED>,
    currencies: Given<u32, LISTED>,
    amounts: Given<f64, LISTED>,
}

impl Lists {
    fn read(f: &mut Fields) -> Lists {
        let flows: Given<CashFlow, LISTED> = f.flows();
        Lists {
            days: flows.map(0, |x| day_number(x.date)),
            currencies: flows.map(0, |x| line::currency_number(x.currency)),
            amounts: flows.map(0.0, |x| x.amount),
        }
    }
}

pub(crate) fn discount_plain_flows(mut f: Fields) -> Result<f64, Refusal> {
    let rate = f.flat_rate();
    let today = f.date();
    let Lists {
        days,
        currencies,
        amounts,
    } = Lists::read(&mut f);
    rates::discount_plain_flows(
        rate,
        days.as_slice(),
        currencies.as_slice(),
        amounts.as_slice(),
        today,
    )
}

pub(crate) fn flows_after_plain(mut f: Fields, out: &mut Lines) -> fmt::Result {
    let day = Day(day_number(f.date()));
    let places = f.places().min(LISTED);
    let given = Lists::read(&mut f);
    let mut days = [lent::WORD; LISTED];
    let mut currencies = [lent::WORD; LISTED];
    let mut amounts = [lent::FLOAT; LISTED];
    let answer = fixed_income::flows_after_plain(
        day,
        given.days.as_slice(),
        given.currencies.as_slice(),
        given.amounts.as_slice(),
        &mut days[..places],
        &mut currencies[..places],
        &mut amounts[..places],
    );
    let n = answer.unwrap_or(0);
    write!(out, "{}", Answer(answer))?;
    for ((day, currency), amount) in days.iter().zip(&currencies).zip(&amounts).take(n) {
        write!(out, " {day}:{currency}:{}", Bits(*amount))?;
    }
    let is_kept = lent::is_kept(&days, n, lent::WORD)
        && lent::is_kept(&currencies, n, lent::WORD)
        && lent::is_kept(&amounts, n, lent::FLOAT);
    line::say_kept(out, is_kept)
}

pub(crate) fn discount_cash_flow_stream(mut f: Fields) -> Result<f64, Refusal> {
    let rate = f.flat_rate();
    let today = f.date();
    let flows: Given<CashFlow, RECORDS> = f.flows();
    rates::discount_cash_flow_stream(rate, flows.as_slice(), today)
}

// What a call answers and leaves in its room.
#[derive(Clone, Copy)]
struct Records {
    answer: Result<usize, Refusal>,
    room: [CashFlow; RECORDS],
}

// Lends as many records as are asked for, of the room that there is.
fn lend_records<F: FnOnce(&mut [CashFlow]) -> Result<usize, Refusal>>(
    places: usize,
    write: F,
) -> Records
    requires { F.IsAlwaysCallable write }
{
    let mut room = [lent::FLOW; RECORDS];
    let places = places.min(RECORDS);
    let answer = write(&mut room[..places]);
    Records { answer, room }
}

// What stands in the room behind the answer.
fn say_records(out: &mut Lines, records: Records) -> fmt::Result {
    let Records { answer, room } = records;
    let n = answer.unwrap_or(0);
    write!(out, "{}", Answer(answer))?;
    for flow in room.iter().take(n) {
        let Date { year, month, day } = flow.date;
        let letters = Letters(flow.currency);
        write!(out, " {year}-{month}-{day}:{letters}:{}", Bits(flow.amount))?;
    }
    line::say_kept(out, lent::is_kept(&room, n, lent::FLOW))
}

pub(crate) fn get_cash_flows_after(mut f: Fields, out: &mut Lines) -> fmt::Result {
    let date = f.date();
    let places = f.places();
    let flows: Given<CashFlow, RECORDS> = f.flows();
    let records = lend_records(places, |room| {
        fixed_income::get_cash_flows_after(flows.as_slice(), date, room)
    });
    say_records(out, records)
}

pub(crate) fn rollout_cash_flows(mut f: Fields, out: &mut Lines) -> fmt::Result {
    let note = f.note();
    let position = f.float();
    let places = f.places();
    let mut table_places = [0; TABLE];
    let table = f.table(&mut table_places);
    let records = lend_records(places, |room| {
        rollout::rollout_cash_flows(note, position, table, room)
    });
    say_records(out, records)
}

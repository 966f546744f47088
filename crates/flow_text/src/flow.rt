// Cash flows as text, as finql's `Display` writes them.
ghost use Rattle.std.specs.Prelude.{◌≡◌, true};
ghost use Rattle.std.specs.Float.Ieee.Scale.{finite};
ghost use Rattle.number_text.specs.write.Writing.{HasRoom, Puts};
ghost use Rattle.calendar.specs.dates.Dates.{is_date};
ghost use Rattle.flow_text.specs.flow.Texts.{flow_text, FlowTakes, FlowWrites};

use crate::amount::{amount_length, put_amount};
use crate::date::{DATE_LENGTH, put_date};
use cash_flow::CashFlow;
use number_text::Writer;
use outcome::Refusal;

// Inner: a flow's text; asks for a finite amount, a date that exists and room.
pub fn put_cash_flow_at(flow: CashFlow, w: &mut Writer)
    requires amount_finite { finite flow.amount ≡ true }
    requires date_exists { is_date flow.date ≡ true }
    requires room { HasRoom w.old (flow_text flow) }
    ensures { Puts w.old w.new (flow_text flow) }
{
    put_date(flow.date, w);
    w.put(b' ');
    put_amount(flow.amount, flow.currency, w);
}

// How many bytes a flow's date, amount and currency take; refused 15, 17, 1.
pub fn cash_flow_length(flow: CashFlow) -> Result<usize, Refusal>
    ensures { FlowTakes flow result }
{
    let k = amount_length(flow.amount, flow.currency)?;
    if !calendar::is_date(flow.date) {
        return Err(Refusal::InvalidDate);
    }
    Ok(DATE_LENGTH + 1 + k)
}

// A flow's date, amount and currency, in front of the lent bytes; refused 15, 17, 1, 16.
pub fn write_cash_flow(flow: CashFlow, out: &mut [u8]) -> Result<usize, Refusal>
    ensures { FlowWrites flow out.old out.new result }
{
    let k = cash_flow_length(flow)?;
    if out.len() < k {
        return Err(Refusal::TooFewPlaces);
    }
    let mut w = Writer::new(out);
    put_cash_flow_at(flow, &mut w);
    Ok(w.at)
}

// Flows as lines of text: measured first, and then written where they have room.
ghost use Rattle.std.specs.Prelude.{◌≡◌, ◌≤◌, length, IfOk};
ghost use Rattle.number_text.specs.write.Writing.{Puts, Takes};
ghost use Rattle.note_listing.specs.lines.Lines.{line_shown, lines_of};
ghost use Rattle.note_listing.specs.lines.Inner.{flow_on, flows_shown, text_of, LineFits};

use cash_flow::{CashFlow, Currency};
use number_text::Writer;
use outcome::Refusal;

fn flow_on(currency: Currency, day: u32, amount: f64) -> CashFlow
    ensures { result ≡ flow_on currency day amount }
{
    CashFlow {
        date: cash_flow::date_or_none(day),
        currency,
        amount,
    }
}

// How many bytes a line takes.
fn line_length(flow: CashFlow) -> Result<usize, Refusal>
    ensures takes { Takes (line_shown flow) result }
    ensures short { IfOk result (λ k. k ≤ 331) }
{
    Ok(flow_text::cash_flow_length(flow)? + 1)
}

// Inner: how many bytes all lines take, or the first refusal; asks for at most 2,000 days.
pub(crate) fn lines_length(
    currency: Currency,
    days: &[u32],
    amounts: &[f64],
) -> Result<usize, Refusal>
    requires { length days.now ≤ 2000 }
    ensures takes { Takes (lines_of (flows_shown currency days.now amounts.now)) result }
    ensures short { IfOk result (λ k. k ≤ 662000) }
{
    let mut total: usize = 0;
    for (day, amount) in days.iter().zip(amounts) {
        total += line_length(flow_on(currency, *day, *amount))?;
    }
    Ok(total)
}

fn put_line(flow: CashFlow, w: &mut Writer)
    requires { LineFits (line_shown flow) (length w.old.out.now) w.old.at }
    ensures { Puts w.old w.new (text_of (line_shown flow)) }
{
    flow_text::put_cash_flow_at(flow, w);
    w.put(b'\n');
}

// Inner: all lines; asks for room.
pub(crate) fn put_lines(currency: Currency, days: &[u32], amounts: &[f64], w: &mut Writer)
    requires { LineFits (lines_of (flows_shown currency days.now amounts.now)) (length w.old.out.now) w.old.at }
    ensures { Puts w.old w.new (text_of (lines_of (flows_shown currency days.now amounts.now))) }
{
    for (day, amount) in days.iter().zip(amounts) {
        put_line(flow_on(currency, *day, *amount), w);
    }
}

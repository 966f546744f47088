// Discounting a stream that is given as plain lists.
ghost use Rattle.std.specs.Prelude.{◌≡◌, get_or};
ghost use Rattle.outcome.specs.Refusals.{outcome_of};
ghost use Rattle.cash_flow.specs.flow.Flows.{date_on};
ghost use Rattle.rates.specs.simple.Rates.{flow_value};
ghost use Rattle.rates.specs.plain.Counted.{year_days, counted_from};
ghost use Rattle.rates.specs.plain.Plain.{currency_at, DiscountPlainPromise};

use crate::simple::FlatRate;
use calendar::{Date, LAST_DAY};
use cash_flow::{CashFlow, Currency};
use day_count_conv::DayCountConv;
use outcome::Refusal;

// The currency whose three bytes a number is, or one that is malformed.
fn currency_at(n: u32) -> Currency
    ensures { result ≡ currency_at n }
{
    if n < 16777216 {
        Currency {
            first: (n / 65536) as u8,
            second: (n / 256 % 256) as u8,
            third: (n % 256) as u8,
        }
    } else {
        Currency {
            first: 0,
            second: 0,
            third: 0,
        }
    }
}

// What a list has at a place, or 0 past its end.
fn entry(s: &[u32], i: usize) -> u32
    ensures { result ≡ get_or s.now i 0 }
{
    s.get(i).copied().unwrap_or(0)
}

// The days of a rule's year where it counts days, and 0 where it does not.
fn year_days(convention: DayCountConv) -> u32
    ensures { result ≡ year_days convention }
{
    match convention {
        DayCountConv::Act365 => 365,
        DayCountConv::Act360 => 360,
        _ => 0,
    }
}

// The day from which on a flow needs no date: today, judged once for all flows; or none.
#[tactic(auto, unfolding(crate::specs::plain::Counted::counted_from))]
fn counted_from(rate: FlatRate, today: Date) -> Option<u32>
    ensures { result ≡ counted_from rate today }
{
    if year_days(rate.day_count_conv) == 0
        || !cash_flow::is_currency(rate.currency)
        || !calendar::is_date(today)
    {
        return None;
    }
    Some(calendar::day_of_date(today))
}

// What one flow is worth today. A date is taken only where days are not enough: it costs more than
// all the rest.
fn value_on(
    rate: FlatRate,
    today: Date,
    from: Option<u32>,
    day: u32,
    currency: Currency,
    amount: f64,
) -> Result<f64, Refusal>
    requires { from ≡ counted_from rate today }
    ensures { outcome_of result ≡ flow_value rate today (record { date = date_on day; currency = currency; amount = amount }) }
{
    if let Some(from) = from
        && from <= day
        && day <= LAST_DAY
        && currency == rate.currency
        && amount.is_finite()
    {
        let yf = f64::from(day - from) / f64::from(year_days(rate.day_count_conv));
        return Ok(crate::factors::simple_factor(rate.rate, yf) * amount);
    }
    let date = cash_flow::date_or_none(day);
    crate::simple::flow_value(
        rate,
        CashFlow {
            date,
            currency,
            amount,
        },
        today,
    )
}

// What a stream of three plain lists is worth today, summed from 0 in order; refused 15 for the
// rate, then flow by flow 15, 17 and by the fraction.
#[tactic(auto, using(day_fraction::proofs::Written::lit0), unfolding(crate::specs::simple::Rates::discounted_stream))]
pub fn discount_plain_flows(
    rate: FlatRate,
    days: &[u32],
    currencies: &[u32],
    amounts: &[f64],
    today: Date,
) -> Result<f64, Refusal>
    ensures { DiscountPlainPromise rate today days.now currencies.now amounts.now result }
{
    // The lists are serial days, currencies as numbers, and amounts.
    if !crate::factors::is_discount_rate(rate.rate) {
        return Err(Refusal::NumberOutOfLimits);
    }
    let from = counted_from(rate, today);
    let mut sum = 0.0;
    for (i, amount) in amounts.iter().enumerate() {
        let currency = currency_at(entry(currencies, i));
        sum += value_on(rate, today, from, entry(days, i), currency, *amount)?;
    }
    Ok(sum)
}

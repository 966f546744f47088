// Discounting at a flat rate with simple compounding: the factor and one cash flow.
ghost use Rattle.std.specs.Prelude.{◌≡◌};
ghost use Rattle.outcome.specs.Refusals.{outcome_of};
ghost use Rattle.rates.specs.simple.Rates.{fraction_to, is_one_currency, flow_value, FactorPromise, FlowPromise};

use crate::factors::{is_discount_rate, simple_factor};
use calendar::Date;
use cash_flow::{CashFlow, Currency};
use day_count_conv::DayCountConv;
use outcome::Refusal;

// finql's `FlatRate` with `Compounding::Simple`, the one compounding that is carried over.
#[derive(Clone, Copy)]
pub struct FlatRate {
    pub rate: f64,
    pub day_count_conv: DayCountConv,
    pub currency: Currency,
}

// The year fraction, with no roll date and no period.
#[tactic(auto, unfolding(crate::specs::simple::Rates::fraction_to))]
fn fraction_to(convention: DayCountConv, today: Date, pay_date: Date) -> Result<f64, Refusal>
    ensures { outcome_of result ≡ fraction_to convention today pay_date }
{
    day_count_conv::year_fraction(convention, today, pay_date, day_count_conv::no_terms())
}

// The factor 1 / (1 + rate x fraction) from a payment's date to today; refused 15, then by the
// fraction.
#[tactic(auto, unfolding(crate::specs::simple::Rates::discount_factor))]
pub fn discount_factor(rate: FlatRate, today: Date, pay_date: Date) -> Result<f64, Refusal>
    ensures { FactorPromise rate today pay_date result }
{
    if !is_discount_rate(rate.rate) {
        return Err(Refusal::NumberOutOfLimits);
    }
    let yf = fraction_to(rate.day_count_conv, today, pay_date)?;
    Ok(simple_factor(rate.rate, yf))
}

// Both are currencies, and the same.
#[tactic(auto, unfolding(crate::specs::simple::Rates::is_one_currency, cash_flow::specs::currency::Amounts::is_same_currency))]
fn is_one_currency(a: Currency, b: Currency) -> bool
    ensures { result ≡ is_one_currency a b }
{
    cash_flow::is_currency(a) && cash_flow::is_currency(b) && a == b
}

// Inner: one flow's value today, meant for a rate that is judged.
#[tactic(auto, using(crate::proofs::factors::Numbers::finite_same), unfolding(crate::specs::simple::Rates::flow_value))]
pub(crate) fn flow_value(rate: FlatRate, flow: CashFlow, today: Date) -> Result<f64, Refusal>
    ensures { outcome_of result ≡ flow_value rate today flow }
{
    if !flow.amount.is_finite() {
        return Err(Refusal::NumberOutOfLimits);
    }
    if !is_one_currency(rate.currency, flow.currency) {
        return Err(Refusal::BadCurrency);
    }
    let yf = fraction_to(rate.day_count_conv, today, flow.date)?;
    Ok(simple_factor(rate.rate, yf) * flow.amount)
}

// What a flow is worth today, factor x amount; refused 15 for the rate, 15, 17, then by the
// fraction.
#[tactic(auto, unfolding(crate::specs::simple::Rates::discounted_flow))]
pub fn discount_cash_flow(rate: FlatRate, flow: CashFlow, today: Date) -> Result<f64, Refusal>
    ensures { FlowPromise rate today flow result }
{
    if !is_discount_rate(rate.rate) {
        return Err(Refusal::NumberOutOfLimits);
    }
    flow_value(rate, flow, today)
}

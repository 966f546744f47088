// Cash flows: an amount of a currency on a date; comparison of two.
ghost use Rattle.std.specs.Prelude.{◌≡◌};
ghost use Rattle.cash_flow.specs.flow.Flows.{date_on, is_within, AggregatablePromise, ComparisonPromise};

use crate::currency::Currency;
use calendar::{Date, Day};

#[derive(Clone, Copy, Debug, PartialEq)]
pub struct CashFlow {
    pub date: Date,
    pub currency: Currency,
    pub amount: f64,
}

// What stands for a date where there is none.
const NO_DATE: Date = Date {
    year: 0,
    month: 0,
    day: 0,
};

// Inner: the date of a serial day in a plain list; 0-0-0 for a day that does not exist.
#[tactic(auto, unfolding(crate::specs::flow::Flows::date_on))]
pub fn date_or_none(day: u32) -> Date
    ensures { result ≡ date_on day }
{
    // Who reads the list judges its days.
    calendar::date_of(Day(day)).unwrap_or(NO_DATE)
}

// Whether two flows have the same date and the same currency, which need not exist.
#[tactic(auto, unfolding(crate::specs::flow::Flows::aggregatable_flows, calendar::specs::dates::Dates::is_same, crate::specs::currency::Amounts::is_same_currency))]
pub fn aggregatable(a: CashFlow, b: CashFlow) -> bool
    ensures { AggregatablePromise a b result }
{
    a.date == b.date && a.currency == b.currency
}

// finql's `abs() <= tol`, the sign dropped by hand; a NaN on either side is no.
fn is_within(d: f64, tol: f64) -> bool
    ensures { result ≡ is_within d tol }
{
    if d < 0.0 {
        return -d <= tol;
    }
    d <= tol
}

// Whether two flows have the same date, the same currency and amounts within a tolerance of each
// other.
#[tactic(auto, unfolding(crate::specs::flow::Flows::same_flows))]
pub fn fuzzy_cash_flows_cmp_eq(a: CashFlow, b: CashFlow, tol: f64) -> bool
    ensures { ComparisonPromise a b tol result }
{
    aggregatable(a, b) && is_within(a.amount - b.amount, tol)
}

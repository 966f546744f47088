// A stream of cash flows discounted at a flat rate: records.
ghost use Rattle.rates.specs.simple.Rates.{StreamPromise};

use crate::simple::FlatRate;
use calendar::Date;
use cash_flow::CashFlow;
use outcome::Refusal;

// What a stream of records is worth today, summed from 0 in order; refused 15 for the rate, then
// flow by flow 15, 17 and by the fraction.
#[tactic(auto, using(day_fraction::proofs::Written::lit0), unfolding(crate::specs::simple::Rates::discounted_stream))]
pub fn discount_cash_flow_stream(
    rate: FlatRate,
    flows: &[CashFlow],
    today: Date,
) -> Result<f64, Refusal>
    ensures { StreamPromise rate today flows.now result }
{
    if !crate::factors::is_discount_rate(rate.rate) {
        return Err(Refusal::NumberOutOfLimits);
    }
    let mut sum = 0.0;
    for flow in flows {
        sum += crate::simple::flow_value(rate, *flow, today)?;
    }
    Ok(sum)
}

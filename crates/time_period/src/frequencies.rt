// How often a period comes in a year, as finql's time_period.rs.
ghost use Rattle.time_period.specs.steps.Periods.{FrequencyPromise};

use crate::steps::{TimePeriod, TimePeriodUnit};
use outcome::{Refusal, magnitude};

// How many of a period make a year, 12, 4, 2 or 1, its sign ignored; refused 5.
#[tactic(auto, unfolding(crate::specs::steps::Periods::frequency_of, crate::specs::steps::Periods::months_frequency, crate::specs::steps::Periods::years_frequency))]
pub fn frequency(p: TimePeriod) -> Result<u32, Refusal>
    ensures { FrequencyPromise p result }
{
    match (p.unit, magnitude(p.num)) {
        (TimePeriodUnit::Monthly, 1) => Ok(12),
        (TimePeriodUnit::Monthly, 3) => Ok(4),
        (TimePeriodUnit::Monthly, 6) => Ok(2),
        (TimePeriodUnit::Monthly, 12) => Ok(1),
        (TimePeriodUnit::Annual, 1) => Ok(1),
        _ => Err(Refusal::NoFrequency),
    }
}

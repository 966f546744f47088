// The packed codes of units, day counts and adjustments, both ways; `c_face` reads C's codes by
// them. A code is a variant's place. The way back is a `match` for each, as document 01 asks
// (FORM-3), and no `TryFrom`, which only the crate of the enum could write.
#![tactic(auto)]

ghost use Rattle.std.specs.Prelude.{◌≡◌};
ghost use Rattle.outcome.specs.Refusals.{outcome_of};
ghost use Rattle.packed_codes.specs.Codes.{unit_of_code, code_of_unit, convention_of_code, code_of_convention, adjustment_of_code, code_of_adjustment};

use day_adjust::DayAdjust;
use day_count_conv::DayCountConv;
use outcome::Refusal;
use time_period::TimePeriodUnit;

// Inner: the unit of a packed code; refused 18.
#[tactic(auto, using(crate::proofs::Codes::no_place), unfolding(crate::specs::Codes::at_place))]
pub fn unit_of_code(code: u32) -> Result<TimePeriodUnit, Refusal>
    ensures { outcome_of result ≡ unit_of_code code }
{
    match code {
        0 => Ok(TimePeriodUnit::Daily),
        1 => Ok(TimePeriodUnit::BusinessDaily),
        2 => Ok(TimePeriodUnit::Weekly),
        3 => Ok(TimePeriodUnit::Monthly),
        4 => Ok(TimePeriodUnit::Annual),
        _ => Err(Refusal::MalformedRecord),
    }
}

// Inner: the packed code of a unit.
pub fn code_of_unit(unit: TimePeriodUnit) -> u32
    ensures { result ≡ code_of_unit unit }
{
    unit as u32
}

// The day count convention of a packed code; refused 18.
#[tactic(auto, using(crate::proofs::Codes::no_place), unfolding(crate::specs::Codes::at_place))]
pub fn convention_of_code(code: u32) -> Result<DayCountConv, Refusal>
    ensures { outcome_of result ≡ convention_of_code code }
{
    match code {
        0 => Ok(DayCountConv::Act365),
        1 => Ok(DayCountConv::Act360),
        2 => Ok(DayCountConv::Act365l),
        3 => Ok(DayCountConv::D30_360),
        4 => Ok(DayCountConv::D30E360),
        5 => Ok(DayCountConv::ActActICMA),
        _ => Err(Refusal::MalformedRecord),
    }
}

// The packed code of a day count convention.
pub fn code_of_convention(convention: DayCountConv) -> u32
    ensures { result ≡ code_of_convention convention }
{
    convention as u32
}

// Inner: the adjustment of a packed code; refused 18.
#[tactic(auto, using(crate::proofs::Codes::no_place), unfolding(crate::specs::Codes::at_place))]
pub fn adjustment_of_code(code: u32) -> Result<DayAdjust, Refusal>
    ensures { outcome_of result ≡ adjustment_of_code code }
{
    match code {
        0 => Ok(DayAdjust::None),
        1 => Ok(DayAdjust::Following),
        2 => Ok(DayAdjust::Preceding),
        3 => Ok(DayAdjust::Modified),
        _ => Err(Refusal::MalformedRecord),
    }
}

// Inner: the packed code of an adjustment.
pub fn code_of_adjustment(rule: DayAdjust) -> u32
    ensures { result ≡ code_of_adjustment rule }
{
    rule as u32
}

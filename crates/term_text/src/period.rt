// The text of a period, as finql's time_period.rs reads and writes it.
ghost use Rattle.std.specs.Prelude.{◌≡◌};
ghost use Rattle.outcome.specs.Refusals.{outcome_of};
ghost use Rattle.number_text.specs.write.Writing.{Written};
ghost use Rattle.term_text.specs.period.PeriodTexts.{unit_of_letter, letter_of, period_text, ReadPeriodPromise};

use number_text::Writer;
use outcome::Refusal;
use time_period::{TimePeriod, TimePeriodUnit};

#[tactic(auto, unfolding(crate::specs::period::PeriodTexts::unit_of_letter))]
fn unit_of(b: u8) -> Result<TimePeriodUnit, Refusal>
    ensures { outcome_of result ≡ unit_of_letter b }
{
    match b {
        b'D' => Ok(TimePeriodUnit::Daily),
        b'B' => Ok(TimePeriodUnit::BusinessDaily),
        b'W' => Ok(TimePeriodUnit::Weekly),
        b'M' => Ok(TimePeriodUnit::Monthly),
        b'Y' => Ok(TimePeriodUnit::Annual),
        _ => Err(Refusal::InvalidUnit),
    }
}

// The period of a text, a signed decimal and D, B, W, M or Y; refused 2, 3, 4.
pub fn read_period(s: &[u8]) -> Result<TimePeriod, Refusal>
    ensures { ReadPeriodPromise s.now result }
{
    if s.len() < 2 {
        return Err(Refusal::PeriodTooShort);
    }
    let last = s.len() - 1;
    let unit = unit_of(s[last])?;
    let num = number_text::read_i32(&s[..last], Refusal::InvalidPeriod)?;
    Ok(TimePeriod { num, unit })
}

fn letter(unit: TimePeriodUnit) -> u8
    ensures { result ≡ letter_of unit }
{
    match unit {
        TimePeriodUnit::Daily => b'D',
        TimePeriodUnit::BusinessDaily => b'B',
        TimePeriodUnit::Weekly => b'W',
        TimePeriodUnit::Monthly => b'M',
        TimePeriodUnit::Annual => b'Y',
    }
}

// A period's number and its unit's letter, in front of the lent bytes; refused 16.
pub fn write_period(p: TimePeriod, out: &mut [u8]) -> Result<usize, Refusal>
    ensures { Written out.old out.new (period_text p) (outcome_of result) }
{
    if out.len() < number_text::signed_length(p.num) + 1 {
        return Err(Refusal::TooFewPlaces);
    }
    let mut w = Writer::new(out);
    w.put_signed(p.num);
    w.put(letter(p.unit));
    Ok(w.at)
}

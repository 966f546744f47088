// A refusal as a line of text.
ghost use Rattle.std.specs.Prelude.{◌≤◌, length};
ghost use Rattle.outcome.specs.Refusals.{outcome_of};
ghost use Rattle.number_text.specs.write.Writing.{Written};
ghost use Rattle.flow_text.specs.refusal.RefusalTexts.{refused_text};

use number_text::Writer;
use outcome::Refusal;

// Inner: `refused N` and a line feed, in front of the lent bytes; refused 16.
pub fn write_refusal(n: u32, out: &mut [u8]) -> Result<usize, Refusal>
    ensures { (Written out.old out.new (refused_text n) (outcome_of result)) × (length (refused_text n) ≤ 19) }
{
    let n = u64::from(n);
    if out.len() < 9 + number_text::decimal_length(n) {
        return Err(Refusal::TooFewPlaces);
    }
    let mut w = Writer::new(out);
    w.put_bytes(b"refused ");
    w.put_decimal(n);
    w.put(b'\n');
    Ok(w.at)
}

// Dates as text, as finql's `Display` writes them.
ghost use Rattle.std.specs.Prelude.{◌≡◌, true};
ghost use Rattle.number_text.specs.write.Writing.{HasRoom, Puts};
ghost use Rattle.calendar.specs.dates.Dates.{is_date};
ghost use Rattle.flow_text.specs.date.DateTexts.{date_text, DateWrites};

use calendar::Date;
use number_text::Writer;
use outcome::Refusal;

// Every date of the calendar takes as many bytes.
pub(crate) const DATE_LENGTH: usize = 10;

// It stands between the parts of a date.
const HYPHEN: u8 = b'-';

// Inner: a date as yyyy-mm-dd; asks for a date that exists and room.
#[tactic(auto, using(number_text::proofs::length::Digits::length_digits, crate::proofs::date::Dates::date_long))]
pub(crate) fn put_date(t: Date, w: &mut Writer)
    requires t_exists { is_date t ≡ true }
    requires room { HasRoom w.old (date_text t) }
    ensures { Puts w.old w.new (date_text t) }
{
    w.put_digits(u64::from(t.year), 4);
    w.put(HYPHEN);
    w.put_digits(u64::from(t.month), 2);
    w.put(HYPHEN);
    w.put_digits(u64::from(t.day), 2);
}

// A date as yyyy-mm-dd, in front of the lent bytes; refused 1, 16.
pub fn write_date(t: Date, out: &mut [u8]) -> Result<usize, Refusal>
    ensures { DateWrites t out.old out.new result }
{
    if !calendar::is_date(t) {
        return Err(Refusal::InvalidDate);
    }
    if out.len() < DATE_LENGTH {
        return Err(Refusal::TooFewPlaces);
    }
    let mut w = Writer::new(out);
    put_date(t, &mut w);
    Ok(w.at)
}

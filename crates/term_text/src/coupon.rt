// Coupon dates as dd.mm text, read and written.
ghost use Rattle.std.specs.Prelude.{◌≡◌, length};
ghost use Rattle.outcome.specs.Refusals.{outcome_of};
ghost use Rattle.number_text.specs.write.Writing.{Written};
ghost use Rattle.term_text.specs.coupon.CouponTexts.{is_blank, trim_start, trim_end, up_to_dot, DotAt, coupon_date_text, ReadCouponPromise};
ghost use Rattle.number_text.specs.read.Reading.{unsigned_number};

use coupon_date::CouponDate;
use number_text::Writer;
use outcome::Refusal;

#[tactic(auto, unfolding(crate::specs::coupon::CouponTexts::is_blank))]
fn is_blank(b: u8) -> bool
    ensures { result ≡ is_blank b }
{
    matches!(b, b' ' | 9..=13)
}

fn trim_start(mut s: &[u8]) -> &[u8]
    ensures { result.now ≡ trim_start s.now }
{
    while let [first, rest @ ..] = s {
        if !is_blank(*first) {
            break;
        }
        s = rest;
    }
    s
}

fn trim_end(mut s: &[u8]) -> &[u8]
    ensures { result.now ≡ trim_end s.now }
{
    while let [rest @ .., last] = s {
        if !is_blank(*last) {
            break;
        }
        s = rest;
    }
    s
}

// The place of the first dot.
fn dot_at(s: &[u8]) -> Option<usize>
    ensures { DotAt s.now result }
{
    s.iter().position(|b| *b == b'.')
}

// The month stands before the next dot, or to the end.
fn read_month(s: &[u8]) -> Result<u32, Refusal>
    ensures { outcome_of result ≡ unsigned_number 6 (up_to_dot s.now) }
{
    let end = dot_at(s).unwrap_or(s.len());
    number_text::read_u32(&s[..end], Refusal::CouponParseError)
}

// The coupon date of a text dd.mm; refused 6, 7, 8.
pub fn read_coupon_date(s: &[u8]) -> Result<CouponDate, Refusal>
    ensures { ReadCouponPromise s.now result }
{
    let s = trim_end(trim_start(s));
    let Some(dot) = dot_at(s) else {
        return Err(Refusal::CouponParseError);
    };
    let day = number_text::read_u32(&s[..dot], Refusal::CouponParseError)?;
    let month = read_month(&s[dot + 1..])?;
    coupon_date::new_coupon_date(day, month)
}

// How many bytes the text takes.
fn text_length(c: CouponDate) -> usize
    ensures { result ≡ length (coupon_date_text c) }
{
    number_text::padded_length(u64::from(c.day), 2)
        + 1
        + number_text::padded_length(u64::from(c.month), 2)
}

// A coupon date as dd.mm, in front of the lent bytes; refused 16.
pub fn write_coupon_date(c: CouponDate, out: &mut [u8]) -> Result<usize, Refusal>
    ensures { Written out.old out.new (coupon_date_text c) (outcome_of result) }
{
    if out.len() < text_length(c) {
        return Err(Refusal::TooFewPlaces);
    }
    let mut w = Writer::new(out);
    w.put_padded(u64::from(c.day), 2);
    w.put(b'.');
    w.put_padded(u64::from(c.month), 2);
    Ok(w.at)
}

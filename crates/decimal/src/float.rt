// An f64 as text, as Rust's `{:16.4}`: four decimals, right-aligned in at least 16 columns.
ghost use Rattle.std.specs.Prelude.{◌≡◌, true, ◌*◌, ◌^◌, ◌≤◌, ◌<◌};
ghost use Rattle.std.specs.Float.{binary64};
ghost use Rattle.std.specs.Float.Ieee.{of_bits};
ghost use Rattle.std.specs.Float.Ieee.Nearest.{closest};
ghost use Rattle.std.specs.Float.Ieee.Scale.{finite};
ghost use Rattle.number_text.specs.write.Writing.{HasRoom, Puts};
ghost use Rattle.decimal.specs.float.Decimal.{decimal_text16, DecimalTakes, DecimalWrites};
ghost use Rattle.decimal.specs.float.Parts.{PartsOf};

use crate::four_decimals;
use number_text::Writer;
use outcome::Refusal;

// A finite number's sign and ten-thousandths.
#[derive(Clone, Copy)]
enum Parts {
    // Below 2^49 they fit.
    Small(bool, u64),
    // From there on they are this number times so many factors two.
    Large(bool, u64, usize),
}

// n / 2^p, an exact half to the even whole number.
fn half_even(n: u64, p: u64) -> u64
    requires { n < 2 ^ 63 }
    ensures { result ≡ closest n (2 ^ p) }
{
    if 64 <= p {
        return 0;
    }
    let whole = n >> p;
    let rest = (n - (whole << p)) * 2;
    let unit: u64 = 1 << p;
    if rest < unit {
        return whole;
    }
    if unit < rest {
        return whole + 1;
    }
    whole + whole % 2
}

// The ten-thousandths of q * 2^k / 2^1074: 10000 is 625 * 16, so q * 625 fits.
fn ten_thousandths(q: u64, k: u64) -> u64
    requires q_bound { q < 2 ^ 53 }
    requires k_bound { k ≤ 1070 }
    ensures { result ≡ closest (q * 2 ^ k * 10000) (2 ^ 1074) }
{
    half_even(q * 625, 1070 - k)
}

// From the sign bit, the exponent's field and the digits' field.
fn parts_of_bits(b: u64) -> Option<Parts>
    ensures { PartsOf (of_bits binary64 b) result }
{
    let negative = 0x8000_0000_0000_0000 <= b;
    let field = b % 0x8000_0000_0000_0000 / 0x10_0000_0000_0000;
    let digits = b % 0x10_0000_0000_0000;
    if field == 2047 {
        return None;
    }
    if field == 0 {
        return Some(Parts::Small(negative, ten_thousandths(digits, 0)));
    }
    let q = 0x10_0000_0000_0000 + digits;
    if 1071 < field {
        return Some(Parts::Large(negative, q * 625, (field - 1071) as usize));
    }
    Some(Parts::Small(negative, ten_thousandths(q, field - 1)))
}

fn parts_of(x: f64) -> Option<Parts>
    ensures { PartsOf x result }
{
    if x != x {
        return None;
    }
    parts_of_bits(f64::to_bits(x))
}

// How many bytes an f64 with four decimals takes; refused 15 where it is not finite.
pub fn decimal_length(x: f64) -> Result<usize, Refusal>
    ensures { DecimalTakes x result }
{
    let Some(parts) = parts_of(x) else {
        return Err(Refusal::NumberOutOfLimits);
    };
    Ok(match parts {
        Parts::Small(negative, tens) => four_decimals::small_length(negative, tens),
        Parts::Large(negative, n, twos) => four_decimals::large_length(negative, n, twos),
    })
}

// Inner: the text of an f64; asks for a finite number and room.
pub fn put_decimal_at(x: f64, w: &mut Writer)
    requires x_finite { finite x ≡ true }
    requires room { HasRoom w.old (decimal_text16 x) }
    ensures { Puts w.old w.new (decimal_text16 x) }
{
    match parts_of(x).unwrap() {
        Parts::Small(negative, tens) => four_decimals::put_small(negative, tens, w),
        Parts::Large(negative, n, twos) => four_decimals::put_large(negative, n, twos, w),
    }
}

// An f64 with four decimals of its exact value, a half to the even digit, in at least 16 columns in
// front of the lent bytes; refused 15, 16.
pub fn write_decimal(x: f64, out: &mut [u8]) -> Result<usize, Refusal>
    ensures { DecimalWrites x out.old out.new result }
{
    let k = decimal_length(x)?;
    if out.len() < k {
        return Err(Refusal::TooFewPlaces);
    }
    let mut w = Writer::new(out);
    put_decimal_at(x, &mut w);
    Ok(w.at)
}

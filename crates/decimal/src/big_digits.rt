// The decimal digits of a number past 64 bits, in lent bytes.
ghost use Rattle.std.specs.Prelude.{◌≡◌, ◌*◌, ◌≤◌, ◌<◌, ◌^◌};
ghost use Rattle.number_text.specs.write.Writing.{digits};
ghost use Rattle.decimal.specs.big_digits.BigDigits.{Multiplied, Scaled, CountsZeros};

use number_text::Writer;

// So many factors two at once: ten times 2^48 is far below 2^64.
const TWOS_AT_ONCE: usize = 48;

// Digits times m, from the last digit on. Of a byte '0' to '9' the remainder by 16 is the digit.
fn multiply(m: u64, out: &mut [u8])
    requires { m ≤ 2 ^ 48 }
    ensures { Multiplied m out.old out.new }
{
    let mut carry: u64 = 0;
    for i in (0..out.len()).rev() {
        let t = (out[i] % 16) as u64 * m + carry;
        out[i] = b'0' + (t % 10) as u8;
        carry = t / 10;
    }
}

fn power_of_two(p: usize) -> u64
    requires { p ≤ 48 }
    ensures { result ≡ 2 ^ p }
{
    1 << p
}

// The last decimal digits of n x 2^twos, one in each lent byte.
pub fn put_scaled(n: u64, twos: usize, out: &mut [u8])
    ensures { Scaled n twos out.old out.new }
{
    let count = out.len();
    Writer::new(out).put_digits(n, count);
    // The last multiplication is by 1 only where there are no factors two at all.
    let whole = twos.saturating_sub(1) / TWOS_AT_ONCE;
    for _ in 0..whole {
        multiply(power_of_two(TWOS_AT_ONCE), out);
    }
    multiply(power_of_two(twos - whole * TWOS_AT_ONCE), out);
}

// How many bytes `0` stand in front of any other byte.
pub fn leading_zeros(s: &[u8]) -> usize
    ensures { CountsZeros s.now result }
{
    s.iter().position(|b| *b != b'0').unwrap_or(s.len())
}

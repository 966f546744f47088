// Numbers as text, as Rust's `Display` of integers, over bytes.
ghost use Rattle.std.specs.Prelude.{◌≡◌, [], ◌∷◌, replicate};
ghost use Rattle.outcome.specs.Refusals.{outcome_of};
ghost use Rattle.number_text.specs.write.Writing.{digits, decimal_text, padded_text, sign_text, signed_text, HasRoom, Puts, Written};

use crate::length::{decimal_length, padded_length, signed_length};
use outcome::Refusal;

// Lent bytes, and the place where the next byte goes.
#[derive(Drop)]
pub struct Writer<'a> {
    pub out: &'a mut [u8],
    pub at: usize,
}

impl<'a> Writer<'a> {
    // Inner: begins at the first byte; asks for nothing.
    pub fn new(out: &'a mut [u8]) -> Writer<'a>
        ensures same_bytes { result.out.ghost_name ≡ out.entry.ghost_name }
        ensures bytes { result.out.now ≡ out.old }
        ensures at { result.at ≡ 0 }
    {
        Writer { out, at: 0 }
    }

    // Inner: one byte; asks for room, as all below.
    pub fn put(&mut self, b: u8)
        requires { HasRoom self.old (b ∷ []) }
        ensures { Puts self.old self.new (b ∷ []) }
    {
        self.out[self.at] = b;
        self.at += 1;
    }

    // Inner: one byte, `count` times.
    pub fn put_run(&mut self, b: u8, count: usize)
        requires { HasRoom self.old (replicate count b) }
        ensures { Puts self.old self.new (replicate count b) }
    {
        self.out[self.at..self.at + count].fill(b);
        self.at += count;
    }

    // Inner: some bytes.
    pub fn put_bytes(&mut self, s: &[u8])
        requires { HasRoom self.old s.now }
        ensures { Puts self.old self.new s.now }
    {
        let place = &mut self.out[self.at..self.at + s.len()];
        // Byte by byte: LLVM calls `memmove` for a copy whose two places it cannot tell apart, and
        // the archive for C asks for none.
        for i in (0..s.len()).rev() {
            place[i] = s[i];
        }
        self.at += s.len();
    }

    // Inner: the last `count` decimal digits of n.
    #[tactic(auto, using(crate::proofs::length::Digits::length_digits))]
    pub fn put_digits(&mut self, n: u64, count: usize)
        requires { HasRoom self.old (digits count n) }
        ensures { Puts self.old self.new (digits count n) }
    {
        let mut rest = n;
        for i in (0..count).rev() {
            self.out[self.at + i] = b'0' + (rest % 10) as u8;
            rest /= 10;
        }
        self.at += count;
    }

    // Inner: a `-`, where the number is negative.
    pub fn put_sign(&mut self, negative: bool)
        requires { HasRoom self.old (sign_text negative) }
        ensures { Puts self.old self.new (sign_text negative) }
    {
        if negative {
            self.put(b'-');
        }
    }

    // Inner: the shortest decimal of n.
    #[tactic(auto, using(crate::proofs::length::Digits::length_digits, crate::proofs::write::Writers::decimal_digits))]
    pub fn put_decimal(&mut self, n: u64)
        requires { HasRoom self.old (decimal_text n) }
        ensures { Puts self.old self.new (decimal_text n) }
    {
        self.put_digits(n, decimal_length(n));
    }

    // Inner: the number n with leading zeros to at least `width` digits.
    #[tactic(auto, using(crate::proofs::length::Digits::length_digits, crate::proofs::write::Writers::padded_digits))]
    pub fn put_padded(&mut self, n: u64, width: usize)
        requires { HasRoom self.old (padded_text width n) }
        ensures { Puts self.old self.new (padded_text width n) }
    {
        self.put_digits(n, padded_length(n, width));
    }

    // Inner: the sign and the shortest decimal of n.
    pub fn put_signed(&mut self, n: i32)
        requires { HasRoom self.old (signed_text n) }
        ensures { Puts self.old self.new (signed_text n) }
    {
        self.put_sign(n < 0);
        self.put_decimal(u64::from(outcome::magnitude(n)));
    }
}

// The shortest decimal of a number, in front of the lent bytes; refused 16.
pub fn write_u32(n: u32, out: &mut [u8]) -> Result<usize, Refusal>
    ensures { Written out.old out.new (decimal_text n) (outcome_of result) }
{
    write_padded(n, 1, out)
}

// The shortest decimal of a signed number, in front of the lent bytes; refused 16.
pub fn write_i32(n: i32, out: &mut [u8]) -> Result<usize, Refusal>
    ensures { Written out.old out.new (signed_text n) (outcome_of result) }
{
    if out.len() < signed_length(n) {
        return Err(Refusal::TooFewPlaces);
    }
    let mut w = Writer::new(out);
    w.put_signed(n);
    Ok(w.at)
}

// A number with leading zeros to at least `width` digits, in front of the lent bytes; refused 16.
pub fn write_padded(n: u32, width: usize, out: &mut [u8]) -> Result<usize, Refusal>
    ensures { Written out.old out.new (padded_text width n) (outcome_of result) }
{
    let n = u64::from(n);
    let k = padded_length(n, width);
    if out.len() < k {
        return Err(Refusal::TooFewPlaces);
    }
    let mut w = Writer::new(out);
    w.put_digits(n, k);
    Ok(w.at)
}

// How long the text of a number is, as Rust's `Display` of integers writes it.
ghost use Rattle.number_text.specs.length.NumberTexts.{TakesDecimal, TakesPadded, TakesSigned};

// How many bytes the shortest decimal of a number takes.
pub fn decimal_length(n: u64) -> usize
    ensures { TakesDecimal n result }
{
    let mut k: usize = 1;
    let mut rest = n;
    // Digit by digit: a number is no list that an iterator could pass.
    while 10 <= rest {
        rest /= 10;
        k += 1;
    }
    k
}

// How many bytes a number takes with leading zeros to at least `width` digits.
pub fn padded_length(n: u64, width: usize) -> usize
    ensures { TakesPadded width n result }
{
    decimal_length(n).max(width)
}

// How many bytes the shortest decimal of a signed number takes.
pub fn signed_length(n: i32) -> usize
    ensures { TakesSigned n result }
{
    usize::from(n < 0) + decimal_length(u64::from(outcome::magnitude(n)))
}

// Numbers out of text, as Rust's `parse` of integers, over bytes.
ghost use Rattle.std.specs.Prelude.{◌≡◌, ◌≤◌, pos, neg_ℤ};
ghost use Rattle.number_text.specs.read.Reading.{after_plus, TellsDecimal, TellsUnsigned, TellsSigned};

// Inner: the number of a decimal without a sign, at most `most`; asks for nothing; the caller names
// its refusal, of any type.
pub fn read_decimal<E: Copy>(s: &[u8], most: u32, refusal: E) -> Result<u32, E>
    ensures { TellsDecimal most refusal s.now result }
{
    if s.is_empty() {
        return Err(refusal);
    }
    let limit = u64::from(most);
    let mut v: u64 = 0;
    for b in s {
        if !b.is_ascii_digit() {
            return Err(refusal);
        }
        v = v * 10 + u64::from(b - b'0');
        // It stops once the number is past `most`, so no length of text can make it wrap.
        if limit < v {
            return Err(refusal);
        }
    }
    Ok(v as u32)
}

// The text without the one `+` that may stand before it.
fn after_plus(s: &[u8]) -> &[u8]
    ensures { result.now ≡ after_plus s.now }
{
    s.strip_prefix(b"+").unwrap_or(s)
}

// Inner: the number of a decimal of 32 bits, `+` allowed; asks for nothing; the caller names its
// refusal.
pub fn read_u32<E: Copy>(s: &[u8], refusal: E) -> Result<u32, E>
    ensures { TellsUnsigned refusal s.now result }
{
    read_decimal(after_plus(s), u32::MAX, refusal)
}

fn negated(v: u32) -> i32
    requires { v ≤ 2147483648 }
    ensures { result ≡ neg_ℤ (pos v) }
{
    (-i64::from(v)) as i32
}

// Inner: the number of a signed decimal of 32 bits, `-` and `+` allowed; asks for nothing; the
// caller names its refusal.
pub fn read_i32<E: Copy>(s: &[u8], refusal: E) -> Result<i32, E>
    ensures { TellsSigned refusal s.now result }
{
    if let Some(rest) = s.strip_prefix(b"-") {
        return Ok(negated(read_decimal(rest, 1 << 31, refusal)?));
    }
    Ok(read_decimal(after_plus(s), (1 << 31) - 1, refusal)? as i32)
}

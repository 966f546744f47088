// finql's `round2digits`: an amount rounded to a number of decimals, halves away from zero.
ghost use Rattle.std.specs.Prelude.{◌≡◌, true, not, ◌*◌, ◌≤◌, ◌<◌, ◌^◌, T};
ghost use Rattle.std.specs.Float.Ieee.{is_nan};
ghost use Rattle.std.specs.Float.Ieee.Positive.{num, den};
ghost use Rattle.std.specs.Float.Ieee.Scale.{finite};
ghost use Rattle.cash_flow.specs.round.RoundedAmounts.{is_width, is_roundable, power_of_ten, nearest_whole, rounded_away, RoundPromise};
ghost use Rattle.cash_flow.specs.round.Fields.{size_of};

use outcome::Refusal;

#[tactic(auto, unfolding(crate::specs::round::RoundedAmounts::is_roundable))]
fn is_roundable(x: f64, digits: i32) -> bool
    ensures { result ≡ is_roundable x digits }
{
    0 <= digits && digits <= 4 && crate::currency::is_up_to_billion(x)
}

// Rust's `powi` of ten, which is exact here.
fn ten_to(digits: i32) -> f64
    requires { is_width digits ≡ true }
    ensures { result ≡ power_of_ten digits }
{
    match digits {
        0 => 1.0,
        1 => 10.0,
        2 => 100.0,
        3 => 1000.0,
        4 => 10000.0,
        _ => unreachable!(),
    }
}

// Of a number below 2^52. One more bit than the whole part is kept, and it decides: 1 is a half or
// more.
fn nearest_whole(field: u64, mantissa: u64) -> u64
    requires field_bound { field ≤ 1074 }
    requires mantissa_bound { mantissa < 2 ^ 52 }
    ensures { (result ≡ nearest_whole (size_of field mantissa) (2 ^ 1074)) × (result ≤ 2 ^ 53) }
{
    if field < 1022 {
        return 0;
    }
    (((0x10_0000_0000_0000 + mantissa) >> (1074 - field)) + 1) / 2
}

// Rust's `f64::round`, of a number below 2^52: the library's takes twice the time.
fn round(y: f64) -> f64
    requires no_nan { T (not (is_nan y)) }
    requires below_2_52 { (T (finite y)) × (num y < 2 ^ 52 * den y) }
    ensures { result ≡ rounded_away y }
{
    let b = f64::to_bits(y);
    let field = b % 0x8000_0000_0000_0000 / 0x10_0000_0000_0000;
    let whole = nearest_whole(field, b % 0x10_0000_0000_0000) as f64;
    if 0x8000_0000_0000_0000 <= b {
        -whole
    } else {
        whole
    }
}

// An amount rounded to 0 to 4 digits, halves away from zero, a zero with its sign; refused 15.
#[tactic(auto, using(crate::proofs::round::Limits::roundable_width), unfolding(crate::specs::round::RoundedAmounts::round2digits_of, crate::specs::round::RoundedAmounts::rounded_by))]
pub fn round2digits(x: f64, digits: i32) -> Result<f64, Refusal>
    ensures { RoundPromise x digits result }
{
    if !is_roundable(x, digits) {
        return Err(Refusal::NumberOutOfLimits);
    }
    let power = ten_to(digits);
    Ok(round(x * power) / power)
}

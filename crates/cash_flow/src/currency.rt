// Amounts of money: a currency of three letters, the limits of an amount, and the answer that it
// is.
ghost use Rattle.std.specs.Prelude.{◌≡◌};
ghost use Rattle.cash_flow.specs.currency.Amounts.{is_capital, CurrencyPromise, SameCurrencyPromise, UpToBillionPromise};

// finql keeps three `char`s in an array; fields may stand in an enum, an array may not.
#[derive(Clone, Copy, Debug, PartialEq, Eq)]
pub struct Currency {
    pub first: u8,
    pub second: u8,
    pub third: u8,
}

#[tactic(auto, unfolding(crate::specs::currency::Amounts::is_capital))]
fn is_capital(b: u8) -> bool
    ensures { result ≡ is_capital b }
{
    b.is_ascii_uppercase()
}

// Whether a currency is three capital letters.
#[tactic(auto, unfolding(crate::specs::currency::Amounts::is_currency))]
pub fn is_currency(c: Currency) -> bool
    ensures { CurrencyPromise c result }
{
    is_capital(c.first) && is_capital(c.second) && is_capital(c.third)
}

// Whether two currencies have the same three letters.
#[tactic(auto, unfolding(crate::specs::currency::Amounts::is_same_currency))]
pub fn is_same_currency(a: Currency, b: Currency) -> bool
    ensures { SameCurrencyPromise a b result }
{
    a == b
}

// Whether a number is finite, from -1e9 to 1e9; -0.0 is one.
#[tactic(auto, using(crate::proofs::currency::Limits::billion_in, crate::proofs::currency::Limits::billion_out))]
pub fn is_up_to_billion(x: f64) -> bool
    ensures { UpToBillionPromise x result }
{
    // No comparison holds of a NaN. Two of them take less time than `abs`.
    -1e9 <= x && x <= 1e9
}

// What discounting asks of numbers alone: whether one is a rate, and the factor.
ghost use Rattle.std.specs.Prelude.{◌≡◌};
ghost use Rattle.rates.specs.factors.Factors.{is_discount_rate, factor_of};

// Inner: whether a rate is finite, from 0 to 1; -0.0 is 0.
#[tactic(auto, using(day_fraction::proofs::Written::lit0, day_fraction::proofs::Written::lit1), unfolding(crate::specs::factors::Factors::is_discount_rate))]
pub(crate) fn is_discount_rate(x: f64) -> bool
    ensures { result ≡ is_discount_rate x }
{
    0.0 <= x && x <= 1.0
}

// Inner: the factor 1 / (1 + rate x fraction), by finql's operations in its order.
#[tactic(auto, using(day_fraction::proofs::Written::lit1), unfolding(crate::specs::factors::Factors::factor_of))]
pub(crate) fn simple_factor(rate: f64, yf: f64) -> f64
    ensures { result ≡ factor_of rate yf }
{
    1.0 / (1.0 + rate * yf)
}

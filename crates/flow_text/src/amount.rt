// Amounts as text, as finql's `Display` writes them.
ghost use Rattle.std.specs.Prelude.{◌≡◌, true};
ghost use Rattle.std.specs.Float.Ieee.Scale.{finite};
ghost use Rattle.number_text.specs.write.Writing.{HasRoom, Puts};
ghost use Rattle.flow_text.specs.amount.AmountTexts.{amount_text, AmountTakes, AmountWrites};

use cash_flow::Currency;
use number_text::Writer;
use outcome::Refusal;

// A blank and three letters.
const CURRENCY_LENGTH: usize = 4;

// Inner: an amount and its currency; asks for a finite amount and room.
pub(crate) fn put_amount(x: f64, currency: Currency, w: &mut Writer)
    requires x_finite { finite x ≡ true }
    requires room { HasRoom w.old (amount_text x currency) }
    ensures { Puts w.old w.new (amount_text x currency) }
{
    decimal::put_decimal_at(x, w);
    w.put_bytes(&[b' ', currency.first, currency.second, currency.third]);
}

// How many bytes an amount and its currency take; refused 15, 17.
pub fn amount_length(x: f64, currency: Currency) -> Result<usize, Refusal>
    ensures { AmountTakes x currency result }
{
    let k = decimal::decimal_length(x)?;
    if !cash_flow::is_currency(currency) {
        return Err(Refusal::BadCurrency);
    }
    Ok(k + CURRENCY_LENGTH)
}

// An amount with four decimals and its currency, in front of the lent bytes; refused 15, 17, 16.
pub fn write_amount(x: f64, currency: Currency, out: &mut [u8]) -> Result<usize, Refusal>
    ensures { AmountWrites x currency out.old out.new result }
{
    let k = amount_length(x, currency)?;
    if out.len() < k {
        return Err(Refusal::TooFewPlaces);
    }
    let mut w = Writer::new(out);
    put_amount(x, currency, &mut w);
    Ok(w.at)
}

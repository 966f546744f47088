// The line of an answer: `ok` and words, or `refused N`.
use crate::lent;
use crate::lines::Lines;
use calendar::{Date, Day, Days};
use cash_flow::Currency;
use coupon_date::CouponDate;
use day_count_conv::DayCountConv;
use outcome::Refusal;
use std::fmt::{self, Display, Formatter, Write};
use time_period::TimePeriod;

// A value as words, a blank before each.
pub(crate) trait Words: Drop {
    fn words<W: fmt::Write>(&self, f: &mut Formatter<W>) -> fmt::Result;
}

impl Words for () {
    fn words<W: fmt::Write>(&self, _f: &mut Formatter<W>) -> fmt::Result {
        Ok(())
    }
}

impl Words for bool {
    fn words<W: fmt::Write>(&self, f: &mut Formatter<W>) -> fmt::Result {
        u64::from(*self).words(f)
    }
}

impl Words for u32 {
    fn words<W: fmt::Write>(&self, f: &mut Formatter<W>) -> fmt::Result {
        u64::from(*self).words(f)
    }
}

impl Words for usize {
    fn words<W: fmt::Write>(&self, f: &mut Formatter<W>) -> fmt::Result {
        write!(f, " {self}")
    }
}

impl Words for u64 {
    fn words<W: fmt::Write>(&self, f: &mut Formatter<W>) -> fmt::Result {
        write!(f, " {self}")
    }
}

impl Words for i32 {
    fn words<W: fmt::Write>(&self, f: &mut Formatter<W>) -> fmt::Result {
        write!(f, " {self}")
    }
}

impl Words for f64 {
    fn words<W: fmt::Write>(&self, f: &mut Formatter<W>) -> fmt::Result {
        write!(f, " {}", Bits(*self))
    }
}

impl Words for Day {
    fn words<W: fmt::Write>(&self, f: &mut Formatter<W>) -> fmt::Result {
        self.0.words(f)
    }
}

impl Words for Days {
    fn words<W: fmt::Write>(&self, f: &mut Formatter<W>) -> fmt::Result {
        self.0.words(f)
    }
}

impl Words for Date {
    fn words<W: fmt::Write>(&self, f: &mut Formatter<W>) -> fmt::Result {
        let Date { year, month, day } = *self;
        write!(f, " {year}-{month}-{day}")
    }
}

impl Words for TimePeriod {
    fn words<W: fmt::Write>(&self, f: &mut Formatter<W>) -> fmt::Result {
        let code = packed_codes::code_of_unit(self.unit);
        write!(f, " {} {code}", self.num)
    }
}

impl Words for CouponDate {
    fn words<W: fmt::Write>(&self, f: &mut Formatter<W>) -> fmt::Result {
        let CouponDate { day, month } = *self;
        write!(f, " {day} {month}")
    }
}

impl Words for DayCountConv {
    fn words<W: fmt::Write>(&self, f: &mut Formatter<W>) -> fmt::Result {
        packed_codes::code_of_convention(*self).words(f)
    }
}

#[derive(Drop)]
pub(crate) struct Answer<T>(pub(crate) Result<T, Refusal>);

impl<T: Words> Display for Answer<T> {
    fn fmt<W: fmt::Write>(&self, f: &mut Formatter<W>) -> fmt::Result {
        match &self.0 {
            Ok(x) => {
                f.write_str("ok")?;
                x.words(f)
            }
            Err(e) => write!(f, "refused {}", e.number()),
        }
    }
}

// The bits of a number; those of a NaN are not told apart.
#[derive(Clone, Copy)]
pub(crate) struct Bits(pub(crate) f64);

impl Display for Bits {
    fn fmt<W: fmt::Write>(&self, f: &mut Formatter<W>) -> fmt::Result {
        let bits = std::num::f64_to_bits_with_nan(self.0);
        write!(f, "{bits:016x}")
    }
}

// A currency as a number, its first letter the most significant.
pub(crate) fn currency_number(c: Currency) -> u32 {
    u32::from_be_bytes([0, c.first, c.second, c.third])
}

#[derive(Clone, Copy)]
pub(crate) struct Letters(pub(crate) Currency);

impl Display for Letters {
    fn fmt<W: fmt::Write>(&self, f: &mut Formatter<W>) -> fmt::Result {
        let number = currency_number(self.0);
        write!(f, "{number:06x}")
    }
}

// Bytes in hex, and `-` where there are none.
#[derive(Clone, Copy)]
struct Hex<'a>(&'a [u8]);

impl Display for Hex<'_> {
    fn fmt<W: fmt::Write>(&self, f: &mut Formatter<W>) -> fmt::Result {
        if self.0.is_empty() {
            return f.write_str("-");
        }
        for byte in self.0 {
            write!(f, "{byte:02x}")?;
        }
        Ok(())
    }
}

pub(crate) fn say<T: Words>(out: &mut Lines, answer: Result<T, Refusal>) -> fmt::Result {
    writeln!(out, "{}", Answer(answer))
}

pub(crate) fn say_refused(out: &mut Lines, number: u32) -> fmt::Result {
    writeln!(out, "refused {number}")
}

// Whether lent memory that no answer fills is as it was.
pub(crate) fn say_kept(out: &mut Lines, is_kept: bool) -> fmt::Result {
    writeln!(out, "{}", if is_kept { " kept" } else { " broken" })
}

// What a text's writer answers and leaves in its room.
pub(crate) fn say_text(
    out: &mut Lines,
    answer: Result<usize, Refusal>,
    room: &[u8],
) -> fmt::Result {
    write!(out, "{}", Answer(answer))?;
    if let Ok(n) = answer {
        write!(out, " {}", Hex(room.get(..n).unwrap_or(room)))?;
    }
    say_kept(out, lent::is_kept(room, answer.unwrap_or(0), lent::BYTE))
}

// Lends a writer as many bytes as are asked for, of the room that there is.
pub(crate) fn say_written<F: FnOnce(&mut [u8]) -> Result<usize, Refusal>>(
    out: &mut Lines,
    places: usize,
    write: F,
) -> fmt::Result
    requires { F.IsAlwaysCallable write }
{
    let mut room = [lent::BYTE; 512];
    let places = places.min(512);
    let answer = write(&mut room[..places]);
    say_text(out, answer, &room)
}

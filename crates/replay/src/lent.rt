// Memory that is lent to an entry point, filled with a pattern before.
use calendar::Date;
use cash_flow::{CashFlow, Currency};

pub(crate) const BYTE: u8 = 165;

pub(crate) const WORD: u32 = 2779096485;

// The number of bits 0x7FD5A5A5A5A5A5A5.
pub(crate) const FLOAT: f64 = 6.080432662034303e307;

pub(crate) const FLOW: CashFlow = CashFlow {
    date: Date {
        year: WORD,
        month: WORD,
        day: WORD,
    },
    currency: Currency {
        first: BYTE,
        second: BYTE,
        third: BYTE,
    },
    amount: FLOAT,
};

// Whether the pattern still stands behind the first places.
pub(crate) fn is_kept<T: PartialEq + Copy>(room: &[T], first: usize, pattern: T) -> bool {
    room.iter().skip(first).all(|x| *x == pattern)
}

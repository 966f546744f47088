// The fields of a record, one after another: what its bytes do not have is read as zeros.
use crate::given::Given;
use crate::lent;
use bond::{Note, NoteNumber};
use calendar::{Date, Day};
use cash_flow::{CashFlow, Currency};
use coupon_date::CouponDate;
use day_adjust::DayAdjust;
use day_count_conv::{DayCountConv, NoteTerms};
use rates::FlatRate;
use std::array;
use time_period::{TimePeriod, TimePeriodUnit};

const UNITS: [TimePeriodUnit; 5] = [
    TimePeriodUnit::Daily,
    TimePeriodUnit::BusinessDaily,
    TimePeriodUnit::Weekly,
    TimePeriodUnit::Monthly,
    TimePeriodUnit::Annual,
];

const CONVENTIONS: [DayCountConv; 6] = [
    DayCountConv::Act365,
    DayCountConv::Act360,
    DayCountConv::Act365l,
    DayCountConv::D30_360,
    DayCountConv::D30E360,
    DayCountConv::ActActICMA,
];

const ADJUSTMENTS: [DayAdjust; 4] = [
    DayAdjust::None,
    DayAdjust::Following,
    DayAdjust::Preceding,
    DayAdjust::Modified,
];

// The most days that a table is read to.
pub(crate) const TABLE: usize = 4200;

#[derive(Clone, Copy)]
pub(crate) struct Fields<'a> {
    rest: &'a [u8],
}

impl<'a> Fields<'a> {
    pub(crate) fn new(rest: &'a [u8]) -> Fields<'a> {
        Fields { rest }
    }

    // What is not read yet.
    pub(crate) fn rest(self) -> &'a [u8] {
        self.rest
    }

    pub(crate) fn byte(&mut self) -> u8 {
        let Some((byte, rest)) = self.rest.split_first() else {
            return 0;
        };
        self.rest = rest;
        *byte
    }

    fn bytes<const N: usize>(&mut self) -> [u8; N] {
        array::from_fn(|_| self.byte())
    }

    // Whether a byte is 1.
    pub(crate) fn yes(&mut self) -> bool {
        self.byte() == 1
    }

    // One of a kind, by its place; the last where there is no such place.
    fn one_of<T: Copy>(&mut self, kinds: &[T], last: T) -> T {
        let place = usize::from(self.byte());
        kinds.get(place).copied().unwrap_or(last)
    }

    fn count(&mut self) -> usize {
        usize::from(u16::from_be_bytes(self.bytes()))
    }

    pub(crate) fn word(&mut self) -> u32 {
        u32::from_be_bytes(self.bytes())
    }

    pub(crate) fn long(&mut self) -> u64 {
        u64::from_be_bytes(self.bytes())
    }

    pub(crate) fn signed(&mut self) -> i32 {
        i32::from_be_bytes(self.bytes())
    }

    pub(crate) fn signed_long(&mut self) -> i64 {
        i64::from_be_bytes(self.bytes())
    }

    pub(crate) fn float(&mut self) -> f64 {
        std::num::f64_from_bits_with_nan(self.long())
    }

    // How many places of a lent room are asked for.
    pub(crate) fn places(&mut self) -> usize {
        self.word() as usize
    }

    pub(crate) fn date(&mut self) -> Date {
        Date {
            year: self.word(),
            month: self.word(),
            day: self.word(),
        }
    }

    pub(crate) fn day(&mut self) -> Day {
        Day(self.word())
    }

    pub(crate) fn period(&mut self) -> TimePeriod {
        TimePeriod {
            num: self.signed(),
            unit: self.one_of(&UNITS, TimePeriodUnit::Annual),
        }
    }

    pub(crate) fn convention(&mut self) -> DayCountConv {
        self.one_of(&CONVENTIONS, DayCountConv::ActActICMA)
    }

    pub(crate) fn adjustment(&mut self) -> DayAdjust {
        self.one_of(&ADJUSTMENTS, DayAdjust::Modified)
    }

    pub(crate) fn terms(&mut self) -> NoteTerms {
        let is_rolled = self.yes();
        let roll = self.date();
        let is_periodic = self.yes();
        let period = self.period();
        NoteTerms {
            roll: is_rolled.then_some(roll),
            period: is_periodic.then_some(period),
        }
    }

    pub(crate) fn currency(&mut self) -> Currency {
        Currency {
            first: self.byte(),
            second: self.byte(),
            third: self.byte(),
        }
    }

    pub(crate) fn flow(&mut self) -> CashFlow {
        CashFlow {
            date: self.date(),
            currency: self.currency(),
            amount: self.float(),
        }
    }

    pub(crate) fn flat_rate(&mut self) -> FlatRate {
        FlatRate {
            rate: self.float(),
            day_count_conv: self.convention(),
            currency: self.currency(),
        }
    }

    pub(crate) fn coupon(&mut self) -> CouponDate {
        CouponDate {
            day: self.word(),
            month: self.word(),
        }
    }

    pub(crate) fn note_number(&mut self) -> NoteNumber {
        NoteNumber {
            count: self.word(),
            digits: self.long(),
        }
    }

    pub(crate) fn note(&mut self) -> Note {
        Note {
            number: self.note_number(),
            issue_date: self.date(),
            maturity: self.date(),
            coupon_date: self.coupon(),
            period: self.period(),
            day_count_convention: self.convention(),
            business_day_rule: self.adjustment(),
            denomination: self.word(),
            rate: self.float(),
            currency: self.currency(),
        }
    }

    // The days behind their count, in lent places.
    pub(crate) fn table<'b>(&mut self, places: &'b mut [u32; TABLE]) -> &'b [u32] {
        let n = self.count();
        for place in places.iter_mut().take(n) {
            *place = self.word();
        }
        places.get(..n).unwrap_or(places)
    }

    // The flows behind their count.
    pub(crate) fn flows<const N: usize>(&mut self) -> Given<CashFlow, N> {
        let n = self.count();
        Given::new(n, lent::FLOW, || self.flow())
    }
}

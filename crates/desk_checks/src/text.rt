// How a value stands in a line: as the register's own writers write it, and rules by their names.
use bond::Note;
use calendar::Date;
use coupon_date::CouponDate;
use day_adjust::DayAdjust;
use day_count_conv::DayCountConv;
use outcome::Refusal;
use std::fmt::{self, Display, Formatter};
use std::str;
use time_period::TimePeriod;

#[derive(Clone, Copy)]
pub(crate) struct Text {
    room: [u8; 32],
    length: usize,
}

impl Text {
    fn new<F: FnOnce(&mut [u8]) -> Result<usize, Refusal>>(write: F) -> Text
        requires { F.IsAlwaysCallable write }
    {
        let mut room = [0; 32];
        let length = write(&mut room).unwrap_or(0);
        Text { room, length }
    }
}

impl Display for Text {
    fn fmt<W: fmt::Write>(&self, f: &mut Formatter<W>) -> fmt::Result {
        let text = self.room.get(..self.length).unwrap_or(&[]);
        // Blanks stand in front of an amount.
        f.write_str(str::from_utf8(text.trim_ascii_start()).unwrap_or(""))
    }
}

pub(crate) fn date(t: Date) -> Text {
    Text::new(|room| flow_text::write_date(t, room))
}

pub(crate) fn period(p: TimePeriod) -> Text {
    Text::new(|room| term_text::write_period(p, room))
}

pub(crate) fn coupon(c: CouponDate) -> Text {
    Text::new(|room| term_text::write_coupon_date(c, room))
}

// Four decimals.
pub(crate) fn amount(x: f64) -> Text {
    Text::new(|room| decimal::write_decimal(x, room))
}

pub(crate) fn rule(c: DayCountConv) -> &'static str {
    match c {
        DayCountConv::Act365l => "act/365 leap",
        DayCountConv::D30_360 => "30/360",
        DayCountConv::D30E360 => "30E/360",
        DayCountConv::ActActICMA => "ICMA",
        _ => "another rule",
    }
}

pub(crate) fn adjustment(r: DayAdjust) -> &'static str {
    match r {
        DayAdjust::Following => "following",
        DayAdjust::Modified => "modified",
        _ => "another rule",
    }
}

// A note's issue, coupon date, period and rate.
#[derive(Clone, Copy)]
pub(crate) struct NoteText(pub(crate) Note);

impl Display for NoteText {
    fn fmt<W: fmt::Write>(&self, f: &mut Formatter<W>) -> fmt::Result {
        let n = self.0;
        let issued = date(n.issue_date);
        let coupon = coupon(n.coupon_date);
        let period = period(n.period);
        let rate = amount(n.rate);
        // More than 100, even where four decimals do not show it.
        let more = if 100.0 < n.rate { ">" } else { "" };
        write!(f, ", issued {issued} {coupon} {period} {more}{rate}%")
    }
}

// A value, or a refusal by its number.
#[derive(Drop)]
pub(crate) struct Answer<D>(pub(crate) Result<D, Refusal>);

impl<D: Display> Display for Answer<D> {
    fn fmt<W: fmt::Write>(&self, f: &mut Formatter<W>) -> fmt::Result {
        match &self.0 {
            Ok(x) => write!(f, "{x}"),
            Err(e) => write!(f, "refused {}", e.number()),
        }
    }
}

// The five day-count rules of finql's day_count_conv.rs that need two dates alone, for dates that
// are already judged. One function that takes the rule was tried, and is slower (docs/SPEED.md).
#![tactic(auto)]

ghost use Rattle.std.specs.Prelude.{◌≡◌, true, ◌≤◌, pos};
ghost use Rattle.calendar.specs.gregorian.Gregorian.{year_length};
ghost use Rattle.calendar.specs.dates.Dates.{is_date};
ghost use Rattle.day_fraction.specs.Exact.{difference};
ghost use Rattle.day_fraction.specs.Fractions.{Span, days, years, months, since_january, cut, end_day, whole, quotient, thirties_bits, bits, impossible};

use calendar::{Date, day_of_date, days_before_month, is_leap};

// In the order of document 01's table.
#[derive(Clone, Copy, Debug, PartialEq, Eq)]
pub enum SimpleRule {
    Act365,
    Act360,
    Act365l,
    D30_360,
    D30E360,
}

// Two dates that are judged: they exist, and the start is not after the end.
#[derive(Clone, Copy, Debug, PartialEq, Eq)]
pub struct DateSpan {
    pub start: Date,
    pub end: Date,
    pub ghost ordered: { Span start end },
}

impl DateSpan {
    fn days(self) -> u32
        ensures { pos result ≡ days self.start self.end }
    {
        day_of_date(self.end) - day_of_date(self.start)
    }

    // Whole years, months over 12 and adjusted days over 360, added in this order.
    fn in_thirties(self, from: u32, to: u32) -> f64
        requires { (from ≤ 31) × (to ≤ 31) }
        ensures { result ≡ thirties_bits (years self.start self.end) (months self.start self.end) (difference to from) }
    {
        let y = signed_difference(self.end.year, self.start.year);
        let m = signed_difference(self.end.month, self.start.month);
        let d = signed_difference(to, from);
        y + m / 12.0 + d / 360.0
    }
}

// Inner: the fraction by Act/365; asks for dates that exist, in order.
pub fn calc_act_365(span: DateSpan) -> f64
    ensures { result ≡ bits SimpleRule.Act365 span.start span.end }
{
    span.days() as f64 / 365.0
}

// Inner: the fraction by Act/360; asks for dates that exist, in order.
pub fn calc_act_360(span: DateSpan) -> f64
    ensures { result ≡ bits SimpleRule.Act360 span.start span.end }
{
    span.days() as f64 / 360.0
}

// How much of its year is gone at a date: the days since 1 January, of which no serial day is
// taken, over the year's length.
fn part_of_year_elapsed(t: Date) -> f64
    requires { is_date t ≡ true }
    ensures { result ≡ quotient (pos (since_january t)) (year_length t.year) }
{
    let since = days_before_month(t.year, t.month) + t.day - 1;
    // The year's length would be a number made an f64 at each call, and not a literal.
    if is_leap(t.year) {
        since as f64 / 366.0
    } else {
        since as f64 / 365.0
    }
}

// A difference with its sign: months go down where a period crosses the new year.
fn signed_difference(to: u32, from: u32) -> f64
    requires { (to ≤ 9999) × (from ≤ 9999) }
    ensures { result ≡ whole (difference to from) }
{
    (to as i32 - from as i32) as f64
}

// Inner: the fraction by Act/365 leap; asks for dates that exist, in order.
pub fn calc_act_365_leap(span: DateSpan) -> f64
    ensures { result ≡ bits SimpleRule.Act365l span.start span.end }
{
    let y = signed_difference(span.end.year, span.start.year);
    let last = part_of_year_elapsed(span.end);
    let first = part_of_year_elapsed(span.start);
    y + last - first
}

fn cut_day(day: u32) -> u32
    ensures { result ≡ cut day }
{
    if day == 31 { 30 } else { day }
}

// 30/360 cuts an end only after a start on the 30th or the 31st.
fn end_day(start: u32, day: u32) -> u32
    ensures { result ≡ end_day start day }
{
    if start == 30 || start == 31 {
        cut_day(day)
    } else {
        day
    }
}

// Inner: the fraction by 30/360; asks for dates that exist, in order.
pub fn calc_30_360(span: DateSpan) -> f64
    ensures { result ≡ bits SimpleRule.D30_360 span.start span.end }
{
    span.in_thirties(
        cut_day(span.start.day),
        end_day(span.start.day, span.end.day),
    )
}

// Inner: the fraction by 30E/360; asks for dates that exist, in order.
pub fn calc_30_e_360(span: DateSpan) -> f64
    ensures { result ≡ bits SimpleRule.D30E360 span.start span.end }
{
    span.in_thirties(cut_day(span.start.day), cut_day(span.end.day))
}

// Inner: whether 30/360 and 30E/360 are refused 9; asks for dates that exist, in order.
#[tactic(auto, using(crate::proofs::Impossible::overnight_360, crate::proofs::Impossible::overnight_e360))]
pub fn is_30th_to_31st(span: DateSpan) -> bool
    ensures { (result ≡ impossible SimpleRule.D30_360 span.start span.end) × (result ≡ impossible SimpleRule.D30E360 span.start span.end) }
{
    // Both rules are 0 on two different dates in one case: from the 30th to the 31st of one month.
    let start = span.start;
    let end = span.end;
    start.day == 30 && end.day == 31 && start.month == end.month && start.year == end.year
}

// Act/Act ICMA: the whole periods and the broken parts between two dates, by walks from the roll
// date.
ghost use Rattle.std.specs.Prelude.{◌≡◌, true, ◌-◌, ◌≤◌, pos, ◌-ℤ◌};
ghost use Rattle.outcome.specs.Refusals.{outcome_of};
ghost use Rattle.calendar.specs.dates.Dates.{is_date, day_number};
ghost use Rattle.icma.specs.parts.Walk.{step, short_parts, long_parts, icma_parts};
ghost use Rattle.icma.specs.parts.Leads.{leads_to};
ghost use Rattle.icma.specs.parts.Cut.{cut_part};
ghost use Rattle.icma.specs.walks.Ways.{leads};

use crate::walks::{BACK, ON, Walked, base_from, is_past, walk};
use calendar::{Date, day_of_date};
use day_fraction::DateSpan;
use outcome::Refusal;
use time_period::{TimePeriod, step};

// A period that the start or the end cuts: some days, which may be negative, over the period's
// length.
#[derive(Clone, Copy, Debug, PartialEq, Eq)]
pub struct Part {
    pub days: i32,
    pub length: u32,
}

// Shorter than a period: the days, and the period's length. Or the broken parts at both ends, and
// the whole periods.
#[derive(Clone, Copy, Debug, PartialEq, Eq)]
pub enum Parts {
    Short {
        days: u32,
        length: u32,
    },
    Long {
        first: Option<Part>,
        last: Option<Part>,
        count: u32,
    },
}

// The difference of two serial days, which may be negative.
fn gap(later: Date, earlier: Date) -> i32
    requires { (is_date later ≡ true) × (is_date earlier ≡ true) }
    ensures { result ≡ pos (day_number later) -ℤ pos (day_number earlier) }
{
    day_of_date(later) as i32 - day_of_date(earlier) as i32
}

// The days from a date to one that is not before it.
fn length(from: Date, to: Date) -> u32
    requires { (is_date from ≡ true) × (is_date to ≡ true) × (day_number from ≤ day_number to) }
    ensures { result ≡ day_number to - day_number from }
{
    day_of_date(to) - day_of_date(from)
}

#[tactic(auto, unfolding(crate::specs::parts::Walk::short_parts))]
fn short_parts(p: TimePeriod, span: DateSpan, base: Date) -> Result<Parts, Refusal>
    requires { (is_date base ≡ true) × (leads ON p.num ≡ true) }
    ensures { outcome_of result ≡ short_parts p span.start span.end base }
{
    let u = step(p, base)?;
    Ok(Parts::Short {
        days: length(span.start, span.end),
        length: length(base, u),
    })
}

// What an edge cuts of the period by which a walk came past it.
fn cut_part<const WAY: bool>(p: TimePeriod, edge: Date, t: Date) -> Result<Option<Part>, Refusal>
    requires { (is_date edge ≡ true) × (is_date t ≡ true) × (leads WAY p.num ≡ true) }
    ensures { outcome_of result ≡ cut_part WAY p edge t }
{
    if !is_past::<WAY>(edge, t) {
        return Ok(None);
    }
    let u = step(p, t)?;
    if WAY {
        let days = gap(u, edge);
        return Ok(Some(Part {
            days,
            length: length(t, u),
        }));
    }
    let days = gap(edge, u);
    Ok(Some(Part {
        days,
        length: length(u, t),
    }))
}

// Back from the base to the start, then on from it to the end; both counts are added.
fn long_parts(p: TimePeriod, q: TimePeriod, span: DateSpan, base: Date) -> Result<Parts, Refusal>
    requires { (is_date base ≡ true) × (leads ON p.num ≡ true) × (leads BACK q.num ≡ true) }
    ensures { outcome_of result ≡ long_parts p q span.start span.end base }
{
    let here = Walked { at: base, count: 0 };
    let b = walk::<BACK>(q, here, span.start)?;
    let first = cut_part::<ON>(p, span.start, b.at)?;
    let e = walk::<ON>(p, here, span.end)?;
    let last = cut_part::<BACK>(q, span.end, e.at)?;
    Ok(Parts::Long {
        first,
        last,
        count: b.count + e.count,
    })
}

// Whether a period leads from one date to another.
#[tactic(auto, unfolding(calendar::specs::dates::Dates::is_same))]
fn leads(p: TimePeriod, from: Date, to: Date) -> bool
    requires { is_date from ≡ true }
    ensures { result ≡ leads_to (step p from) to }
{
    match step(p, from) {
        Ok(u) => u == to,
        Err(_) => false,
    }
}

// Inner: the parts of ICMA; asks for a roll date that exists and a period above 0.
pub fn icma_parts(p: TimePeriod, span: DateSpan, roll: Date) -> Result<Parts, Refusal>
    requires { (is_date roll ≡ true) × (leads ON p.num ≡ true) }
    ensures { outcome_of result ≡ icma_parts p span.start span.end roll }
{
    // Day counts follow by division. A coupon is most often one period from its roll date: no walk.
    if roll == span.start && leads(p, roll, span.end) {
        return Ok(Parts::Long {
            first: None,
            last: None,
            count: 1,
        });
    }
    let q = TimePeriod {
        num: -p.num,
        unit: p.unit,
    };
    let base = base_from(p, q, span, roll)?;
    if base.at < span.start {
        return short_parts(p, span, base.at);
    }
    long_parts(p, q, span, base.at)
}

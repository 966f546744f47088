// The walks of Act/Act ICMA: by a period, on or back to a limit, and from the roll date to where
// the parts are counted from.
ghost use Rattle.std.specs.Prelude.{◌≡◌, true, ◌+◌, ◌<◌, ◌≤◌};
ghost use Rattle.outcome.specs.Refusals.{outcome_of};
ghost use Rattle.calendar.specs.dates.Dates.{is_date, day_number, month_index, month_date};
ghost use Rattle.icma.specs.walks.Walks.{walk, base_from};
ghost use Rattle.icma.specs.walks.Ways.{is_past, leads, left, turned, walk_from};
ghost use Rattle.icma.specs.walks.Skips.{gap, moved, is_uncut, leap};

use calendar::Date;
use day_fraction::DateSpan;
use outcome::{Refusal, magnitude};
use time_period::{TimePeriod, TimePeriodUnit, step};

// The two ways of a walk: on by a period above 0, back by one below 0.
pub(crate) const ON: bool = true;

pub(crate) const BACK: bool = false;

// Where a walk stands, and how many of the dates it reached count.
#[derive(Clone, Copy)]
pub(crate) struct Walked {
    pub at: Date,
    pub count: u32,
}

// Whether a date is past a limit on the way.
#[tactic(auto, unfolding(calendar::specs::dates::Dates::is_before))]
pub(crate) fn is_past<const WAY: bool>(t: Date, limit: Date) -> bool
    ensures { result ≡ is_past WAY t limit }
{
    if WAY { limit < t } else { t < limit }
}

// One step; the date reached counts unless it is past the limit.
fn turn<const WAY: bool>(p: TimePeriod, w: Walked, limit: Date) -> Result<Walked, Refusal>
    requires { (is_date w.at ≡ true) × (w.count < 3652060) }
    ensures { outcome_of result ≡ turned WAY p limit w }
{
    let at = step(p, w.at)?;
    if is_past::<WAY>(at, limit) {
        return Ok(Walked { at, count: w.count });
    }
    Ok(Walked {
        at,
        count: w.count + 1,
    })
}

// Whether no step of a period cuts the day: months, from a day that every month has.
fn is_uncut(p: TimePeriod, t: Date) -> bool
    ensures { result ≡ is_uncut p t }
{
    p.unit == TimePeriodUnit::Monthly && t.day <= 28
}

// The number of a date's month, counted from January of year 1.
fn month_index(t: Date) -> u32
    requires { is_date t ≡ true }
    ensures { result ≡ month_index t }
{
    12 * (t.year - 1) + (t.month - 1)
}

// A day that every month has, of a month by its number.
fn uncut_date(index: u32, day: u32) -> Date
    requires { (index ≤ 119987) × (1 ≤ day) × (day ≤ 28) }
    ensures { result ≡ month_date index day }
{
    let year = index / 12 + 1;
    let month = index % 12 + 1;
    Date { year, month, day }
}

// The months from one to another that lies on the way, and else 0.
fn gap<const WAY: bool>(from: u32, to: u32) -> u32
    ensures { result ≡ gap WAY from to }
{
    if WAY {
        to.saturating_sub(from)
    } else {
        from.saturating_sub(to)
    }
}

// So many months along the way, fewer than lie between the two.
fn moved<const WAY: bool>(from: u32, to: u32, months: u32) -> u32
    requires { (months < gap WAY from to) × (from ≤ 119987) × (to ≤ 119987) }
    ensures { (result ≡ moved WAY from months) × (result ≤ 119987) }
{
    if WAY { from + months } else { from - months }
}

// Many steps at once, up to the last that leads to a month short of the limit's: each of their
// dates counts.
fn skip<const WAY: bool>(p: TimePeriod, from: Date, limit: Date) -> Walked
    requires { (is_date from ≡ true) × (is_date limit ≡ true) × (leads WAY p.num ≡ true) }
    ensures { result ≡ leap WAY p limit from }
{
    if !is_uncut(p, from) {
        return Walked { at: from, count: 0 };
    }
    let here = month_index(from);
    let there = month_index(limit);
    let gap = gap::<WAY>(here, there);
    if gap == 0 {
        return Walked { at: from, count: 0 };
    }
    let months = magnitude(p.num);
    let count = (gap - 1) / months;
    let index = moved::<WAY>(here, there, count * months);
    Walked {
        at: uncut_date(index, from.day),
        count,
    }
}

// Inner: on or back until the limit is not ahead; asks for a period of that way and a count up to
// the days behind.
pub(crate) fn walk<const WAY: bool>(
    p: TimePeriod,
    from: Walked,
    limit: Date,
) -> Result<Walked, Refusal>
    requires { (is_date from.at ≡ true) × (from.count + left WAY from.at ≤ 3652059) × (leads WAY p.num ≡ true) }
    ensures { outcome_of result ≡ walk 3652060 (λ u. is_past WAY limit u) (turned WAY p limit) from }
{
    let mut w = from;
    while is_past::<WAY>(limit, w.at) {
        w = turn::<WAY>(p, w, limit)?;
    }
    Ok(w)
}

// The same from a date that may lie far from the limit, so that the walk leaps first.
fn walk_far<const WAY: bool>(p: TimePeriod, t: Date, limit: Date) -> Result<Walked, Refusal>
    requires { (is_date t ≡ true) × (is_date limit ≡ true) × (leads WAY p.num ≡ true) }
    ensures { outcome_of result ≡ walk_from WAY p limit t }
{
    walk::<WAY>(p, skip::<WAY>(p, t, limit), limit)
}

// Inner: from the roll date on to start, then back to end; asks for a roll date that exists.
pub(crate) fn base_from(
    p: TimePeriod,
    q: TimePeriod,
    span: DateSpan,
    roll: Date,
) -> Result<Walked, Refusal>
    requires { (is_date roll ≡ true) × (leads ON p.num ≡ true) × (leads BACK q.num ≡ true) }
    ensures { outcome_of result ≡ base_from p q span.start span.end roll }
{
    let a = walk_far::<ON>(p, roll, span.start)?;
    walk_far::<BACK>(q, a.at, span.end)
}

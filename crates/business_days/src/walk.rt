// The business days around a day, over a holiday table that is judged: what finql asks of
// `cal_calc`. The weekend is Saturday and Sunday.
ghost use Rattle.std.specs.Prelude.{◌≡◌, true, false, ◌∷◌, ◌+◌, ◌≤◌, length, get_or, MatchOption};
ghost use Rattle.outcome.specs.Refusals.{outcome_of};
ghost use Rattle.business_days.specs.table.Table.{ascending, is_table};
ghost use Rattle.business_days.specs.table.Business.{is_weekend, is_business, next_from, prev_from, later_from, earlier_from};
ghost use Rattle.business_days.specs.table.Search.{IsLowerBound};

use crate::table::{Holidays, place_in};
use calendar::{Day, LAST_DAY};
use outcome::Refusal;

const FIRST_DAY: u32 = 1;

const WHOLE: u64 = 4294967296;

// A seventh of WHOLE, rounded up.
const SEVENTH: u64 = 613566757;

// Five sevenths of WHOLE: from there on it is Saturday, the sixth day of a week, or Sunday.
const FIVE_SEVENTHS: u64 = 3067833785;

// Times a seventh, whole weeks are whole numbers and fall away, but for less than a seventh: no
// division is left.
fn is_weekend(n: u32) -> bool
    requires { (1 ≤ n) × (n ≤ 3652059) }
    ensures { result ≡ is_weekend n }
{
    FIVE_SEVENTHS <= (n as u64 + 6) * SEVENTH % WHOLE
}

// The holiday at a place; 0, which is no day, past the end.
fn holiday_at(table: &[u32], i: usize) -> u32
    ensures { result ≡ get_or table.now i 0 }
{
    table.get(i).copied().unwrap_or(0)
}

// The holiday before a place; 0, which is no day, at the start.
fn holiday_before(table: &[u32], i: usize) -> u32
    requires { i ≤ length table.now }
    ensures { result ≡ get_or (0 ∷ table.now) i 0 }
{
    if 0 < i { table[i - 1] } else { 0 }
}

// Inner: the first place not before a day, from one near it; asks for ascending holidays.
#[inline(always)]
pub fn lower_bound_from(table: &[u32], n: u32, hint: usize) -> usize
    requires { ascending table.now ≡ true }
    ensures { IsLowerBound table.now n result }
{
    // A rollout's days come in order, so that it searches once and then passes its holidays.
    if table.len() < hint || n <= holiday_before(table, hint) {
        return Holidays { days: table }.place_of(n);
    }
    // `position` of an iterator is slower: six instructions for each holiday in place of five.
    let mut place = hint;
    while place < table.len() && table[place] < n {
        place += 1;
    }
    place
}

// Day by day, with the next holiday alongside: over the part of the table that begins with the
// first holiday after n.
fn walk_on(part: &[u32], n: u32, k: u32) -> Result<Day, Refusal>
    requires { (IsLowerBound part.now (n + 1) 0) × (n ≤ 3652059) }
    ensures { outcome_of result ≡ later_from part.now k n }
{
    if k == 0 {
        return Ok(Day(n));
    }
    let mut left = k;
    let mut i: usize = 0;
    let mut holiday = holiday_at(part, i);
    for at in n + 1..LAST_DAY + 1 {
        if at == holiday {
            i += 1;
            holiday = holiday_at(part, i);
        } else if !is_weekend(at) {
            left -= 1;
            if left == 0 {
                return Ok(Day(at));
            }
        }
    }
    Err(Refusal::InvalidDate)
}

// The same backwards: over the part of the table that ends with the last holiday before n. One
// function for both ways would ask the way at every day.
fn walk_back(part: &[u32], n: u32, k: u32) -> Result<Day, Refusal>
    requires { (IsLowerBound part.now n (length part.now)) × (1 ≤ n) × (n ≤ 3652059) }
    ensures { outcome_of result ≡ earlier_from part.now k n }
{
    if k == 0 {
        return Ok(Day(n));
    }
    let mut left = k;
    let mut i = part.len();
    let mut holiday = holiday_before(part, i);
    for at in (FIRST_DAY..n).rev() {
        if at == holiday {
            i -= 1;
            holiday = holiday_before(part, i);
        } else if !is_weekend(at) {
            left -= 1;
            if left == 0 {
                return Ok(Day(at));
            }
        }
    }
    Err(Refusal::InvalidDate)
}

// A serial day and its place among holidays: that of the first that is not before it. The methods
// are inlined, so that the parts stay in registers.
#[derive(Clone, Copy)]
pub struct Spot<'a> {
    pub day: u32,
    pub holidays: Holidays<'a>,
    pub place: usize,
    pub ghost from: { 1 ≤ day },
    pub ghost to: { day ≤ 3652059 },
    pub ghost placed: { IsLowerBound holidays.days.now day place },
}

impl<'a> Spot<'a> {
    // Inner: a day's spot in a table, or that the table is not taken; asks for a day that exists.
    #[inline(always)]
    pub fn judged(day: u32, table: &'a [u32]) -> Option<Spot<'a>>
        requires { (1 ≤ day) × (day ≤ 3652059) }
        ensures { MatchOption result (is_table table.now ≡ false) (λ s. (is_table table.now ≡ true) × (s.day ≡ day) × (s.holidays.days.now ≡ table.now)) }
    {
        let place = place_in(table, day)?;
        Some(Spot {
            day,
            holidays: Holidays { days: table },
            place,
        })
    }

    // Inner: a day's spot; asks for a day that exists.
    pub fn new(day: u32, holidays: Holidays<'a>) -> Spot<'a>
        requires { (1 ≤ day) × (day ≤ 3652059) }
        ensures { (result.day ≡ day) × (result.holidays.days.now ≡ holidays.entry.days.now) }
    {
        let place = holidays.place_of(day);
        Spot {
            day,
            holidays,
            place,
        }
    }

    // Inner: a day's spot, looked for from a place that may be near; asks for a day that exists.
    #[inline(always)]
    pub fn near(day: u32, holidays: Holidays<'a>, hint: usize) -> Spot<'a>
        requires { (1 ≤ day) × (day ≤ 3652059) }
        ensures { (result.day ≡ day) × (result.holidays.days.now ≡ holidays.entry.days.now) }
    {
        let place = lower_bound_from(holidays.days, day, hint);
        Spot {
            day,
            holidays,
            place,
        }
    }

    // Inner: whether it is a business day.
    #[inline(always)]
    pub fn is_business(self) -> bool
        ensures { result ≡ is_business self.entry.holidays.days.now self.entry.day }
    {
        !is_weekend(self.day) && holiday_at(self.holidays.days, self.place) != self.day
    }

    // Inner: the day k business days on.
    #[inline(always)]
    pub fn later(self, k: u32) -> Result<Day, Refusal>
        ensures { outcome_of result ≡ later_from self.entry.holidays.days.now k self.entry.day }
    {
        // The walk begins after the day, and so behind a holiday that it is.
        let table = self.holidays.days;
        let listed = holiday_at(table, self.place) == self.day;
        let after = if listed { self.place + 1 } else { self.place };
        walk_on(&table[after..], self.day, k)
    }

    // Inner: the day k business days back.
    #[inline(always)]
    pub fn earlier(self, k: u32) -> Result<Day, Refusal>
        ensures { outcome_of result ≡ earlier_from self.entry.holidays.days.now k self.entry.day }
    {
        walk_back(&self.holidays.days[..self.place], self.day, k)
    }

    // Inner: the next business day.
    #[inline(always)]
    pub fn next(self) -> Result<Day, Refusal>
        ensures { outcome_of result ≡ next_from self.entry.holidays.days.now self.entry.day }
    {
        self.later(1)
    }

    // Inner: the previous business day.
    #[inline(always)]
    pub fn previous(self) -> Result<Day, Refusal>
        ensures { outcome_of result ≡ prev_from self.entry.holidays.days.now self.entry.day }
    {
        self.earlier(1)
    }
}

// A lent holiday table, judged.
ghost use Rattle.std.specs.Prelude.{◌≡◌, true, false, ◌≤◌, ℕ, length, MatchOption};
ghost use Rattle.business_days.specs.table.Table.{ascending, is_table};
ghost use Rattle.business_days.specs.table.Search.{IsLowerBound, Placed};
ghost use Rattle.business_days.specs.days.Answers.{TablePromise};

use calendar::LAST_DAY;

pub const MOST_HOLIDAYS: usize = 4096;

// Fewer holidays than this are judged by a loop of their own.
const SHORT: usize = 32;

// Holidays that ascend, however many: what a table is once it is judged.
#[derive(Clone, Copy)]
pub struct Holidays<'a> {
    pub days: &'a [u32],
    pub ghost ascend: { ascending days.now ≡ true },
}

impl<'a> Holidays<'a> {
    // Inner: the holidays of a table, or that the table is not taken.
    pub fn judged(table: &'a [u32]) -> Option<Holidays<'a>>
        ensures { MatchOption result (is_table table.now ≡ false) (λ h. (is_table table.now ≡ true) × (h.days.now ≡ table.now)) }
    {
        if !is_table(table) {
            return None;
        }
        Some(Holidays { days: table })
    }

    // The place of the first holiday not before a day, by halving. The library's `partition_point`
    // is slower: 100 ns in place of 85 for a walk over a table of 200 days.
    pub(crate) fn place_of(self, day: u32) -> usize
        ensures { IsLowerBound self.entry.days.now day result }
    {
        let days = self.days;
        let mut lo: usize = 0;
        let mut hi = days.len();
        while lo < hi {
            let mid = lo + (hi - lo) / 2;
            if days[mid] < day {
                lo = mid + 1;
            } else {
                hi = mid;
            }
        }
        lo
    }
}

// All days are looked at, good or not, since the compiler then takes many at once; where they
// ascend the last is the latest.
fn is_ascending(table: &[u32]) -> bool
    ensures { result ≡ ascending table.now }
{
    let mut good = true;
    let mut last: u32 = 0;
    for day in table {
        if *day <= last {
            good = false;
        }
        last = *day;
    }
    good && last <= LAST_DAY
}

// Of a short table, judged by the way. What is wrong and the holidays before a day, which are its
// place, are counted: the compiler then takes eight days at once, and 32 where it is a yes or no.
fn judge_short(table: &[u32], n: u32) -> Option<usize>
    requires { length table.now ≤ 32 }
    ensures { Placed table.now n result }
{
    let mut wrong: u32 = 0;
    let mut before: u32 = 0;
    let mut last: u32 = 0;
    for at in table {
        if *at <= last {
            wrong += 1;
        }
        if *at < n {
            before += 1;
        }
        last = *at;
    }
    if 0 < wrong || LAST_DAY < last {
        return None;
    }
    Some(before as usize)
}

// Whether a holiday table is at most 4,096 days of the calendar, strictly ascending.
pub fn is_table(table: &[u32]) -> bool
    ensures { TablePromise table.now result }
{
    // A short table is good where a day has a place in it; day 0 stands for any.
    if table.len() < SHORT {
        return judge_short(table, 0).is_some();
    }
    table.len() <= MOST_HOLIDAYS && is_ascending(table)
}

// Inner: the place of the first holiday not before a day, or that the table is not taken.
#[inline(always)]
pub fn place_in(table: &[u32], n: u32) -> Option<usize>
    ensures { Placed table.now n result }
{
    // A short table is judged and searched in one pass.
    if table.len() < SHORT {
        return judge_short(table, n);
    }
    Some(Holidays::judged(table)?.place_of(n))
}

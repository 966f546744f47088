// Every day of the calendar, held to a count kept day by day: its date, that date's serial day, the
// table's where a year begins, and its weekday.
#![tactic(auto)]

use calendar::{Date, Day};
use std::iter;

const LAST_DAY: u32 = 3652059;

// Where the count stands; counting on needs no rule but the months' lengths.
#[derive(Clone, Copy)]
struct Count {
    date: Date,
    weekday: u32,
}

impl Count {
    const FIRST: Count = Count {
        date: Date {
            year: 1,
            month: 1,
            day: 1,
        },
        weekday: 1,
    };

    // The day after.
    fn next(self) -> Count {
        let Date { year, month, day } = self.date;
        let date = if day < days_here(year, month) {
            Date {
                year,
                month,
                day: day + 1,
            }
        } else if month < 12 {
            Date {
                year,
                month: month + 1,
                day: 1,
            }
        } else {
            Date {
                year: year.saturating_add(1),
                month: 1,
                day: 1,
            }
        };
        Count {
            date,
            weekday: self.weekday % 7 + 1,
        }
    }

    fn agrees(self, n: u32) -> bool {
        let day = Day(n);
        calendar::date_of(day) == Ok(self.date)
            && calendar::day_of(self.date) == Ok(day)
            && calendar::weekday(day) == Ok(self.weekday)
            && self.has_first(n)
    }

    // A date of 1 January is the table's; of another nothing is asked of it.
    fn has_first(self, n: u32) -> bool {
        let Date { year, month, day } = self.date;
        if month != 1 || day != 1 {
            return true;
        }
        1 <= year && year <= 9999 && calendar::first_of_year(year) == n
    }
}

fn is_leap_here(year: u32) -> bool {
    year % 4 == 0 && (year % 100 != 0 || year % 400 == 0)
}

fn days_here(year: u32, month: u32) -> u32 {
    match month {
        2 if is_leap_here(year) => 29,
        2 => 28,
        4 | 6 | 9 | 11 => 30,
        _ => 31,
    }
}

fn main(rt: HostRuntime) {
    let counts = iter::successors(Some(Count::FIRST), |c| Some(c.next()));
    let good = (1..=LAST_DAY)
        .zip(counts)
        .filter(|(n, c)| c.agrees(*n))
        .count();
    let _ = println!(rt; "{good} days: date, day again, first of year and weekday agree");
}

// The serial day of a date and the date of a serial day, of what is already judged, counted in
// years that begin in March.
ghost use Rattle.std.specs.Prelude.{◌≡◌, true, suc, ◌+◌, ◌-◌, ◌*◌, ◌/◌, ◌≤◌, ◌<◌};
ghost use Rattle.calendar.specs.gregorian.Gregorian.{year_length, before_year};
ghost use Rattle.calendar.specs.dates.Dates.{is_date, day_number, the_date};

use crate::dates::Date;

// A day of a year that begins in March, from 0.
#[derive(Clone, Copy)]
struct MarchDay {
    year: u32,
    day: u32,
}

// The days from March of year 0 to a month of a year that begins in March: a leap day ends such a
// year, so that no month asks for it. Its months are 3 to 14.
fn from_march(year: u32, month: u32) -> u32
    requires { (year ≤ 9999) × (3 ≤ month) × (month ≤ 14) }
    ensures { result ≡ 365 * year + year / 4 - year / 100 + year / 400 + (153 * (month - 3) + 2) / 5 }
{
    // A hundredth, and the days before the month, without a division.
    let centuries = 5243 * year / 524288;
    1461 * year / 4 - centuries + centuries / 4 + (979 * month - 2919) / 32
}

// Inner: the serial day of a date; asks for a date that exists.
pub fn day_of_date(t: Date) -> u32
    requires { is_date t ≡ true }
    ensures { result ≡ day_number t }
{
    // From March to the new year there are 306 days.
    let (year, month) = if t.month < 3 {
        (t.year - 1, t.month + 12)
    } else {
        (t.year, t.month)
    };
    from_march(year, month) + t.day - 306
}

// The year of a serial day, and the day in it from 0, of years that begin in March. Counted in
// quarters of a day; each century but every fourth lacks a leap day,
// and with these given back every year has 1461 quarters.
fn march_day(n: u32) -> MarchDay
    requires { (1 ≤ n) × (n ≤ 3652059) }
    ensures { (n + 305 ≡ before_year (suc result.year) + result.day) × (result.day < year_length (suc result.year)) }
{
    let quarters = 4 * (n + 305) + 3;
    let centuries = quarters / 146097;
    let even = quarters + 4 * (centuries - centuries / 4);
    MarchDay {
        year: even / 1461,
        day: even % 1461 / 4,
    }
}

// Inner: the date of a serial day; asks for a day from 1 to 3,652,059.
pub fn date_of_day(n: u32) -> Date
    requires { (1 ≤ n) × (n ≤ 3652059) }
    ensures { result ≡ the_date n }
{
    let at = march_day(n);
    // The month and the day in it are the two parts of one number.
    let both = 2141 * at.day + 197913;
    let month = both / 65536;
    let day = both % 65536 / 2141 + 1;
    if 12 < month {
        return Date {
            year: at.year + 1,
            month: month - 12,
            day,
        };
    }
    Date {
        year: at.year,
        month,
        day,
    }
}

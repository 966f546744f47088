// The C face: the entry points over numbers, bytes and lent slices. Each returns the refusal's
// number, or 0 for an answer, and only then writes what is lent. A note is its nineteen numbers,
// since a struct would be one more layout to believe. What writes lent bytes stands in a `match` and
// not in a closure, behind which a proof knows nothing of them.
#![tactic(auto)]

ghost use Rattle.std.specs.Prelude.{◌≡◌, true, length};
ghost use Rattle.outcome.specs.Outcome.{given, and_then, passed_as};
ghost use Rattle.outcome.specs.Refusals.{outcome_of};
ghost use Rattle.calendar.specs.serial.Answers.{day_of, date_of, weekday_of, days_between};
ghost use Rattle.time_period.specs.steps.Periods.{frequency_of};
ghost use Rattle.time_period.specs.steps.Steps.{absent, table};
ghost use Rattle.time_period.specs.added.Added.{add_to, sub_from};
ghost use Rattle.term_text.specs.period.PeriodTexts.{period_text};
ghost use Rattle.term_text.specs.period.PeriodTexts as texts;
ghost use Rattle.coupon_date.specs.Coupons.{coupon_date_of};
ghost use Rattle.term_text.specs.coupon.CouponTexts.{coupon_text, coupon_date_text};
ghost use Rattle.business_days.specs.days.Answers.{is_business_day, bdays_later, bdays_earlier};
ghost use Rattle.day_adjust.specs.Adjustment.{adjust_date};
ghost use Rattle.day_count_conv.specs.conventions.Conventions.{year_fraction, fractions_in_f64, no_terms, rolled_from};
ghost use Rattle.cash_flow.specs.round.RoundedAmounts.{round2digits_of};
ghost use Rattle.decimal.specs.float.Decimal.{decimal_shown};
ghost use Rattle.cash_flow.specs.flow.Flows.{same_flows};
ghost use Rattle.flow_text.specs.flow.Texts.{flow_shown};
ghost use Rattle.bond.specs.note.Notes.{note_checks};
ghost use Rattle.rollout.specs.plain.Rollout.{fitted};
ghost use Rattle.accrued_interest.specs.note.Accrued.{accrued, amounts_in_f64};
ghost use Rattle.packed_codes.specs.Codes.{convention_of_code, adjustment_of_code};
ghost use Rattle.packed_write.specs.packed.Writing.{packed_note};
ghost use Rattle.note_listing.specs.note.Listing.{listing};
ghost use Rattle.fixed_income.specs.plain.Plain.{plain_flows, shortest, listed_written};
ghost use Rattle.rates.specs.simple.Rates.{discount_factor, discounted_stream};
ghost use Rattle.rates.specs.plain.Plain.{flows_of};
ghost use Rattle.c_values.specs.answers.HandOver.{HandsOver, ReturnsNumber, yes_no};
ghost use Rattle.c_values.specs.answers.Coded.{coded};
ghost use Rattle.c_values.specs.arguments.Numbers.{serial_day, date, coupon, currency, flow, period_of_numbers, flat_rate, note_number, note_of};
ghost use Rattle.c_face.specs.Rooms.{text_in, flow_rooms, listed_in};

use calendar::{Date, Day};
use cash_flow::{CashFlow, Currency};
use coupon_date::CouponDate;
use day_count_conv::DayCountConv;
use outcome::Refusal;
use rates::FlatRate;

fn currency_of(c1: u8, c2: u8, c3: u8) -> Currency
    ensures { result ≡ currency c1 c2 c3 }
{
    Currency {
        first: c1,
        second: c2,
        third: c3,
    }
}

fn flow_of(date: Date, currency: Currency, amount: f64) -> CashFlow
    ensures { result ≡ flow date currency amount }
{
    CashFlow {
        date,
        currency,
        amount,
    }
}

fn flat_rate(rate: f64, convention: DayCountConv, currency: Currency) -> FlatRate
    ensures { result ≡ flat_rate rate convention currency }
{
    FlatRate {
        rate,
        day_count_conv: convention,
        currency,
    }
}

// The serial day of a date; refused 1.
#[unsafe(no_mangle)]
pub extern "C" fn notes_day_of(year: u32, month: u32, day: u32, serial: &mut u32) -> u32
    ensures { HandsOver (day_of (date year month day)) result (record { 0 = serial.old }) (record { 0 = serial.new }) }
{
    let t = Date { year, month, day };
    c_values::hand_over(calendar::day_of(t).map(|d| d.0), serial)
}

// The date of a serial day; refused 1.
#[unsafe(no_mangle)]
pub extern "C" fn notes_date_of(serial: u32, year: &mut u32, month: &mut u32, day: &mut u32) -> u32
    ensures { HandsOver (date_of (serial_day serial)) result (date year.old month.old day.old) (date year.new month.new day.new) }
{
    c_values::hand_date(calendar::date_of(Day(serial)), year, month, day)
}

// The weekday of a serial day, Monday 1 to Sunday 7; refused 1.
#[unsafe(no_mangle)]
pub extern "C" fn notes_weekday(serial: u32, weekday: &mut u32) -> u32
    ensures { HandsOver (weekday_of (serial_day serial)) result weekday.old weekday.new }
{
    c_values::hand_over(calendar::weekday(Day(serial)), weekday)
}

// The day count from one serial day to another that is not before it; refused 1, 19.
#[unsafe(no_mangle)]
pub extern "C" fn notes_days_between(from: u32, to: u32, days: &mut u32) -> u32
    ensures { HandsOver (days_between (serial_day from) (serial_day to)) result (record { 0 = days.old }) (record { 0 = days.new }) }
{
    let answer = calendar::days_between(Day(from), Day(to));
    c_values::hand_over(answer.map(|n| n.0), days)
}

// The number and the unit's code of a period's text; refused 2, 3, 4.
#[unsafe(no_mangle)]
pub extern "C" fn notes_read_period(text: &[u8], num: &mut i32, unit: &mut u32) -> u32
    ensures { HandsOver (passed_as coded (texts.period_read text.now)) result (num.old, unit.old) (num.new, unit.new) }
{
    c_values::hand_period(term_text::read_period(text), num, unit)
}

// A period's number and its unit's letter, in front of the lent bytes; refused 18, 16.
#[unsafe(no_mangle)]
pub extern "C" fn notes_write_period(num: i32, unit: u32, out: &mut [u8], length: &mut usize) -> u32
    ensures { HandsOver (and_then (period_of_numbers num unit) (λ p. text_in out.old (period_text p))) result (length.old, out.old) (length.new, out.new) }
{
    match c_values::period_of(num, unit) {
        Ok(p) => c_values::hand_over(term_text::write_period(p, out), length),
        Err(e) => e.number(),
    }
}

// How many of a period make a year, 12, 4, 2 or 1, its sign ignored; refused 18, 5.
#[unsafe(no_mangle)]
pub extern "C" fn notes_frequency(num: i32, unit: u32, per_year: &mut u32) -> u32
    ensures { HandsOver (and_then (period_of_numbers num unit) frequency_of) result per_year.old per_year.new }
{
    let answer = c_values::period_of(num, unit).and_then(time_period::frequency);
    c_values::hand_over(answer, per_year)
}

// The date a period on, without a holiday table; refused 18, 1, 12, then 1 for the result.
#[unsafe(no_mangle)]
pub extern "C" fn notes_add_to(
    num: i32,
    unit: u32,
    year: u32,
    month: u32,
    day: u32,
    to_year: &mut u32,
    to_month: &mut u32,
    to_day: &mut u32,
) -> u32
    ensures { HandsOver (and_then (period_of_numbers num unit) (λ p. add_to p absent (date year month day))) result (date to_year.old to_month.old to_day.old) (date to_year.new to_month.new to_day.new) }
{
    let t = Date { year, month, day };
    let answer = c_values::period_of(num, unit).and_then(|p| time_period::add_to(p, t));
    c_values::hand_date(answer, to_year, to_month, to_day)
}

// The date a period back, without a holiday table; refused 18, 1, 4, 12, then 1 for the result.
#[unsafe(no_mangle)]
pub extern "C" fn notes_sub_from(
    num: i32,
    unit: u32,
    year: u32,
    month: u32,
    day: u32,
    to_year: &mut u32,
    to_month: &mut u32,
    to_day: &mut u32,
) -> u32
    ensures { HandsOver (and_then (period_of_numbers num unit) (λ p. sub_from p absent (date year month day))) result (date to_year.old to_month.old to_day.old) (date to_year.new to_month.new to_day.new) }
{
    let t = Date { year, month, day };
    let answer = c_values::period_of(num, unit).and_then(|p| time_period::sub_from(p, t));
    c_values::hand_date(answer, to_year, to_month, to_day)
}

// The date a period on, over a holiday table; refused 18, 1, 13, then 1 for the result.
#[unsafe(no_mangle)]
pub extern "C" fn notes_add_to_with(
    num: i32,
    unit: u32,
    year: u32,
    month: u32,
    day: u32,
    holidays: &[u32],
    to_year: &mut u32,
    to_month: &mut u32,
    to_day: &mut u32,
) -> u32
    ensures { HandsOver (and_then (period_of_numbers num unit) (λ p. add_to p (table holidays.now) (date year month day))) result (date to_year.old to_month.old to_day.old) (date to_year.new to_month.new to_day.new) }
{
    let t = Date { year, month, day };
    let answer = c_values::period_of(num, unit).and_then(|p| time_period::add_to_with(
        p, t, holidays,
    ));
    c_values::hand_date(answer, to_year, to_month, to_day)
}

// The date a period back, over a holiday table; refused 18, 1, 4, 13, then 1 for the result.
#[unsafe(no_mangle)]
pub extern "C" fn notes_sub_from_with(
    num: i32,
    unit: u32,
    year: u32,
    month: u32,
    day: u32,
    holidays: &[u32],
    to_year: &mut u32,
    to_month: &mut u32,
    to_day: &mut u32,
) -> u32
    ensures { HandsOver (and_then (period_of_numbers num unit) (λ p. sub_from p (table holidays.now) (date year month day))) result (date to_year.old to_month.old to_day.old) (date to_year.new to_month.new to_day.new) }
{
    let t = Date { year, month, day };
    let answer = c_values::period_of(num, unit).and_then(|p| time_period::sub_from_with(
        p, t, holidays,
    ));
    c_values::hand_date(answer, to_year, to_month, to_day)
}

// The check of a day and a month as a coupon date, 0 where they are one; refused 7, 8.
#[unsafe(no_mangle)]
pub extern "C" fn notes_new_coupon_date(day: u32, month: u32) -> u32
    ensures { ReturnsNumber (coupon_date_of day month) result }
{
    c_values::hand_check(coupon_date::new_coupon_date(day, month))
}

// The day and the month of a text dd.mm; refused 6, 7, 8.
#[unsafe(no_mangle)]
pub extern "C" fn notes_read_coupon_date(text: &[u8], day: &mut u32, month: &mut u32) -> u32
    ensures { HandsOver (coupon_text text.now) result (record { day = day.old; month = month.old }) (record { day = day.new; month = month.new }) }
{
    c_values::hand_coupon(term_text::read_coupon_date(text), day, month)
}

// A coupon date as dd.mm, in front of the lent bytes; refused 16.
#[unsafe(no_mangle)]
pub extern "C" fn notes_write_coupon_date(
    day: u32,
    month: u32,
    out: &mut [u8],
    length: &mut usize,
) -> u32
    ensures { HandsOver (text_in out.old (coupon_date_text (coupon day month))) result (length.old, out.old) (length.new, out.new) }
{
    let c = CouponDate { day, month };
    c_values::hand_over(term_text::write_coupon_date(c, out), length)
}

// Whether a serial day is a business day, 1 for yes and 0 for no; refused 1, 13.
#[unsafe(no_mangle)]
pub extern "C" fn notes_is_business_day(serial: u32, holidays: &[u32], yes: &mut u32) -> u32
    ensures { HandsOver (passed_as yes_no (is_business_day (serial_day serial) holidays.now)) result yes.old yes.new }
{
    let answer = business_days::is_business_day(Day(serial), holidays);
    c_values::hand_over(answer.map(c_values::yes_no), yes)
}

// The serial day k business days on, the day itself for 0; refused 1, 13, then 1 for the result.
#[unsafe(no_mangle)]
pub extern "C" fn notes_bdays_later(serial: u32, k: u32, holidays: &[u32], found: &mut u32) -> u32
    ensures { HandsOver (bdays_later (serial_day serial) k holidays.now) result (record { 0 = found.old }) (record { 0 = found.new }) }
{
    let answer = business_days::bdays_later(Day(serial), k, holidays);
    c_values::hand_over(answer.map(|d| d.0), found)
}

// The serial day k business days back, the day itself for 0; refused 1, 13, then 1 for the result.
#[unsafe(no_mangle)]
pub extern "C" fn notes_bdays_earlier(serial: u32, k: u32, holidays: &[u32], found: &mut u32) -> u32
    ensures { HandsOver (bdays_earlier (serial_day serial) k holidays.now) result (record { 0 = found.old }) (record { 0 = found.new }) }
{
    let answer = business_days::bdays_earlier(Day(serial), k, holidays);
    c_values::hand_over(answer.map(|d| d.0), found)
}

// The date that a date is adjusted to by one of four rules; refused 18, 1, 13, then 1 for the
// result.
#[unsafe(no_mangle)]
pub extern "C" fn notes_adjust_date(
    adjustment: u32,
    year: u32,
    month: u32,
    day: u32,
    holidays: &[u32],
    to_year: &mut u32,
    to_month: &mut u32,
    to_day: &mut u32,
) -> u32
    ensures { HandsOver (and_then (adjustment_of_code adjustment) (λ a. adjust_date a (date year month day) holidays.now)) result (date to_year.old to_month.old to_day.old) (date to_year.new to_month.new to_day.new) }
{
    let t = Date { year, month, day };
    let answer = packed_codes::adjustment_of_code(adjustment).and_then(|a| day_adjust::adjust_date(
        a, t, holidays,
    ));
    c_values::hand_date(answer, to_year, to_month, to_day)
}

// The year fraction from start to end, with no roll date and no period; refused 18, 1, 19, 10, 9.
#[unsafe(no_mangle)]
pub extern "C" fn notes_year_fraction(
    convention: u32,
    start_year: u32,
    start_month: u32,
    start_day: u32,
    end_year: u32,
    end_month: u32,
    end_day: u32,
    fraction: &mut f64,
) -> u32
    ensures { HandsOver (and_then (convention_of_code convention) (λ c. year_fraction fractions_in_f64 c (date start_year start_month start_day) (date end_year end_month end_day) no_terms)) result fraction.old fraction.new }
{
    let start = Date {
        year: start_year,
        month: start_month,
        day: start_day,
    };
    let end = Date {
        year: end_year,
        month: end_month,
        day: end_day,
    };
    let answer = packed_codes::convention_of_code(convention).and_then(
        |c| day_count_conv::fraction_between(c, start, end),
    );
    c_values::hand_over(answer, fraction)
}

// The year fraction from start to end, with a roll date and a period; refused 18, 1, 19, 5, 14,
// then 1 or 9.
#[unsafe(no_mangle)]
pub extern "C" fn notes_year_fraction_rolled(
    convention: u32,
    start_year: u32,
    start_month: u32,
    start_day: u32,
    end_year: u32,
    end_month: u32,
    end_day: u32,
    roll_year: u32,
    roll_month: u32,
    roll_day: u32,
    num: i32,
    unit: u32,
    fraction: &mut f64,
) -> u32
    ensures { HandsOver (and_then (convention_of_code convention) (λ c. and_then (period_of_numbers num unit) (λ p. year_fraction fractions_in_f64 c (date start_year start_month start_day) (date end_year end_month end_day) (rolled_from (date roll_year roll_month roll_day) p)))) result fraction.old fraction.new }
{
    let start = Date {
        year: start_year,
        month: start_month,
        day: start_day,
    };
    let end = Date {
        year: end_year,
        month: end_month,
        day: end_day,
    };
    let roll = Date {
        year: roll_year,
        month: roll_month,
        day: roll_day,
    };
    c_values::hand_over(
        rolled_fraction(convention, start, end, roll, num, unit),
        fraction,
    )
}

fn rolled_fraction(
    convention: u32,
    start: Date,
    end: Date,
    roll: Date,
    num: i32,
    unit: u32,
) -> Result<f64, Refusal>
    ensures { outcome_of result ≡ and_then (convention_of_code convention) (λ c. and_then (period_of_numbers num unit) (λ p. year_fraction fractions_in_f64 c start end (rolled_from roll p))) }
{
    let rule = packed_codes::convention_of_code(convention)?;
    let period = c_values::period_of(num, unit)?;
    let terms = day_count_conv::rolled_from(roll, period);
    day_count_conv::year_fraction(rule, start, end, terms)
}

// An amount rounded to 0 to 4 digits, halves away from zero, a zero with its sign; refused 15.
#[unsafe(no_mangle)]
pub extern "C" fn notes_round2digits(amount: f64, digits: i32, rounded: &mut f64) -> u32
    ensures { HandsOver (round2digits_of amount digits) result rounded.old rounded.new }
{
    c_values::hand_over(cash_flow::round2digits(amount, digits), rounded)
}

// An amount with four decimals, in at least 16 columns in front of the lent bytes; refused 15, 16.
#[unsafe(no_mangle)]
pub extern "C" fn notes_write_decimal(amount: f64, out: &mut [u8], length: &mut usize) -> u32
    ensures { HandsOver (and_then (decimal_shown amount) (text_in out.old)) result (length.old, out.old) (length.new, out.new) }
{
    c_values::hand_over(decimal::write_decimal(amount, out), length)
}

// A flow's date, amount and currency, in front of the lent bytes; refused 15, 17, 1, 16.
#[unsafe(no_mangle)]
pub extern "C" fn notes_write_cash_flow(
    year: u32,
    month: u32,
    day: u32,
    c1: u8,
    c2: u8,
    c3: u8,
    amount: f64,
    out: &mut [u8],
    length: &mut usize,
) -> u32
    ensures { HandsOver (and_then (flow_shown (flow (date year month day) (currency c1 c2 c3) amount)) (text_in out.old)) result (length.old, out.old) (length.new, out.new) }
{
    let date = Date { year, month, day };
    let flow = flow_of(date, currency_of(c1, c2, c3), amount);
    c_values::hand_over(flow_text::write_cash_flow(flow, out), length)
}

// Whether two flows are equal within a tolerance, 1 for yes and 0 for no, never refused.
#[unsafe(no_mangle)]
pub extern "C" fn notes_fuzzy_cash_flows_cmp_eq(
    a_year: u32,
    a_month: u32,
    a_day: u32,
    a_c1: u8,
    a_c2: u8,
    a_c3: u8,
    a_amount: f64,
    b_year: u32,
    b_month: u32,
    b_day: u32,
    b_c1: u8,
    b_c2: u8,
    b_c3: u8,
    b_amount: f64,
    tolerance: f64,
    equal: &mut u32,
) -> u32
    ensures { HandsOver (given (yes_no (same_flows (flow (date a_year a_month a_day) (currency a_c1 a_c2 a_c3) a_amount) (flow (date b_year b_month b_day) (currency b_c1 b_c2 b_c3) b_amount) tolerance))) result equal.old equal.new }
{
    let date_a = Date {
        year: a_year,
        month: a_month,
        day: a_day,
    };
    let a = flow_of(date_a, currency_of(a_c1, a_c2, a_c3), a_amount);
    let date_b = Date {
        year: b_year,
        month: b_month,
        day: b_day,
    };
    let b = flow_of(date_b, currency_of(b_c1, b_c2, b_c3), b_amount);
    let is_equal = cash_flow::fuzzy_cash_flows_cmp_eq(a, b, tolerance);
    c_values::hand_over(Ok(c_values::yes_no(is_equal)), equal)
}

// The checks of a note without position and table, 0 where it passes; refused 18 for a code, then
// 18, 15, 17, 1, 7, 8, 14, 12.
#[unsafe(no_mangle)]
pub extern "C" fn notes_check_note(
    number_count: u32,
    number_digits: u64,
    issue_year: u32,
    issue_month: u32,
    issue_day: u32,
    maturity_year: u32,
    maturity_month: u32,
    maturity_day: u32,
    coupon_day: u32,
    coupon_month: u32,
    period_num: i32,
    period_unit: u32,
    convention: u32,
    adjustment: u32,
    denomination: u32,
    rate: f64,
    c1: u8,
    c2: u8,
    c3: u8,
) -> u32
    ensures { ReturnsNumber (and_then (note_of (note_number number_count number_digits) (date issue_year issue_month issue_day) (date maturity_year maturity_month maturity_day) (coupon coupon_day coupon_month) period_num period_unit convention adjustment denomination rate (currency c1 c2 c3)) (note_checks true true)) result }
{
    let note = c_values::note_of(
        number_count,
        number_digits,
        issue_year,
        issue_month,
        issue_day,
        maturity_year,
        maturity_month,
        maturity_day,
        coupon_day,
        coupon_month,
        period_num,
        period_unit,
        convention,
        adjustment,
        denomination,
        rate,
        c1,
        c2,
        c3,
    );
    c_values::hand_check(note.and_then(bond::check_note))
}

// A note's flows as serial days and amounts in two lent lists, and their count; refused 18 for a
// code, by the note's checks, then flow by flow, last 16.
#[unsafe(no_mangle)]
pub extern "C" fn notes_rollout_flows(
    number_count: u32,
    number_digits: u64,
    issue_year: u32,
    issue_month: u32,
    issue_day: u32,
    maturity_year: u32,
    maturity_month: u32,
    maturity_day: u32,
    coupon_day: u32,
    coupon_month: u32,
    period_num: i32,
    period_unit: u32,
    convention: u32,
    adjustment: u32,
    denomination: u32,
    rate: f64,
    c1: u8,
    c2: u8,
    c3: u8,
    position: f64,
    holidays: &[u32],
    days: &mut [u32],
    amounts: &mut [f64],
    count: &mut usize,
) -> u32
    ensures { HandsOver (and_then (note_of (note_number number_count number_digits) (date issue_year issue_month issue_day) (date maturity_year maturity_month maturity_day) (coupon coupon_day coupon_month) period_num period_unit convention adjustment denomination rate (currency c1 c2 c3)) (λ note. passed_as (flow_rooms days.old amounts.old) (fitted note position holidays.now days.old amounts.old))) result (count.old, days.old, amounts.old) (count.new, days.new, amounts.new) }
{
    let note = c_values::note_of(
        number_count,
        number_digits,
        issue_year,
        issue_month,
        issue_day,
        maturity_year,
        maturity_month,
        maturity_day,
        coupon_day,
        coupon_month,
        period_num,
        period_unit,
        convention,
        adjustment,
        denomination,
        rate,
        c1,
        c2,
        c3,
    );
    match note {
        Ok(n) => {
            let answer = rollout::rollout_flows(n, position, holidays, days, amounts);
            c_values::hand_over(answer, count)
        }
        Err(e) => e.number(),
    }
}

// The interest accrued on one note at a day; refused 18 for a code, by the note's checks, 1, then
// by the fraction.
#[unsafe(no_mangle)]
pub extern "C" fn notes_accrued_interest(
    number_count: u32,
    number_digits: u64,
    issue_year: u32,
    issue_month: u32,
    issue_day: u32,
    maturity_year: u32,
    maturity_month: u32,
    maturity_day: u32,
    coupon_day: u32,
    coupon_month: u32,
    period_num: i32,
    period_unit: u32,
    convention: u32,
    adjustment: u32,
    denomination: u32,
    rate: f64,
    c1: u8,
    c2: u8,
    c3: u8,
    year: u32,
    month: u32,
    day: u32,
    amount: &mut f64,
) -> u32
    ensures { HandsOver (and_then (note_of (note_number number_count number_digits) (date issue_year issue_month issue_day) (date maturity_year maturity_month maturity_day) (coupon coupon_day coupon_month) period_num period_unit convention adjustment denomination rate (currency c1 c2 c3)) (λ note. accrued amounts_in_f64 note (date year month day))) result amount.old amount.new }
{
    let note = c_values::note_of(
        number_count,
        number_digits,
        issue_year,
        issue_month,
        issue_day,
        maturity_year,
        maturity_month,
        maturity_day,
        coupon_day,
        coupon_month,
        period_num,
        period_unit,
        convention,
        adjustment,
        denomination,
        rate,
        c1,
        c2,
        c3,
    );
    let today = Date { year, month, day };
    let answer = note.and_then(|n| accrued_interest::accrued_interest(n, today));
    c_values::hand_over(answer, amount)
}

// A note and its holiday table as a packed record, in front of the lent bytes; refused 18 for a
// code or the period, by the note's checks, last 16.
#[unsafe(no_mangle)]
pub extern "C" fn notes_write_note(
    number_count: u32,
    number_digits: u64,
    issue_year: u32,
    issue_month: u32,
    issue_day: u32,
    maturity_year: u32,
    maturity_month: u32,
    maturity_day: u32,
    coupon_day: u32,
    coupon_month: u32,
    period_num: i32,
    period_unit: u32,
    convention: u32,
    adjustment: u32,
    denomination: u32,
    rate: f64,
    c1: u8,
    c2: u8,
    c3: u8,
    holidays: &[u32],
    out: &mut [u8],
    length: &mut usize,
) -> u32
    ensures { HandsOver (and_then (note_of (note_number number_count number_digits) (date issue_year issue_month issue_day) (date maturity_year maturity_month maturity_day) (coupon coupon_day coupon_month) period_num period_unit convention adjustment denomination rate (currency c1 c2 c3)) (λ note. and_then (packed_note note holidays.now) (text_in out.old))) result (length.old, out.old) (length.new, out.new) }
{
    let note = c_values::note_of(
        number_count,
        number_digits,
        issue_year,
        issue_month,
        issue_day,
        maturity_year,
        maturity_month,
        maturity_day,
        coupon_day,
        coupon_month,
        period_num,
        period_unit,
        convention,
        adjustment,
        denomination,
        rate,
        c1,
        c2,
        c3,
    );
    match note {
        Ok(n) => c_values::hand_over(packed_write::write_note(n, holidays, out), length),
        Err(e) => e.number(),
    }
}

// The listing of a packed record in lent bytes, its flows or `refused N`; refused 16.
#[unsafe(no_mangle)]
pub extern "C" fn notes_list_note(record: &[u8], out: &mut [u8], length: &mut usize) -> u32
    ensures { HandsOver (text_in out.old (listing «record».now)) result (length.old, out.old) (length.new, out.new) }
{
    c_values::hand_over(note_listing::list_note(record, out), length)
}

// The flows of three lists strictly later than a serial day, in order, in three lent lists, and
// their count; refused 1, 16.
#[unsafe(no_mangle)]
pub extern "C" fn notes_flows_after(
    serial: u32,
    days: &[u32],
    currencies: &[u32],
    amounts: &[f64],
    out_days: &mut [u32],
    out_currencies: &mut [u32],
    out_amounts: &mut [f64],
    count: &mut usize,
) -> u32
    ensures { HandsOver (passed_as (listed_in out_days.old out_currencies.old out_amounts.old) (listed_written (serial_day serial) (plain_flows days.now currencies.now amounts.now) (shortest (length out_days.old) (length out_currencies.old) (length out_amounts.old)))) result (count.old, out_days.old, out_currencies.old, out_amounts.old) (count.new, out_days.new, out_currencies.new, out_amounts.new) }
{
    let day = Day(serial);
    let answer = fixed_income::flows_after_plain(
        day,
        days,
        currencies,
        amounts,
        out_days,
        out_currencies,
        out_amounts,
    );
    c_values::hand_over(answer, count)
}

// The factor that discounts a payment to today; refused 18, 15, then by the fraction.
#[unsafe(no_mangle)]
pub extern "C" fn notes_discount_factor(
    rate: f64,
    convention: u32,
    c1: u8,
    c2: u8,
    c3: u8,
    today_year: u32,
    today_month: u32,
    today_day: u32,
    pay_year: u32,
    pay_month: u32,
    pay_day: u32,
    factor: &mut f64,
) -> u32
    ensures { HandsOver (and_then (convention_of_code convention) (λ c. discount_factor (flat_rate rate c (currency c1 c2 c3)) (date today_year today_month today_day) (date pay_year pay_month pay_day))) result factor.old factor.new }
{
    let currency = currency_of(c1, c2, c3);
    let today = Date {
        year: today_year,
        month: today_month,
        day: today_day,
    };
    let pay = Date {
        year: pay_year,
        month: pay_month,
        day: pay_day,
    };
    let answer = packed_codes::convention_of_code(convention).and_then(|c| rates::discount_factor(
        flat_rate(rate, c, currency),
        today,
        pay,
    ));
    c_values::hand_over(answer, factor)
}

// What a stream of three lists is worth today, summed from 0 in order; refused 18, 15 for the rate,
// then flow by flow 15, 17 and by the fraction.
#[unsafe(no_mangle)]
pub extern "C" fn notes_discount_flows(
    rate: f64,
    convention: u32,
    c1: u8,
    c2: u8,
    c3: u8,
    days: &[u32],
    currencies: &[u32],
    amounts: &[f64],
    today_year: u32,
    today_month: u32,
    today_day: u32,
    amount: &mut f64,
) -> u32
    ensures { HandsOver (and_then (convention_of_code convention) (λ c. discounted_stream (flat_rate rate c (currency c1 c2 c3)) (date today_year today_month today_day) (flows_of days.now currencies.now amounts.now))) result amount.old amount.new }
{
    let currency = currency_of(c1, c2, c3);
    let today = Date {
        year: today_year,
        month: today_month,
        day: today_day,
    };
    // The lists are serial days, currencies as numbers, and amounts.
    let answer = packed_codes::convention_of_code(convention).and_then(|c| {
        let rate = flat_rate(rate, c, currency);
        rates::discount_plain_flows(rate, days, currencies, amounts, today)
    });
    c_values::hand_over(answer, amount)
}

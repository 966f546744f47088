// The clerk's checks: the desk card, the limits and the slips, each asked of its entry point and
// compared with what the paper says.
#![tactic(auto)]

ghost use Rattle.std.specs.Prelude.{◌≤◌};

mod desk;
mod text;

use bond::{Note, NoteNumber};
use calendar::Date;
use cash_flow::Currency;
use coupon_date::CouponDate;
use day_adjust::DayAdjust;
use day_count_conv::{DayCountConv, NoteTerms};
use desk::Desk;
use outcome::Refusal;
use std::array;
use std::io::Stdout;
use time_period::{TimePeriod, TimePeriodUnit};

// 2021-08-01, from which the tables list every day.
const FIRST_LISTED: u32 = 738003;

fn on(year: u32, month: u32, day: u32) -> Date {
    Date { year, month, day }
}

fn coupon(day: u32, month: u32) -> CouponDate {
    CouponDate { day, month }
}

fn days(num: i32) -> TimePeriod {
    TimePeriod {
        num,
        unit: TimePeriodUnit::Daily,
    }
}

fn weeks(num: i32) -> TimePeriod {
    TimePeriod {
        num,
        unit: TimePeriodUnit::Weekly,
    }
}

fn months(num: i32) -> TimePeriod {
    TimePeriod {
        num,
        unit: TimePeriodUnit::Monthly,
    }
}

fn years(num: i32) -> TimePeriod {
    TimePeriod {
        num,
        unit: TimePeriodUnit::Annual,
    }
}

// A note of 1000 EUR, 30E/360, modified, with its coupons in July.
fn note_of(rate: f64, issue_date: Date, maturity: Date, day: u32, period: TimePeriod) -> Note {
    Note {
        number: NoteNumber {
            count: 5,
            digits: 417,
        },
        issue_date,
        maturity,
        coupon_date: coupon(day, 7),
        period,
        day_count_convention: DayCountConv::D30E360,
        business_day_rule: DayAdjust::Modified,
        denomination: 1000,
        rate,
        currency: Currency {
            first: b'E',
            second: b'U',
            third: b'R',
        },
    }
}

// The note of the paper's listing with another coupon day, period or rate.
fn year_note(rate: f64, day: u32, period: TimePeriod) -> Note {
    note_of(rate, on(2021, 1, 15), on(2022, 1, 15), day, period)
}

fn rated(rate: f64) -> Note {
    year_note(rate, 15, months(6))
}

// A note with a period of none.
fn still(period: TimePeriod) -> Note {
    year_note(4.0, 15, period)
}

// a to f: steps.
fn card_steps(desk: &mut Desk) {
    desk.ask_added('a', on(2024, 2, 29), months(12), Ok(on(2025, 2, 28)));
    desk.ask_added('b', on(2024, 2, 29), years(1), Err(Refusal::InvalidDate));
    desk.ask_added('c', on(2021, 1, 31), months(1), Ok(on(2021, 2, 28)));
    desk.ask_taken('d', on(2021, 2, 28), months(1), Ok(on(2021, 1, 28)));
    desk.ask_added('f', on(9999, 12, 1), months(1), Err(Refusal::InvalidDate));
}

// g to k: fractions.
fn card_fractions(desk: &mut Desk) {
    let no_terms = day_count_conv::no_terms();
    desk.ask_fraction(
        'g',
        DayCountConv::D30_360,
        no_terms,
        on(2021, 1, 30),
        on(2021, 1, 31),
        Err(Refusal::Impossible360),
    );
    desk.ask_fraction(
        'h',
        DayCountConv::D30_360,
        no_terms,
        on(2020, 11, 30),
        on(2021, 2, 28),
        Ok(0.24444444444444444),
    );
    desk.ask_fraction(
        'i',
        DayCountConv::D30_360,
        no_terms,
        on(2021, 1, 15),
        on(2021, 3, 31),
        Ok(0.2111111111111111),
    );
    desk.ask_fraction(
        'i',
        DayCountConv::D30E360,
        no_terms,
        on(2021, 1, 15),
        on(2021, 3, 31),
        Ok(0.20833333333333331),
    );
    desk.ask_fraction(
        'j',
        DayCountConv::Act365l,
        no_terms,
        on(2019, 7, 1),
        on(2020, 7, 1),
        Ok(1.0013773486039372),
    );
    desk.ask_fraction(
        'k',
        DayCountConv::ActActICMA,
        day_count_conv::rolled_from(on(2022, 1, 1), months(12)),
        on(2021, 3, 1),
        on(2021, 6, 1),
        Ok(0.25205479452054796),
    );
}

// l and m: an adjusted date, and accrued interest.
fn card_note(desk: &mut Desk) {
    desk.ask_adjusted(
        'l',
        DayAdjust::Modified,
        on(2021, 7, 31),
        &[],
        Ok(on(2021, 7, 30)),
    );
    desk.ask_accrued('m', rated(4.0), on(2021, 4, 15), Ok(9.94475138121547));
}

// The calendar's last day and the next; 15 months back, both ways; and the least number of a
// period, which has no negative.
fn limit_days(desk: &mut Desk) {
    let t = on(2021, 3, 15);
    desk.ask_day(3652059, Ok(on(9999, 12, 31)));
    desk.ask_day(3652060, Err(Refusal::InvalidDate));
    desk.ask_day(0, Err(Refusal::InvalidDate));
    desk.ask_taken('-', t, months(15), Ok(on(2019, 12, 15)));
    desk.ask_added('-', t, months(-15), Ok(on(2019, 12, 15)));
    desk.ask_added('-', t, days(i32::MIN), Err(Refusal::InvalidDate));
    desk.ask_taken('-', t, days(i32::MIN), Err(Refusal::InvalidPeriod));
}

// So many days, from the first listed on.
fn listed<const N: usize>() -> [u32; N]
    requires { N ≤ 4097 }
{
    array::from_fn(|i| FIRST_LISTED + i as u32)
}

// A table of 4,096 days, behind which the next business day lies; and of 4,097, of which a table
// takes 4,096.
fn limit_tables(desk: &mut Desk) {
    let t = on(2021, 7, 31);
    desk.ask_adjusted(
        '-',
        DayAdjust::Following,
        t,
        &listed::<4096>(),
        Ok(on(2032, 10, 18)),
    );
    desk.ask_adjusted(
        '-',
        DayAdjust::Following,
        t,
        &listed::<4097>(),
        Err(Refusal::BadHolidayTable),
    );
}

// Rate 100 and the next f64; and a zero with its sign bit set.
fn limit_rates(desk: &mut Desk) {
    let t = on(2021, 4, 15);
    let out_of_limits = Err(Refusal::NumberOutOfLimits);
    desk.ask_accrued('-', rated(100.0), t, Ok(248.61878453038673));
    desk.ask_accrued('-', rated(100.00000000000001), t, out_of_limits);
    desk.ask_accrued('-', rated(-0.0), t, out_of_limits);
}

// Months subtracted as u32.
fn slip_months(desk: &mut Desk) {
    let no_terms = day_count_conv::no_terms();
    desk.ask_fraction(
        '-',
        DayCountConv::D30_360,
        no_terms,
        on(2020, 11, 1),
        on(2021, 2, 1),
        Ok(0.25),
    );
    desk.ask_fraction(
        '-',
        DayCountConv::D30E360,
        no_terms,
        on(2020, 11, 1),
        on(2021, 2, 1),
        Ok(0.25),
    );
    desk.ask_fraction(
        '-',
        DayCountConv::D30_360,
        no_terms,
        on(2020, 12, 31),
        on(2021, 1, 1),
        Ok(0.0027777777777778095),
    );
}

// `day as u8`, in a text and in a note.
fn slip_coupon_days(desk: &mut Desk) {
    desk.ask_coupon("1.07", Ok(coupon(1, 7)));
    desk.ask_coupon("257.07", Err(Refusal::DayTooBig));
    desk.ask_coupon("29.02", Err(Refusal::DayTooBig));
    desk.ask_flows(year_note(4.0, 257, months(6)), Err(Refusal::DayTooBig));
}

// A missing dot.
fn slip_dots(desk: &mut Desk) {
    desk.ask_coupon("15", Err(Refusal::CouponParseError));
    desk.ask_coupon("1507", Err(Refusal::CouponParseError));
}

// A zero period, in a rollout, in accrued interest and in one ICMA fraction; the note's own period
// has three flows.
fn slip_zero_periods(desk: &mut Desk) {
    desk.ask_flows(rated(4.0), Ok(3));
    desk.ask_flows(still(days(0)), Err(Refusal::PeriodBelowOne));
    desk.ask_flows(still(weeks(0)), Err(Refusal::PeriodBelowOne));
    desk.ask_flows(still(months(0)), Err(Refusal::PeriodBelowOne));
    desk.ask_flows(still(years(0)), Err(Refusal::PeriodBelowOne));
    desk.ask_accrued(
        '-',
        still(months(0)),
        on(2021, 4, 15),
        Err(Refusal::PeriodBelowOne),
    );
    desk.ask_fraction(
        '-',
        DayCountConv::ActActICMA,
        day_count_conv::rolled_from(on(2022, 1, 1), months(0)),
        on(2021, 3, 1),
        on(2021, 6, 1),
        Err(Refusal::NoFrequency),
    );
}

// A date past the range under D and W, in a step and in a rollout.
fn slip_range(desk: &mut Desk) {
    let first = on(1, 1, 1);
    let last = on(9999, 12, 31);
    desk.ask_added('-', last, days(1), Err(Refusal::InvalidDate));
    desk.ask_added('-', last, weeks(1), Err(Refusal::InvalidDate));
    desk.ask_taken('-', first, days(1), Err(Refusal::InvalidDate));
    desk.ask_taken('-', first, weeks(1), Err(Refusal::InvalidDate));
    let daily = note_of(4.0, on(9999, 1, 1), last, 15, days(200));
    desk.ask_flows(daily, Err(Refusal::InvalidDate));
    let weekly = note_of(4.0, on(9999, 1, 1), last, 15, weeks(30));
    desk.ask_flows(weekly, Err(Refusal::InvalidDate));
}

// The refusals that no listed note meets: of texts, and of fractions.
fn other_texts(desk: &mut Desk) {
    desk.ask_period("M", Refusal::PeriodTooShort);
    desk.ask_period("6m", Refusal::InvalidUnit);
    desk.ask_period("+M", Refusal::InvalidPeriod);
    desk.ask_period(" 1M", Refusal::InvalidPeriod);
    desk.ask_coupon("15", Err(Refusal::CouponParseError));
}

fn other_fractions(desk: &mut Desk) {
    let january = on(2021, 1, 1);
    let march = on(2021, 3, 1);
    let no_terms = day_count_conv::no_terms();
    let no_period = NoteTerms {
        roll: Some(january),
        period: None,
    };
    desk.ask_fraction(
        '-',
        DayCountConv::ActActICMA,
        no_terms,
        january,
        march,
        Err(Refusal::IcmaMissingRollDate),
    );
    desk.ask_fraction(
        '-',
        DayCountConv::ActActICMA,
        no_period,
        january,
        march,
        Err(Refusal::IcmaMissingTimePeriod),
    );
    desk.ask_fraction(
        '-',
        DayCountConv::D30_360,
        no_terms,
        march,
        january,
        Err(Refusal::StartAfterEnd),
    );
}

fn ask_all(stdout: Stdout) {
    let mut desk = Desk::new(stdout);
    let _ = println!(stdout; "The desk card");
    card_steps(&mut desk);
    card_fractions(&mut desk);
    card_note(&mut desk);
    let _ = println!(stdout; "The limits");
    limit_days(&mut desk);
    limit_tables(&mut desk);
    limit_rates(&mut desk);
    let _ = println!(stdout; "The slips");
    slip_months(&mut desk);
    slip_coupon_days(&mut desk);
    slip_dots(&mut desk);
    slip_zero_periods(&mut desk);
    slip_range(&mut desk);
    let _ = println!(stdout; "The other refusals");
    other_texts(&mut desk);
    other_fractions(&mut desk);
    let _ = println!(stdout; "{} as written, {} not", desk.good, desk.wrong);
}

fn main(rt: HostRuntime) {
    ask_all(rt.stdout());
}

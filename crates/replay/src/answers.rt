// The answer to each verb.
use crate::fields::{Fields, TABLE};
use crate::line::{say, say_refused, say_written};
use crate::lines::Lines;
use crate::verb::Verb;
use crate::{flows, notes};
use calendar::Days;
use outcome::Refusal;
use std::fmt;

// The reader is told its refusal by the record's number.
fn read_decimal(s: &[u8], most: u32, number: u32, out: &mut Lines) -> fmt::Result {
    match number_text::read_decimal(s, most, number) {
        Ok(n) => say(out, Ok(n)),
        Err(k) => say_refused(out, k),
    }
}

// What stands in front of a verb's table is passed over.
fn from_table_on(verb: Verb, mut f: Fields) -> Fields {
    match verb {
        Verb::IsTable => (),
        Verb::BdaysLater | Verb::BdaysEarlier => {
            let _ = f.day();
            let _ = f.word();
        }
        Verb::AdjustDate => {
            let _ = f.adjustment();
            let _ = f.date();
        }
        Verb::AddToWith | Verb::SubFromWith => {
            let _ = f.period();
            let _ = f.date();
        }
        _ => {
            let _ = f.day();
        }
    }
    f
}

fn with_table(verb: Verb, mut f: Fields, table: &[u32], out: &mut Lines) -> fmt::Result {
    match verb {
        Verb::IsTable => say(out, Ok(business_days::is_table(table))),
        Verb::IsBusinessDay => say(out, business_days::is_business_day(f.day(), table)),
        Verb::NextBday => say(out, business_days::next_bday(f.day(), table)),
        Verb::PrevBday => say(out, business_days::prev_bday(f.day(), table)),
        Verb::BdaysLater => say(out, business_days::bdays_later(f.day(), f.word(), table)),
        Verb::BdaysEarlier => say(out, business_days::bdays_earlier(f.day(), f.word(), table)),
        Verb::AdjustDate => {
            say(
                out,
                day_adjust::adjust_date(f.adjustment(), f.date(), table),
            )
        }
        Verb::AddToWith => say(out, time_period::add_to_with(f.period(), f.date(), table)),
        _ => say(out, time_period::sub_from_with(f.period(), f.date(), table)),
    }
}

// What asks for a table of holidays, which is read once and is no local of the other answers.
#[inline(never)]
fn of_table(verb: Verb, f: Fields, out: &mut Lines) -> fmt::Result {
    let mut places = [0; TABLE];
    let table = from_table_on(verb, f).table(&mut places);
    with_table(verb, f, table, out)
}

pub(crate) fn answer(verb: Verb, mut f: Fields, out: &mut Lines) -> fmt::Result {
    match verb {
        Verb::IsLeap => say(out, Ok(calendar::is_leap(f.word()))),
        Verb::LengthOfMonth => say(out, Ok(calendar::length_of_month(f.word(), f.word()))),
        Verb::LengthOfYear => say(out, Ok(calendar::length_of_year(f.word()))),
        Verb::IsDate => say(out, Ok(calendar::is_date(f.date()))),
        Verb::IsDay => say(out, Ok(calendar::is_day(f.day()))),
        Verb::IsBefore => say(out, Ok(calendar::is_before(f.date(), f.date()))),
        Verb::IsSame => say(out, Ok(calendar::is_same(f.date(), f.date()))),
        Verb::DayOf => say(out, calendar::day_of(f.date())),
        Verb::DateOf => say(out, calendar::date_of(f.day())),
        Verb::Weekday => say(out, calendar::weekday(f.day())),
        Verb::DaysBetween => say(out, calendar::days_between(f.day(), f.day())),
        Verb::DayAfter => say(out, calendar::day_after(f.day(), Days(f.word()))),
        Verb::AddMonths => say(out, date_step::add_months(f.date(), f.signed())),
        Verb::AddYears => say(out, date_step::add_years(f.date(), f.signed())),
        Verb::AddDays => say(out, date_step::add_days(f.date(), f.signed_long())),

        Verb::IsTable
        | Verb::IsBusinessDay
        | Verb::NextBday
        | Verb::PrevBday
        | Verb::BdaysLater
        | Verb::BdaysEarlier
        | Verb::AdjustDate
        | Verb::AddToWith
        | Verb::SubFromWith => of_table(verb, f, out),

        Verb::ReadPeriod => say(out, term_text::read_period(f.rest())),
        Verb::WritePeriod => {
            let p = f.period();
            let places = f.places().min(64);
            say_written(out, places, |room| term_text::write_period(p, room))
        }
        Verb::Frequency => say(out, time_period::frequency(f.period())),
        Verb::Inverse => say(out, time_period::inverse(f.period())),
        Verb::AddTo => say(out, time_period::add_to(f.period(), f.date())),
        Verb::SubFrom => say(out, time_period::sub_from(f.period(), f.date())),
        Verb::ReadCouponDate => say(out, term_text::read_coupon_date(f.rest())),
        Verb::NewCouponDate => say(out, coupon_date::new_coupon_date(f.word(), f.word())),
        Verb::WriteCouponDate => {
            let c = f.coupon();
            let places = f.places().min(64);
            say_written(out, places, |room| term_text::write_coupon_date(c, room))
        }

        Verb::ConventionOfCode => say(out, packed_codes::convention_of_code(f.word())),
        Verb::CodeOfConvention => say(out, Ok(packed_codes::code_of_convention(f.convention()))),
        Verb::YearFraction => {
            let rule = f.convention();
            let start = f.date();
            let end = f.date();
            say(
                out,
                day_count_conv::year_fraction(rule, start, end, f.terms()),
            )
        }

        Verb::Round2digits => say(out, cash_flow::round2digits(f.float(), f.signed())),
        Verb::Aggregatable => say(out, Ok(cash_flow::aggregatable(f.flow(), f.flow()))),
        Verb::FuzzyCashFlowsCmpEq => {
            let a = f.flow();
            let b = f.flow();
            say(out, Ok(cash_flow::fuzzy_cash_flows_cmp_eq(a, b, f.float())))
        }
        Verb::IsCurrency => say(out, Ok(cash_flow::is_currency(f.currency()))),
        Verb::IsSameCurrency => {
            say(
                out,
                Ok(cash_flow::is_same_currency(f.currency(), f.currency())),
            )
        }
        Verb::IsUpToBillion => say(out, Ok(cash_flow::is_up_to_billion(f.float()))),
        Verb::DateOrNone => say(out, Ok(cash_flow::date_or_none(f.word()))),
        Verb::DiscountFactor => {
            let rate = f.flat_rate();
            say(out, rates::discount_factor(rate, f.date(), f.date()))
        }
        Verb::DiscountCashFlow => {
            let rate = f.flat_rate();
            let today = f.date();
            say(out, rates::discount_cash_flow(rate, f.flow(), today))
        }
        Verb::DiscountPlainFlows => say(out, flows::discount_plain_flows(f)),
        Verb::DiscountCashFlowStream => say(out, flows::discount_cash_flow_stream(f)),
        Verb::FlowsAfterPlain => flows::flows_after_plain(f, out),
        Verb::GetCashFlowsAfter => flows::get_cash_flows_after(f, out),

        Verb::CheckNote => say(out, bond::check_note(f.note()).map(|_| ())),
        Verb::CheckNoteWith => {
            let checked = bond::check_note_with(f.note(), f.yes(), f.yes());
            say(out, checked.map(|_| ()))
        }
        Verb::IsNoteNumber => say(out, Ok(bond::is_note_number(f.note_number()))),
        Verb::IsCouponRate => say(out, Ok(bond::is_coupon_rate(f.float()))),
        Verb::IsPosition => say(out, Ok(bond::is_position(f.float()))),
        Verb::FirstCouponEnd => say(out, bond::first_coupon_end(f.note())),
        Verb::Interest => {
            let _ = f.note();
            say(out, Ok(bond::interest(f.float(), f.float(), f.float())))
        }
        Verb::Nominal => {
            let note = f.note();
            say(out, Ok(bond::nominal(f.float(), note)))
        }
        Verb::CouponAmount => {
            let note = f.note();
            let position = f.float();
            say(out, Ok(bond::coupon_amount(position, note, f.float())))
        }
        Verb::AccruedInterest => {
            say(out, accrued_interest::accrued_interest(f.note(), f.date()))
        }
        Verb::RolloutFlows => notes::rollout_flows(f, out),
        Verb::RolloutCashFlows => flows::rollout_cash_flows(f, out),
        Verb::ReadNote => notes::read_note(f, out),
        Verb::WriteNote => notes::write_note(f, out),
        Verb::ListNote => notes::list_note(f, out),

        Verb::ReadU32 => say(out, number_text::read_u32(f.rest(), Refusal::InvalidPeriod)),
        Verb::ReadI32 => say(out, number_text::read_i32(f.rest(), Refusal::InvalidPeriod)),
        Verb::ReadDecimal => {
            let most = f.word();
            let number = f.word();
            read_decimal(f.rest(), most, number, out)
        }
        Verb::NumberLength => say(out, Ok(number_text::decimal_length(f.long()))),
        Verb::PaddedLength => say(out, Ok(number_text::padded_length(f.long(), f.places()))),
        Verb::SignedLength => say(out, Ok(number_text::signed_length(f.signed()))),
        Verb::Magnitude => say(out, Ok(outcome::magnitude(f.signed()))),
        Verb::WriteU32 => {
            let n = f.word();
            say_written(out, f.places(), |room| number_text::write_u32(n, room))
        }
        Verb::WriteI32 => {
            let n = f.signed();
            say_written(out, f.places(), |room| number_text::write_i32(n, room))
        }
        Verb::WritePadded => {
            let n = f.word();
            let width = f.places();
            say_written(
                out,
                f.places(),
                |room| number_text::write_padded(n, width, room),
            )
        }

        Verb::LeadingZeros => say(out, Ok(decimal::leading_zeros(f.rest()))),
        Verb::DecimalLength => say(out, decimal::decimal_length(f.float())),
        Verb::WriteDecimal => {
            let x = f.float();
            say_written(out, f.places(), |room| decimal::write_decimal(x, room))
        }
        Verb::PutScaled => {
            let n = f.long();
            let twos = f.places();
            // Every byte of the room is written.
            say_written(out, f.places(), |room| {
                decimal::put_scaled(n, twos, room);
                Ok(room.len())
            })
        }

        Verb::WriteDate => {
            let t = f.date();
            say_written(out, f.places(), |room| flow_text::write_date(t, room))
        }
        Verb::WriteAmount => {
            let x = f.float();
            let currency = f.currency();
            say_written(
                out,
                f.places(),
                |room| flow_text::write_amount(x, currency, room),
            )
        }
        Verb::AmountLength => say(out, flow_text::amount_length(f.float(), f.currency())),
        Verb::WriteCashFlow => {
            let flow = f.flow();
            say_written(
                out,
                f.places(),
                |room| flow_text::write_cash_flow(flow, room),
            )
        }
        Verb::CashFlowLength => say(out, flow_text::cash_flow_length(f.flow())),
    }
}

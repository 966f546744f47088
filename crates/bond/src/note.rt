// The note, as finql's bond.rs, and its checks in their order.
ghost use Rattle.bond.specs.note.Notes.{PositionPromise, ChecksPromise, NotePromise};

use crate::limits::NoteNumber;
use calendar::Date;
use cash_flow::Currency;
use coupon_date::CouponDate;
use day_adjust::DayAdjust;
use day_count_conv::DayCountConv;
use outcome::Refusal;
use time_period::{TimePeriod, TimePeriodUnit};

#[derive(Clone, Copy)]
pub struct Note {
    pub number: NoteNumber,
    pub issue_date: Date,
    pub maturity: Date,
    pub coupon_date: CouponDate,
    pub period: TimePeriod,
    pub day_count_convention: DayCountConv,
    pub business_day_rule: DayAdjust,
    pub denomination: u32,
    pub rate: f64,
    pub currency: Currency,
}

// Whether a position is finite, from -1e9 to 1e9; -0.0 is one.
#[tactic(auto, unfolding(crate::specs::note::Notes::is_position))]
pub fn is_position(position: f64) -> bool
    ensures { PositionPromise position result }
{
    cash_flow::is_up_to_billion(position)
}

// The note, with what the caller found of its position and its holiday table; refused 18, 15, 17,
// 1, 7, 8, 13, 14, 12.
#[tactic(auto, using(outcome::proofs::Numbers::at_most, outcome::proofs::Numbers::not_at_most), unfolding(crate::specs::note::Notes::note_checks, crate::specs::note::Notes::term_checks, crate::specs::note::Notes::period_checks))]
pub fn check_note_with(note: Note, position: bool, table: bool) -> Result<Note, Refusal>
    ensures { ChecksPromise position table note result }
{
    if !crate::limits::is_note_number(note.number) {
        return Err(Refusal::MalformedRecord);
    }
    if !crate::limits::is_coupon_rate(note.rate) || !position {
        return Err(Refusal::NumberOutOfLimits);
    }
    if !cash_flow::is_currency(note.currency) {
        return Err(Refusal::BadCurrency);
    }
    if !calendar::is_date(note.issue_date) || !calendar::is_date(note.maturity) {
        return Err(Refusal::InvalidDate);
    }
    coupon_date::new_coupon_date(note.coupon_date.day, note.coupon_date.month)?;
    if !table {
        return Err(Refusal::BadHolidayTable);
    }
    if note.period.num < 1 {
        return Err(Refusal::PeriodBelowOne);
    }
    if let TimePeriodUnit::BusinessDaily = note.period.unit {
        return Err(Refusal::MissingCalendar);
    }
    Ok(note)
}

// The note, without a position and a holiday table; refused 18, 15, 17, 1, 7, 8, 14, 12.
pub fn check_note(note: Note) -> Result<Note, Refusal>
    ensures { NotePromise note result }
{
    check_note_with(note, true, true)
}

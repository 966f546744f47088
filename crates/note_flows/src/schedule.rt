// What a note pays next: the coupon or the nominal that is due, on a date that is not adjusted yet.
ghost use Rattle.std.specs.Prelude.{◌≡◌, true};
ghost use Rattle.outcome.specs.Refusals.{outcome_of};
ghost use Rattle.note_flows.specs.schedule.Schedule.{is_accepted, is_dated, coupon, owed};

use bond::Note;
use calendar::Date;
use outcome::Refusal;

// What is due: the first coupon, what follows a coupon that ended on a date, or nothing more.
#[derive(Clone, Copy)]
pub enum Due {
    First,
    After(Date),
    Nothing,
}

// What is owed: an amount on a date, and what is due after it.
#[derive(Clone, Copy)]
pub(crate) struct Payment {
    pub date: Date,
    pub amount: f64,
    pub next: Due,
}

// A coupon that ends on a date, for its fraction of a year.
fn coupon(note: Note, position: f64, end: Date, fraction: f64) -> Payment
    ensures { result ≡ coupon note position end fraction }
{
    Payment {
        date: end,
        amount: bond::coupon_amount(position, note, fraction),
        next: Due::After(end),
    }
}

// Inner: what is owed next; asks for a note that passed its checks, and a date that exists.
pub(crate) fn owed(note: Note, position: f64, due: Due) -> Result<Option<Payment>, Refusal>
    requires accepted { is_accepted note ≡ true }
    requires dated { is_dated due ≡ true }
    ensures { outcome_of result ≡ owed note position due }
{
    // It has one caller, so that the compiler keeps its answer out of memory.
    let rule = note.day_count_convention;
    match due {
        // The first coupon rolls from its end.
        Due::First => {
            let end = bond::first_coupon_end(note)?;
            let terms = day_count_conv::rolled_from(end, note.period);
            let fraction = day_count_conv::fraction_judged(rule, note.issue_date, end, terms)?;
            Ok(Some(coupon(note, position, end, fraction)))
        }
        // A later one rolls from its start, and is one period long.
        Due::After(start) if calendar::is_before(start, note.maturity) => {
            // Part by part, as `step` wrote it: a date read as a whole makes the processor wait, and
            // a `?` reads it so.
            match time_period::step(note.period, start) {
                Ok(Date { year, month, day }) => {
                    let end = Date { year, month, day };
                    let fraction = day_count_conv::fraction_of_period(
                        rule,
                        note.period,
                        start,
                        end,
                    )?;
                    Ok(Some(coupon(note, position, end, fraction)))
                }
                Err(refusal) => Err(refusal),
            }
        }
        // The nominal comes behind the last.
        Due::After(_) => Ok(Some(Payment {
            date: note.maturity,
            amount: bond::nominal(position, note),
            next: Due::Nothing,
        })),
        Due::Nothing => Ok(None),
    }
}

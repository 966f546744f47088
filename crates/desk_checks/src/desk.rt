// Asks the questions, writes a line for each, and counts how many answers are as written.
use crate::text::{self, Answer, NoteText};
use bond::Note;
use calendar::{Date, Day};
use coupon_date::CouponDate;
use day_adjust::DayAdjust;
use day_count_conv::{DayCountConv, NoteTerms};
use outcome::Refusal;
use std::fmt::Display;
use std::io::Stdout;
use time_period::TimePeriod;

// Nobody is left to tell of a line that cannot be written; the rest is still tried.
#[derive(Drop)]
pub(crate) struct Desk {
    stdout: Stdout,
    pub(crate) good: u32,
    pub(crate) wrong: u32,
}

impl Desk {
    pub(crate) fn new(stdout: Stdout) -> Desk {
        Desk {
            stdout,
            good: 0,
            wrong: 0,
        }
    }

    // Ends a question's line: its answer, and whether that is what is wanted. No zero and no NaN is
    // wanted, so that equal numbers have equal bits.
    fn tell<T: PartialEq + Copy, D: Display + Drop, F: FnOnce(T) -> D>(
        &mut self,
        got: Result<T, Refusal>,
        want: Result<T, Refusal>,
        text: F,
    )
        requires { F.IsAlwaysCallable text }
    {
        let is_wanted = got == want;
        let _ = print!(self.stdout; ": {}", Answer(got.map(text)));
        if is_wanted {
            self.good = self.good.wrapping_add(1);
            let _ = println!(self.stdout; " ok");
        } else {
            self.wrong = self.wrong.wrapping_add(1);
            let _ = println!(self.stdout; " WRONG");
        }
    }

    // The date of a serial day.
    pub(crate) fn ask_day(&mut self, n: u32, want: Result<Date, Refusal>) {
        let _ = print!(self.stdout; "- day {n}");
        self.tell(calendar::date_of(Day(n)), want, text::date);
    }

    // A period added.
    pub(crate) fn ask_added(
        &mut self,
        row: char,
        t: Date,
        p: TimePeriod,
        want: Result<Date, Refusal>,
    ) {
        let _ = print!(self.stdout; "{row} {} +{}", text::date(t), text::period(p));
        self.tell(time_period::add_to(p, t), want, text::date);
    }

    // A period taken away.
    pub(crate) fn ask_taken(
        &mut self,
        row: char,
        t: Date,
        p: TimePeriod,
        want: Result<Date, Refusal>,
    ) {
        let _ = print!(self.stdout; "{row} {} -{}", text::date(t), text::period(p));
        self.tell(time_period::sub_from(p, t), want, text::date);
    }

    // dd.mm text.
    pub(crate) fn ask_coupon(&mut self, s: &str, want: Result<CouponDate, Refusal>) {
        let _ = print!(self.stdout; "- coupon {s}");
        self.tell(
            term_text::read_coupon_date(s.as_bytes()),
            want,
            text::coupon,
        );
    }

    // A period's text; each that is asked is to be refused.
    pub(crate) fn ask_period(&mut self, s: &str, want: Refusal) {
        let _ = print!(self.stdout; "- period {s}");
        self.tell(
            term_text::read_period(s.as_bytes()),
            Err(want),
            text::period,
        );
    }

    // A date adjusted under a table.
    pub(crate) fn ask_adjusted(
        &mut self,
        row: char,
        rule: DayAdjust,
        t: Date,
        table: &[u32],
        want: Result<Date, Refusal>,
    ) {
        let name = text::adjustment(rule);
        let count = table.len();
        let _ = print!(self.stdout; "{row} {name} {}, holidays {count}", text::date(t));
        self.tell(day_adjust::adjust_date(rule, t, table), want, text::date);
    }

    // Two dates under a rule and its terms.
    pub(crate) fn ask_fraction(
        &mut self,
        row: char,
        rule: DayCountConv,
        terms: NoteTerms,
        start: Date,
        end: Date,
        want: Result<f64, Refusal>,
    ) {
        let _ = print!(self.stdout; "{row} {}", text::rule(rule));
        if let Some(p) = terms.period {
            let _ = print!(self.stdout; " {}", text::period(p));
        }
        if let Some(t) = terms.roll {
            let _ = print!(self.stdout; ", roll {}", text::date(t));
        }
        let _ = print!(self.stdout; ", {} to {}", text::date(start), text::date(end));
        let got = day_count_conv::year_fraction(rule, start, end, terms);
        self.tell(got, want, text::amount);
    }

    // The interest accrued on a day.
    pub(crate) fn ask_accrued(
        &mut self,
        row: char,
        n: Note,
        today: Date,
        want: Result<f64, Refusal>,
    ) {
        let _ = print!(self.stdout; "{row} accrued {}{}", text::date(today), NoteText(n));
        let got = accrued_interest::accrued_interest(n, today);
        self.tell(got, want, text::amount);
    }

    // How many flows a note pays, at position 1 and without holidays.
    pub(crate) fn ask_flows(&mut self, n: Note, want: Result<usize, Refusal>) {
        let _ = print!(self.stdout; "- flows{}", NoteText(n));
        let mut days = [0; 8];
        let mut amounts = [0.0; 8];
        let got = rollout::rollout_flows(n, 1.0, &[], &mut days, &mut amounts);
        self.tell(got, want, |k| k);
    }
}

// Notes, their flows in lists and their packed form.
use crate::fields::{Fields, TABLE};
use crate::lent;
use crate::line::{self, Answer, Bits, Letters, Words};
use crate::lines::Lines;
use packed_read::PackedNote;
use std::fmt::{self, Formatter, Write};

// The most flows that a rollout is lent places for.
const FLOWS: usize = 4000;

// The most holidays that a packed note is lent places for.
const HOLIDAYS: usize = 4200;

pub(crate) fn rollout_flows(mut f: Fields, out: &mut Lines) -> fmt::Result {
    let note = f.note();
    let position = f.float();
    let places = f.places().min(FLOWS);
    let mut table_places = [0; TABLE];
    let table = f.table(&mut table_places);
    let mut days = [lent::WORD; FLOWS];
    let mut amounts = [lent::FLOAT; FLOWS];
    let answer = rollout::rollout_flows(
        note,
        position,
        table,
        &mut days[..places],
        &mut amounts[..places],
    );
    let n = answer.unwrap_or(0);
    write!(out, "{}", Answer(answer))?;
    for (day, amount) in days.iter().zip(&amounts).take(n) {
        write!(out, " {day}:{}", Bits(*amount))?;
    }
    let is_kept = lent::is_kept(&days, n, lent::WORD) && lent::is_kept(&amounts, n, lent::FLOAT);
    line::say_kept(out, is_kept)
}

impl Words for PackedNote {
    fn words<W: fmt::Write>(&self, f: &mut Formatter<W>) -> fmt::Result {
        let note = self.note;
        let number = note.number;
        write!(f, " {} {} {}", self.holidays, number.count, number.digits)?;
        note.issue_date.words(f)?;
        note.maturity.words(f)?;
        note.coupon_date.words(f)?;
        note.period.words(f)?;
        note.day_count_convention.words(f)?;
        let rule = note.business_day_rule as u8;
        let rate = Bits(note.rate);
        let letters = Letters(note.currency);
        write!(f, " {rule} {} {rate} {letters}", note.denomination)
    }
}

pub(crate) fn read_note(mut f: Fields, out: &mut Lines) -> fmt::Result {
    let places = f.places().min(HOLIDAYS);
    let mut table = [lent::WORD; HOLIDAYS];
    let answer = packed_read::read_note(f.rest(), &mut table[..places]);
    let n = answer.map_or(0, |p| p.holidays);
    write!(out, "{}", Answer(answer))?;
    for day in table.iter().take(n) {
        write!(out, " {day}")?;
    }
    line::say_kept(out, lent::is_kept(&table, n, lent::WORD))
}

pub(crate) fn write_note(mut f: Fields, out: &mut Lines) -> fmt::Result {
    let note = f.note();
    let places = f.places().min(16000);
    let mut table_places = [0; TABLE];
    let table = f.table(&mut table_places);
    let mut room = [lent::BYTE; 16000];
    let answer = packed_write::write_note(note, table, &mut room[..places]);
    line::say_text(out, answer, &room)
}

// Made by a call, so that the proof of what lends it does not write its bytes out.
fn listing_room() -> [u8; 200000] {
    [lent::BYTE; 200000]
}

pub(crate) fn list_note(mut f: Fields, out: &mut Lines) -> fmt::Result {
    let places = f.places().min(200000);
    let mut room = listing_room();
    let answer = note_listing::list_note(f.rest(), &mut room[..places]);
    line::say_text(out, answer, &room)
}

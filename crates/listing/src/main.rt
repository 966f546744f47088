// The program: reads a packed note and its table from standard input, and writes its flows or
// `refused N`. It has no exit status, so it says on standard error how that went, in one line: only
// `whole: ..` says that all of it is read and written, and no word at all is trouble too.
#![tactic(auto)]

ghost use Rattle.std.specs.Prelude.{◌≡◌, ◌≤◌, length, take, IfOk};

use std::io::{self, Read, Stdin, Stdout};

// Reads until the room is full or the input ends, and answers how many bytes were read.
fn read_input(mut stdin: Stdin, room: &mut [u8]) -> io::Result<usize>
    ensures in_bounds { IfOk result (λ n. n ≤ length room.new) }
    ensures len { IfOk result (λ n. n ≡ length (take n room.new)) }
{
    let mut n = 0;
    while n < room.len() {
        match stdin.read(&mut room[n..])? {
            0 => break,
            more => n += more,
        }
    }
    Ok(n)
}

// Made by a call, so that the proof of what lends it does not write its bytes out. 2,000 lines of
// at most 331 bytes.
fn listing_room() -> [u8; 662000] {
    [0; 662000]
}

// Writes a text, and answers the word that says how that went. A list begins with a date, a refusal
// with its name.
fn write_answer(text: &[u8], stdout: Stdout) -> &'static str {
    if stdout.write_all(text).is_err() {
        "trouble: the list is not written whole"
    } else if text.starts_with(b"r") {
        "whole: a refusal"
    } else {
        "whole: a list"
    }
}

// Writes the list of a record.
fn list(record: &[u8], stdout: Stdout) -> &'static str {
    let mut room = listing_room();
    match note_listing::list_note(record, &mut room) {
        Ok(n) => write_answer(&room[..n], stdout),
        Err(_) => write_answer(b"refused 16\n", stdout),
    }
}

fn main(rt: HostRuntime) {
    // The longest accepted record has 11,296 bytes, and what is longer shows here.
    let mut input = [0; 65536];
    let word = match read_input(rt.stdin(), &mut input) {
        Ok(n) => list(&input[..n], rt.stdout()),
        Err(_) => "trouble: the input cannot be read",
    };
    // Nobody is left to tell where the word cannot be written.
    let _ = eprintln!(rt; "{word}");
}

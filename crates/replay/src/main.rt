// The program: answers questions about the entry points, a line for each record of standard input.
#![tactic(auto)]

ghost use Rattle.std.specs.Prelude.{◌≡◌, ◌≤◌, length, take};

mod answers;
mod fields;
mod flows;
mod given;
mod lent;
mod line;
mod lines;
mod notes;
mod verb;

use fields::Fields;
use lines::Lines;
use std::io::{Read, Stdin};
use verb::Verb;

// Some thousand questions; what is longer is not read.
const MOST_BYTES: usize = 400000;

// Both rooms are made by calls, so that the proof of `main` does not write their bytes out.
fn questions_room() -> [u8; MOST_BYTES] {
    [0; MOST_BYTES]
}

// 200,000 bytes, and the longest answer, a listing of 200,000 bytes as hex.
fn answers_room() -> [u8; 640000] {
    [0; 640000]
}

// Reads until the room is full, the input ends or a read fails.
fn read_input(mut stdin: Stdin, room: &mut [u8]) -> usize
    ensures in_bounds { result ≤ length room.new }
    ensures len { result ≡ length (take result room.new) }
{
    let mut n = 0;
    while n < room.len() {
        match stdin.read(&mut room[n..]) {
            Ok(0) => break,
            Ok(more) => n += more,
            Err(_) => break,
        }
    }
    n
}

// A record is how many bytes of fields follow, its verb, and its fields.
fn answer_all<R: Read>(input: &mut R, out: &mut Lines) {
    let mut room = [0; 65535];
    // No record has fewer than three bytes.
    for _ in 0..=MOST_BYTES / 3 {
        let mut head = [0; 3];
        if input.read_exact(&mut head).is_err() {
            break;
        }
        let [high, low, verb] = head;
        let length = usize::from(u16::from_be_bytes([high, low]));
        let bytes = &mut room[..length];
        if input.read_exact(bytes).is_err() {
            break;
        }
        // No line fails: what has no room is left out.
        let _ = match Verb::of(verb) {
            Some(verb) => answers::answer(verb, Fields::new(bytes), out),
            None => line::say_refused(out, 0),
        };
        out.end_answer();
    }
    out.write_out();
}

fn main(rt: HostRuntime) {
    let mut input = questions_room();
    let n = read_input(rt.stdin(), &mut input);
    let mut room = answers_room();
    answer_all(&mut &input[..n], &mut Lines::new(rt.stdout(), &mut room));
}

// The lines of the answers, which stand in a room until enough of them go out at once.
use std::fmt;
use std::io::Stdout;

// From so many bytes on they go out.
const ENOUGH: usize = 200000;

#[derive(Drop)]
pub(crate) struct Lines<'a> {
    stdout: Stdout,
    room: &'a mut [u8],
    length: usize,
}

impl<'a> Lines<'a> {
    pub(crate) fn new(stdout: Stdout, room: &'a mut [u8]) -> Lines<'a> {
        Lines {
            stdout,
            room,
            length: 0,
        }
    }

    // Nobody is left to tell of lines that cannot be written; those that follow are tried again.
    pub(crate) fn write_out(&mut self) {
        let stdout = self.stdout;
        let length = self.length;
        if let Some(lines) = self.room.get(..length) {
            let _ = stdout.write_all(lines);
        }
        self.length = 0;
    }

    // Ends an answer; what is written so far goes out before the room runs short.
    pub(crate) fn end_answer(&mut self) {
        if self.length >= ENOUGH {
            self.write_out();
        }
    }
}

impl fmt::Write for Lines<'_> {
    // What has no room is left out.
    fn write_str(&mut self, s: &str) -> fmt::Result {
        let end = self.length.saturating_add(s.len());
        if let Some(places) = self.room.get_mut(self.length..end) {
            places.copy_from_slice(s.as_bytes());
            self.length = end;
        }
        Ok(())
    }
}

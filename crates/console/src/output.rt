// Blocks to standard output, and lines to standard error: the program's name, then what went wrong.
use crate::Console;
use house::Fault;
use std::fmt::{self, Write};

// A line in the making, which goes out by one write; what it has no room for is left out.
#[derive(Drop)]
struct Line {
    bytes: [u8; 128],
    at: usize,
}

impl Line {
    fn put(&mut self, text: &[u8]) {
        self.at = block::put(&mut self.bytes, self.at, text);
    }
}

impl fmt::Write for Line {
    fn write_str(&mut self, text: &str) -> fmt::Result {
        self.put(text.as_bytes());
        Ok(())
    }
}

impl Console<'_> {
    // A line that begins with the program's name.
    fn line(self) -> Line {
        let mut line = Line {
            bytes: [0; 128],
            at: 0,
        };
        line.put(self.program);
        line.put(b": ");
        line
    }

    // Says a line, with its end.
    fn say_line(self, mut line: Line) {
        line.put(b"\n");
        if let Some(held) = line.bytes.get(..line.at) {
            let _ = streams::say(self.rt, held);
        }
    }

    // Says what stops the program where no record is to blame.
    pub fn say(self, what: &[u8]) {
        let mut line = self.line();
        line.put(what);
        self.say_line(line);
    }

    // Says which number refused the record that begins at this byte; the program goes on.
    pub fn refusal(self, begin: u64, number: u8) {
        let mut line = self.line();
        let _ = write!(line, "record at byte {begin}: refused {number}");
        self.say_line(line);
    }

    // Says why the program stops: its name, the byte at which the record begins, what is wrong.
    pub fn stop(self, begin: u64, fault: Fault) {
        let mut line = self.line();
        let _ = write!(line, "record at byte {begin}: {fault}");
        self.say_line(line);
    }

    // Writes out what is held, and says so if it cannot.
    pub fn flush(self, out: &[u8], at: usize) -> bool {
        let is_written = out
            .get(..at)
            .is_some_and(|held| streams::print(self.rt, held));
        if !is_written {
            self.say(b"cannot write");
        }
        is_written
    }
}

// Text on standard output; what failed on standard error; and the bytes of standard input.
#![tactic(auto)]

ghost use Rattle.std.specs.Prelude.{◌≤◌, length};

use replies::Reply;
use std::fmt::Display;
use std::io;
use std::io::{IsTerminal, Print, Read, Stderr, Stdin, Stdout};
use text::Writer;

// Where a program writes: its output, and what failed.
#[derive(Clone, Copy)]
pub struct Console {
    pub output: Stdout,
    pub complaints: Stderr,
}

impl Console {
    // Standard output and standard error.
    pub fn of(rt: &HostRuntime) -> Console {
        Console {
            output: rt.stdout(),
            complaints: rt.stderr(),
        }
    }

    // What a failure says of itself, where the output may be what failed.
    pub fn complain(self, text: &[u8]) {
        let _ = self.complaints.write_all(text);
    }

    // What could not be written is told on standard error.
    fn told(self, outcome: io::Result<()>) {
        if outcome.is_err() {
            self.complain(b"the output could not be written\n");
        }
    }

    // Bytes as they are.
    pub fn say(self, text: &[u8]) {
        self.told(self.output.write_all(text));
    }

    // A text, for `print!`.
    pub fn print<D: Display + Drop>(self, text: D) {
        self.told(self.output.print(text));
    }

    // A text and a newline, for `println!`.
    pub fn println<D: Display + Drop>(self, text: D) {
        self.told(self.output.println(text));
    }

    // A number in decimal digits. That it could not be written is told by the text after it.
    pub fn number(self, n: u32) {
        let _ = self.output.print(n);
    }

    // The text that a call wrote; where it wrote none, that is told on standard error.
    pub fn written(self, answer: Result<usize, Reply>, text: &[u8]) {
        if let Ok(n) = answer
            && let Some(text) = text.get(..n)
        {
            return self.say(text);
        }
        self.complain(b"there is no room for the text\n");
    }

    // The line of a refusal and of the record being read.
    pub fn refused(self, reply: Reply, record: u32) {
        let mut text = [0u8; lines::LONGEST];
        let answer = lines::refusal(reply, record, &mut text);
        self.written(answer, &text);
    }

    // A set as the listing prints it.
    pub fn set(self, e: u32) {
        let mut text = [0u8; 88];
        let mut writer = Writer::new(&mut text);
        writer.braces(e);
        self.say(writer.text());
    }
}

// Reads until the bytes are full, the input ends or a read fails, and returns how many bytes it put at their start.
// A loop over `read`: the library's reading to the end says no count where a read fails.
pub fn read_full(input: &mut Stdin, bytes: &mut [u8]) -> usize
    ensures { result ≤ length bytes.new }
{
    let mut done = 0;
    while done < bytes.len() {
        match input.read(&mut bytes[done..]) {
            Ok(0) => return done,
            Ok(n) => done += n,
            Err(_) => return done,
        }
    }
    done
}

// Whether no read of standard input failed before its end: one more finds nothing. A terminal is not asked for its end twice.
pub fn at_end(input: &mut Stdin) -> bool {
    if input.is_terminal() {
        return true;
    }
    let mut one = [0u8; 1];
    matches!(input.read(&mut one), Ok(0))
}

#[cfg(test)]
mod tests {
    use super::*;
    use std::cell::Cell;
    use std::fmt;

    // A text that counts how often it is formatted.
    #[derive(Drop)]
    struct Counted<'a>(&'a Cell<u32>);

    impl Display for Counted<'_> {
        fn fmt<W: fmt::Write>(&self, f: &mut fmt::Formatter<W>) -> fmt::Result {
            self.0.set(self.0.get().wrapping_add(1));
            f.write_str("counted")
        }
    }

    // A text is formatted once for each time that it is printed, with a newline or without.
    #[test]
    fn texts_are_printed(rt: HostRuntime) {
        let console = Console::of(&rt);
        let times = Cell::new(0);
        console.print(Counted(&times));
        assert_eq!(rt; times.get(), 1);
        console.println(Counted(&times));
        assert_eq!(rt; times.get(), 2);
        print!(console; "{}, ", Counted(&times));
        println!(console; "{}", Counted(&times));
        assert_eq!(rt; times.get(), 4);
    }
}

// The calls that read the store, one each: the call made, its reply printed.
#![tactic(auto)]

ghost use Rattle.std.specs.Prelude.{◌≤◌};

use asking::Answer;
use printing::Console;
use replies::Reply;
use sets::Set;
use store::Store;
use telling::{Fault, asked, filled, told};
use theory::MARKS;

// The word of an answer and the set that is its reason.
fn because(console: Console, word: &[u8], set: Set) {
    console.say(word);
    console.say(b" ");
    console.set(set);
    console.say(b"\n");
}

// ask N K..
pub fn ask(console: Console, store: &Store, n: u32, set: &[u32]) -> Result<(), Fault> {
    match asking::question(*store, n, asked(set)?).answer? {
        Answer::Inconsistent(set) => because(console, b"inconsistent", set),
        Answer::Supported(set) => because(console, b"supported", set),
        Answer::Unsupported => console.say(b"unsupported\n"),
    }
    Ok(())
}

// context K..
pub fn context(console: Console, store: &Store, set: &[u32]) -> Result<(), Fault> {
    let mut bytes = [0u8; MARKS];
    let reply = asking::context(*store, asked(set)?, &mut bytes).reply;
    let Reply::Done = reply else {
        return Err(Fault::Refused(reply));
    };
    let held = &store.held;
    filled(console, &bytes, held.assumptions.into(), held.claims.into())
}

// member N P
pub fn member(console: Console, store: &Store, n: u32, place: u32) -> Result<(), Fault> {
    let set = asking::member(*store, n, place as usize).answer?;
    console.set(set);
    console.say(b"\n");
    Ok(())
}

// line N
pub fn line(console: Console, store: &Store, n: u32) -> Result<(), Fault> {
    let mut text = [0u8; lines::LONGEST];
    let out = lines::line(*store, n, &mut text);
    told(console, out.answer, &text)
}

// list
pub fn list(console: Console, store: &Store) -> Result<(), Fault> {
    let mut text = [0u8; listing::LONGEST];
    let out = listing::listing(*store, &mut text);
    told(console, out.answer, &text)
}

// One of the sixteen hex digits.
fn digit(n: u8) -> u8
    requires { n ≤ 15 }
{
    match n {
        0..=9 => b'0' + n,
        _ => b'a' + (n - 10),
    }
}

// write: two hex digits a byte, a space between two. No `print!`: it formats a byte at a time, in twice the instructions.
pub fn write(console: Console, store: &Store) -> Result<(), Fault> {
    let mut bytes = [0u8; writing::LONGEST];
    let out = writing::write(*store, &mut bytes);
    let file = bytes.get(..out.answer?).ok_or(Reply::Short)?;
    for (i, byte) in file.iter().enumerate() {
        if 0 < i {
            console.say(b" ");
        }
        console.say(&[digit(byte / 16), digit(byte % 16)]);
    }
    console.say(b"\n");
    Ok(())
}

// The plain path of the store.
#![tactic(auto)]

ghost use Rattle.std.specs.Prelude.{◌≤◌, length};
ghost use Rattle.stagetext.specs.Stagetext.{longest};

use plain::Plain;
use printing::Console;
use replies::Reply;
use sets::Set;
use store::Store;
use telling::{Fault, asked, filled, told};
use theory::MARKS;

// A bare word.
pub fn word(console: Console, answer: Plain) {
    match answer {
        Plain::Inconsistent => console.say(b"inconsistent\n"),
        Plain::Supported => console.say(b"supported\n"),
        Plain::Unsupported => console.say(b"unsupported\n"),
    }
}

// plain N K..
pub fn ask(console: Console, store: &Store, n: u32, set: &[u32]) -> Result<(), Fault> {
    word(console, plain::question(*store, n, asked(set)?).answer?);
    Ok(())
}

// plaincontext K..; as in `reads`, by the other call: one function over the call would ask in a clause that it may be made, and be no shorter.
pub fn context(console: Console, store: &Store, set: &[u32]) -> Result<(), Fault> {
    let mut bytes = [0u8; MARKS];
    let reply = plain::context(*store, asked(set)?, &mut bytes).reply;
    let Reply::Done = reply else {
        return Err(Fault::Refused(reply));
    };
    let held = &store.held;
    filled(console, &bytes, held.assumptions.into(), held.claims.into())
}

// The lines, on bytes that are enough for any.
fn lines(console: Console, store: &Store, set: Set, text: &mut [u8]) -> Result<(), Fault>
    requires { longest ≤ length text.old }
{
    let out = stagetext::lines(*store, set, text);
    told(console, out.answer, text)
}

// stages K..
pub fn stages(console: Console, store: &Store, set: &[u32]) -> Result<(), Fault> {
    let mut text = [0u8; stagetext::LONGEST];
    lines(console, store, asked(set)?, &mut text)
}

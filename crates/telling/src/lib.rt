// What the calls of a script share: the fields of a line as numbers, why a line has no answer and how that is told, and sets, bytes and texts.
#![tactic(auto)]

ghost use Rattle.std.specs.Prelude.{◌↔◌, ◌≡◌, ◌≤◌, Err, IfErr, IfOk, IsOk, Ok, eqb, false, length, ltb, true};
ghost use Rattle.replies.specs.declared.Reply.TheVariants.{Number};
ghost use Rattle.script.specs.Script.{fields_of, numeral, taken_all, values_of};
ghost use Rattle.telling.specs.declared.Fault.TheVariants.{Bad, Refused};
ghost use Rattle.theory.specs.Limits.{limits};
ghost use Rattle.theory.specs.Lists.{some_of};

use printing::Console;
use replies::Reply;
use sets::Set;
use std::alloc::AllocFailed;

// Room for the fields of one line: of 65,536 bytes every second is a space at least.
pub const MOST: usize = 32769;

// Why a line has no answer: it is no call, its call is refused, so is a file at a record, a file has too many bytes to be one, or there is no memory.
#[derive(Clone, Copy)]
pub enum Fault {
    Bad,
    Refused(Reply),
    Unloaded(Reply, u32),
    TooLong,
    OutOfMemory,
}

impl From<Reply> for Fault {
    fn from(reply: Reply) -> Fault {
        Fault::Refused(reply)
    }
}

impl<T: Drop> From<AllocFailed<T>> for Fault {
    ghost use Rattle.telling.specs.declared.Fault.TheVariants.{OutOfMemory};

    ghost from_gives = { λ _ f. f ≡ OutOfMemory };

    fn from(_failed: AllocFailed<T>) -> Fault {
        Self::OutOfMemory
    }
}

// The number that a refusal names, and the line's end.
fn naming(console: Console, reply: Reply) {
    if let Reply::Label(n) = reply {
        console.say(b" ");
        console.number(n.into());
    }
    console.say(b"\n");
}

// Tells why the line of this number has no answer.
pub fn tell(console: Console, number: u32, fault: Fault) {
    match fault {
        Fault::Bad => {
            console.say(b"bad line ");
            console.number(number);
            console.say(b"\n");
        }
        Fault::Refused(reply) => {
            console.say(b"refused ");
            console.number(replies::number(reply).into());
            naming(console, reply);
        }
        Fault::Unloaded(reply, record) => {
            console.say(b"refused ");
            console.number(replies::number(reply).into());
            console.say(b" ");
            console.number(record);
            naming(console, reply);
        }
        Fault::TooLong => console.refused(Reply::Long, 0),
        Fault::OutOfMemory => console.complain(b"there is no memory for the list in hand\n"),
    }
}

// The fields of a line as numbers; the line is bad where one is none, or where there are more than room for them or than a line can have.
pub fn numbers<'a>(rest: &[u8], room: &'a mut [u32]) -> Result<&'a [u32], Fault>
    ensures all { IsOk result ↔ ((length (values_of numeral (fields_of rest.now)) ≡ length (fields_of rest.now)) × (length (fields_of rest.now) ≤ length room.old) × (length (fields_of rest.now) ≤ 32769)) }
    ensures values { IfOk result (λ r. r.now ≡ values_of numeral (fields_of rest.now)) }
    ensures bad { IfErr result (λ f. f ≡ Bad) }
{
    let count = script::numbers(rest, 0, room).ok_or(Fault::Bad)?;
    if MOST < count {
        return Err(Fault::Bad);
    }
    Ok(&room[..count])
}

// The set that a call asks of: with a 0 the line is bad, a number above 32 is refused.
pub fn asked(numbers: &[u32]) -> Result<Set, Fault>
    ensures zero { some_of (eqb 0) numbers.now ≡ true → result ≡ Err Bad }
    ensures above { some_of (eqb 0) numbers.now ≡ false → some_of (ltb limits.assumptions) numbers.now ≡ true → result ≡ Err (Refused Number) }
    ensures set { some_of (eqb 0) numbers.now ≡ false → some_of (ltb limits.assumptions) numbers.now ≡ false → result ≡ Ok (taken_all 0 numbers.now) }
{
    if script::has_zero(numbers) {
        return Err(Fault::Bad);
    }
    if script::has_above(numbers) {
        return Err(Fault::Refused(Reply::Number));
    }
    Ok(script::set_of(numbers))
}

// The bytes of a context as numbers, a space between two; a store of more numbers has no shape.
pub fn filled(console: Console, bytes: &[u8], assumptions: u32, claims: u32) -> Result<(), Fault> {
    let n = assumptions as usize + claims as usize + 1;
    let values = bytes.get(..n).ok_or(Reply::Shape)?;
    for (i, value) in values.iter().enumerate() {
        if 0 < i {
            console.say(b" ");
        }
        console.number((*value).into());
    }
    console.say(b"\n");
    Ok(())
}

// The text that a call wrote, or its refusal; none is longer than what was lent.
pub fn told(console: Console, answer: Result<usize, Reply>, text: &[u8]) -> Result<(), Fault> {
    console.say(text.get(..answer?).ok_or(Reply::Short)?);
    Ok(())
}

#[cfg(test)]
mod tests {
    use super::*;

    // What had no memory for a value says so.
    #[test]
    fn failed_allocations_are_told(rt: HostRuntime) {
        let failed = AllocFailed { value: 7u32 };
        assert!(rt; matches!(Fault::from(failed), Fault::OutOfMemory));
    }
}

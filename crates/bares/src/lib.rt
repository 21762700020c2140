// The plain path of the list in hand.
#![tactic(auto)]

ghost use Rattle.std.specs.Prelude.{◌≤◌, length};
ghost use Rattle.stagetext.specs.Stagetext.{longest};

use bare::{Query, Told, What};
use calls::hands::Hand;
use handed::Handed;
use plains::word;
use printing::Console;
use replies::Reply;
use telling::{Fault, filled, told};
use theory::MARKS;

// What is asked of the list: of a set of numbers from 1 to 32 alone; else the line is bad.
fn query(assumptions: u32, claims: u32, what: What, numbers: &[u32]) -> Result<Query, Fault> {
    if script::has_zero(numbers) || script::has_above(numbers) {
        return Err(Fault::Bad);
    }
    Ok(Query {
        assumptions,
        claims,
        what,
        set: script::set_of(numbers),
    })
}

// bareask A M N K..
pub fn ask(
    console: Console,
    hand: &[Handed],
    assumptions: u32,
    claims: u32,
    n: u32,
    set: &[u32],
) -> Result<(), Fault> {
    let asked = query(assumptions, claims, What::Number(n), set)?;
    let Told::Word(answer) = bare::ask(asked, hand, &mut [])? else {
        return Err(Fault::Refused(Reply::Shape));
    };
    word(console, answer);
    Ok(())
}

// bareask A M N K.., of a list in its places
pub fn ask_some(
    console: Console,
    hand: &Hand,
    assumptions: u32,
    claims: u32,
    n: u32,
    set: &[u32],
) -> Result<(), Fault> {
    let asked = query(assumptions, claims, What::Number(n), set)?;
    let Told::Word(answer) = bare::ask_some(asked, hand.items, hand.count, &mut [])? else {
        return Err(Fault::Refused(Reply::Shape));
    };
    word(console, answer);
    Ok(())
}

// barecontext A M K..
pub fn context(
    console: Console,
    hand: &[Handed],
    assumptions: u32,
    claims: u32,
    set: &[u32],
) -> Result<(), Fault> {
    let asked = query(assumptions, claims, What::Context, set)?;
    let mut bytes = [0u8; MARKS];
    let Told::Filled = bare::ask(asked, hand, &mut bytes)? else {
        return Err(Fault::Refused(Reply::Shape));
    };
    filled(console, &bytes, assumptions, claims)
}

// barecontext A M K.., of a list in its places
pub fn context_some(
    console: Console,
    hand: &Hand,
    assumptions: u32,
    claims: u32,
    set: &[u32],
) -> Result<(), Fault> {
    let asked = query(assumptions, claims, What::Context, set)?;
    let mut bytes = [0u8; MARKS];
    let Told::Filled = bare::ask_some(asked, hand.items, hand.count, &mut bytes)? else {
        return Err(Fault::Refused(Reply::Shape));
    };
    filled(console, &bytes, assumptions, claims)
}

// The lines of a bare list, on bytes that are enough for any.
fn lines(console: Console, hand: &[Handed], asked: Query, text: &mut [u8]) -> Result<(), Fault>
    requires { longest ≤ length text.old }
{
    let Told::Lines(length) = bare::ask(asked, hand, text)? else {
        return Err(Fault::Refused(Reply::Shape));
    };
    told(console, Ok(length), text)
}

// The same of a list in its places.
fn lines_some(console: Console, hand: &Hand, asked: Query, text: &mut [u8]) -> Result<(), Fault>
    requires { longest ≤ length text.old }
{
    let Told::Lines(length) = bare::ask_some(asked, hand.items, hand.count, text)? else {
        return Err(Fault::Refused(Reply::Shape));
    };
    told(console, Ok(length), text)
}

// barestages A M K..
pub fn stages(
    console: Console,
    hand: &[Handed],
    assumptions: u32,
    claims: u32,
    set: &[u32],
) -> Result<(), Fault> {
    let asked = query(assumptions, claims, What::Stages, set)?;
    let mut text = [0u8; stagetext::LONGEST];
    lines(console, hand, asked, &mut text)
}

// barestages A M K.., of a list in its places
pub fn stages_some(
    console: Console,
    hand: &Hand,
    assumptions: u32,
    claims: u32,
    set: &[u32],
) -> Result<(), Fault> {
    let asked = query(assumptions, claims, What::Stages, set)?;
    let mut text = [0u8; stagetext::LONGEST];
    lines_some(console, hand, asked, &mut text)
}

#[cfg(test)]
mod tests {
    use super::*;

    // The claim 3 from both assumptions.
    const BOTH: Handed = Handed {
        consequent: 3,
        count: 2,
        supports: [1, 2, 0, 0],
    };

    // A list of more items than a hand has places for is asked; a set with a 0 and counts over the limits are refused.
    #[test]
    fn lists_are_asked(rt: HostRuntime) {
        let console = Console::of(&rt);
        let list = [BOTH; 300];
        assert!(rt; ask(console, &list, 2, 1, 3, &[1, 2]).is_ok());
        assert!(rt; matches!(ask(console, &list, 2, 1, 3, &[0]), Err(Fault::Bad)));
        assert!(rt;
            matches!(
                ask(console, &list, 33, 1, 3, &[1]),
                Err(Fault::Refused(Reply::Counts))
            )
        );
        assert!(rt; context(console, &list, 2, 1, &[1, 2]).is_ok());
        assert!(rt; matches!(context(console, &list, 2, 1, &[0]), Err(Fault::Bad)));
        assert!(rt;
            matches!(
                context(console, &list, 2, 1, &[3]),
                Err(Fault::Refused(Reply::Number))
            )
        );
        assert!(rt; stages(console, &list, 2, 1, &[1, 2]).is_ok());
        assert!(rt; matches!(stages(console, &list, 2, 1, &[0]), Err(Fault::Bad)));
        assert!(rt;
            matches!(
                stages(console, &list, 2, 129, &[1]),
                Err(Fault::Refused(Reply::Counts))
            )
        );
    }
}

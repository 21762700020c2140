// Calls from a script on standard input, their replies to standard output.
#![tactic(auto)]

mod command;

ghost use Rattle.std.specs.Prelude.{◌≤◌, length};

use calls::hands;
use calls::hands::Hand;
use command::Command;
use printing::Console;
use store::Store;
use telling::{Fault, MOST, numbers, tell};

// Whether a line has no fields more; else it is bad.
fn alone(rest: &[u8]) -> Result<(), Fault> {
    let span = script::field(rest, 0);
    if span.from < span.to {
        return Err(Fault::Bad);
    }
    Ok(())
}

// A call whose fields are numbers. In a function of its own, since the room for them is cleared where it is entered.
fn called(
    console: Console,
    store: &mut Store,
    hand: &mut Hand,
    command: Command,
    rest: &[u8],
) -> Result<(), Fault> {
    let mut room = [0u32; MOST];
    match (command, numbers(rest, &mut room)?) {
        (Command::Open, [a, m]) => calls::open(console, store, *a, *m),
        (Command::Add, [c, supports @ ..]) => calls::add(console, store, *c, supports),
        (Command::Withdraw, [c, supports @ ..]) => calls::withdraw(console, store, *c, supports),
        (Command::Rule, [c, supports @ ..]) => hands::note(hand, *c, supports),
        (Command::Ask, [n, set @ ..]) => reads::ask(console, store, *n, set),
        (Command::Context, set) => reads::context(console, store, set),
        (Command::Member, [n, place]) => reads::member(console, store, *n, *place),
        (Command::Line, [n]) => reads::line(console, store, *n),
        (Command::List, []) => reads::list(console, store),
        (Command::Write, []) => reads::write(console, store),
        (Command::Plain, [n, set @ ..]) => plains::ask(console, store, *n, set),
        (Command::PlainContext, set) => plains::context(console, store, set),
        (Command::Stages, set) => plains::stages(console, store, set),
        (Command::BareAsk, [a, m, n, set @ ..]) => bares::ask_some(console, hand, *a, *m, *n, set),
        (Command::BareContext, [a, m, set @ ..]) => bares::context_some(console, hand, *a, *m, set),
        (Command::BareStages, [a, m, set @ ..]) => bares::stages_some(console, hand, *a, *m, set),
        _ => Err(Fault::Bad),
    }
}

// A line's call on the store and the list in hand, its answer printed. A blank line and a remark are none.
fn obey(
    console: Console,
    store: &mut Store,
    hand: &mut Hand,
    word: &[u8],
    rest: &[u8],
) -> Result<(), Fault> {
    if let [] | [b'#', ..] = word {
        return Ok(());
    }
    match Command::try_from(word)? {
        Command::Load => calls::load(console, store, rest),
        Command::Forget => {
            alone(rest)?;
            hand.clear();
            Ok(())
        }
        Command::Season => {
            alone(rest)?;
            hands::season_some(console, store, hand)
        }
        command => called(console, store, hand, command, rest),
    }
}

// The lines one after the other, from the store that holds nothing.
// A line ends where `line_end` says, whose contract is what a line is; the library's `split` would tie it to none.
fn replayed(console: Console, bytes: &[u8])
    requires { length bytes.now ≤ 65536 }
{
    let mut store = Store::open(0, 0).store;
    let mut hand = Hand::new();
    let mut at = 0;
    let mut number = 1;
    while at < bytes.len() {
        let end = script::line_end(bytes, at);
        let line = &bytes[at..end];
        let first = script::field(line, 0);
        let start = first.from;
        let stop = first.to;
        let word = &line[start..stop];
        let rest = &line[stop..];
        if let Err(fault) = obey(console, &mut store, &mut hand, word, rest) {
            tell(console, number, fault);
        }
        at = end + 1;
        number += 1;
    }
}

fn main(rt: HostRuntime) {
    let console = Console::of(&rt);
    let mut input = rt.stdin();
    let mut bytes = [0u8; 65537];
    let got = printing::read_full(&mut input, &mut bytes);
    if 65536 < got {
        console.say(b"too long\n");
        return;
    }
    if !printing::at_end(&mut input) {
        console.complain(b"replay: the input could not be read to its end\n");
        return;
    }
    replayed(console, &bytes[..got]);
}

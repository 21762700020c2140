// The calls that change the store, one each: the call made, its reply printed; and the list in hand.
#![tactic(auto)]

pub mod hands;

use printing::Console;
use replies::Reply;
use store::{Outcome, Store};
use telling::{Fault, MOST};
use theory::FILE;

// open A M
pub fn open(
    console: Console,
    store: &mut Store,
    assumptions: u32,
    claims: u32,
) -> Result<(), Fault> {
    after(console, store, Store::open(assumptions, claims))
}

// load XX ..
pub fn load(console: Console, store: &mut Store, rest: &[u8]) -> Result<(), Fault> {
    let mut room = [0u8; MOST];
    let count = script::bytes(rest, 0, &mut room).ok_or(Fault::Bad)?;
    if FILE < count {
        return Err(Fault::TooLong);
    }
    let loaded = casefile::load(&room[..count]);
    let Reply::Done = loaded.reply else {
        return Err(Fault::Unloaded(loaded.reply, loaded.record));
    };
    *store = loaded.store;
    console.say(b"done\n");
    Ok(())
}

// add C S..
pub fn add(
    console: Console,
    store: &mut Store,
    consequent: u32,
    supports: &[u32],
) -> Result<(), Fault> {
    after(console, store, store.add(consequent, supports))
}

// withdraw C S..
pub fn withdraw(
    console: Console,
    store: &mut Store,
    consequent: u32,
    supports: &[u32],
) -> Result<(), Fault> {
    after(console, store, store.withdraw(consequent, supports))
}

// What a call that changes the store says, and the store after it: where it is refused, the one before.
fn after(console: Console, store: &mut Store, outcome: Outcome) -> Result<(), Fault> {
    match outcome.reply {
        Reply::Done => console.say(b"done\n"),
        Reply::Already => console.say(b"already held\n"),
        refusal => return Err(Fault::Refused(refusal)),
    }
    *store = outcome.store;
    Ok(())
}

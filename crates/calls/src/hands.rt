// The list in hand: items noted one by one, forgotten, or added at once.
ghost use Rattle.calls.specs.Hands.{empty_hand, hand_with, item_of};
ghost use Rattle.std.specs.Prelude.{[], ◌++◌, ◌∷◌, ◌≡◌, ◌<◌, ◌≤◌, Err, IsOk, OnErr, OnOk, length, replicate, take, vec_len};
ghost use Rattle.telling.specs.declared.Fault.TheVariants.{Bad, OutOfMemory};
ghost use Rattle.theory.specs.Limits.{limits};

use handed::Handed;
use printing::Console;
use replies::Reply;
use store::Store;
use telling::Fault;
use theory::{HELD, SUPPORTS};

// The items noted, the first `count` of them. In places of its own, so that noting one needs no memory.
#[derive(Clone, Copy)]
pub struct Hand {
    pub count: usize,
    pub items: [Handed; HELD],
}

// A place that has no item.
const NONE: Handed = Handed {
    consequent: 0,
    count: 0,
    supports: [0; SUPPORTS],
};

impl Hand {
    // A list of no items.
    pub fn new() -> Hand
        ensures { result ≡ empty_hand }
    {
        Hand {
            count: 0,
            items: [NONE; HELD],
        }
    }

    // forget: no items any more
    pub fn clear(&mut self)
        ensures { self.new ≡ empty_hand }
    {
        *self = Hand::new();
    }
}

// An item of these: it shows its first four supports, and zeros where there are fewer.
fn item(consequent: u32, supports: &[u32]) -> Handed
    ensures { result ≡ item_of consequent supports.now }
{
    let shown = supports.len().min(SUPPORTS);
    let mut first = [0; SUPPORTS];
    first[..shown].copy_from_slice(&supports[..shown]);
    Handed {
        consequent,
        count: supports.len(),
        supports: first,
    }
}

// rule C S..: one item more of a list on the heap; a full list has no room.
pub fn rule(hand: &mut Vec<Handed>, consequent: u32, supports: &[u32]) -> Result<(), Fault>
    ensures full { limits.held ≤ vec_len hand.old → result ≡ Err Bad }
    ensures room { vec_len hand.old < limits.held → OnErr result (result ≡ Err OutOfMemory) }
    ensures ok { OnOk result (hand.new.items ≡ hand.old.items ++ record { consequent = consequent; count = length supports.now; supports = take 4 (supports.now ++ replicate 4 0) } ∷ []) }
    ensures err { OnErr result (hand.new.items ≡ hand.old.items) }
{
    if HELD <= hand.len() {
        return Err(Fault::Bad);
    }
    hand.push(item(consequent, supports))?;
    Ok(())
}

// rule C S..: one item more of a list in its places, which needs no memory; a full list has no room.
pub fn note(hand: &mut Hand, consequent: u32, supports: &[u32]) -> Result<(), Fault>
    ensures full { limits.held ≤ hand.old.count → result ≡ Err Bad }
    ensures room { hand.old.count < limits.held → IsOk result }
    ensures ok { OnOk result (hand.new ≡ hand_with hand.old (item_of consequent supports.now)) }
    ensures err { OnErr result (hand.new ≡ hand.old) }
{
    if HELD <= hand.count {
        return Err(Fault::Bad);
    }
    hand.items[hand.count] = item(consequent, supports);
    hand.count += 1;
    Ok(())
}

// season: done, and the reply number of each item
pub fn season(console: Console, store: &mut Store, hand: &[Handed]) -> Result<(), Fault> {
    let mut bytes = [0u8; HELD];
    let outcome = season::add_all(*store, hand, &mut bytes);
    let Reply::Done = outcome.reply else {
        return Err(Fault::Refused(outcome.reply));
    };
    *store = outcome.store;
    console.say(b"done");
    for byte in bytes.iter().take(hand.len()) {
        print!(console; " {byte}");
    }
    console.say(b"\n");
    Ok(())
}

// season, of a list in its places
pub fn season_some(console: Console, store: &mut Store, hand: &Hand) -> Result<(), Fault> {
    let mut bytes = [0u8; HELD];
    let told = bytes.get_mut(..hand.count).ok_or(Fault::Bad)?;
    let outcome = season::add_some(*store, hand.items, hand.count, told);
    let Reply::Done = outcome.reply else {
        return Err(Fault::Refused(outcome.reply));
    };
    *store = outcome.store;
    console.say(b"done");
    for byte in told {
        console.say(b" ");
        console.number((*byte).into());
    }
    console.say(b"\n");
    Ok(())
}

#[cfg(test)]
mod tests {
    use super::*;

    // There is room for 256 items; the next is refused, and the list stays.
    #[test]
    fn items_are_noted_on_the_heap(rt: HostRuntime) {
        let mut hand = Vec::new(rt.alloc());
        for consequent in 0..256 {
            assert!(rt; rule(&mut hand, consequent, &[1, 2, 3, 4, 5]).is_ok());
        }
        assert!(rt; rule(&mut hand, 256, &[]).is_err());
        assert_eq!(rt; hand.len(), 256);
        assert_eq!(rt; hand[255].consequent, 255);
        assert_eq!(rt; hand[255].count, 5);
        assert_eq!(rt; hand[255].supports, [1, 2, 3, 4]);
    }

    // The same of the list in its places.
    #[test]
    fn items_are_noted(rt: HostRuntime) {
        let mut hand = Hand::new();
        for consequent in 0..256 {
            assert!(rt; note(&mut hand, consequent, &[1, 2, 3, 4, 5]).is_ok());
        }
        assert!(rt; note(&mut hand, 256, &[]).is_err());
        assert_eq!(rt; hand.count, 256);
        assert_eq!(rt; hand.items[255].consequent, 255);
        assert_eq!(rt; hand.items[255].count, 5);
        assert_eq!(rt; hand.items[255].supports, [1, 2, 3, 4]);
    }

    // The store has the items of the list. Of 257 none is added, since there is no room for so many replies.
    #[test]
    fn seasons_are_added(rt: HostRuntime) {
        let console = Console::of(&rt);
        let mut store = Store::open(2, 1).store;
        let mut hand = Vec::new(rt.alloc());
        assert!(rt; rule(&mut hand, 3, &[1, 2]).is_ok());
        assert!(rt; rule(&mut hand, 3, &[2]).is_ok());
        assert!(rt; season(console, &mut store, &hand).is_ok());
        assert_eq!(rt; store.held.count, 2);
        assert!(rt;
            matches!(
                season(console, &mut store, &[NONE; 257]),
                Err(Fault::Refused(Reply::Short))
            )
        );
        assert_eq!(rt; store.held.count, 2);
    }
}

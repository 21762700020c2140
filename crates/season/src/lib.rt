// A list of justifications added in one call: the shape and the room for the bytes once, then item after item.
#![tactic(auto)]

ghost use Rattle.std.specs.Prelude.{true, ◌≡◌, take};
ghost use Rattle.store.specs.Shape.{right_shape};
ghost use Rattle.season.specs.Season.{add_all_of, bytes_after, give_of};

use handed::Handed;
use replies::Reply;
use store::{Outcome, Store};
use theory::{HELD, SUPPORTS};

// The store with one item more; or the refusal and the store as it was.
fn give(store: Store, item: Handed) -> Outcome
    requires { right_shape store ≡ true }
    ensures { result ≡ give_of store item }
{
    if SUPPORTS < item.count {
        return Outcome {
            reply: Reply::Supports,
            store,
        };
    }
    let supports = &item.supports[..item.count];
    store.after(changing::more(store.held, item.consequent, supports))
}

// Every item in order, each refused one passed over: the store after them all, and a reply byte for each. Later bytes are kept.
pub fn add_all(store: Store, list: &[Handed], out: &mut [u8]) -> Outcome
    ensures { (result ≡ add_all_of store list.now out.old) × (out.new ≡ bytes_after store list.now out.old) }
{
    if !store.shape() {
        return Outcome {
            reply: Reply::Shape,
            store,
        };
    }
    if out.len() < list.len() {
        return Outcome {
            reply: Reply::Short,
            store,
        };
    }
    let mut after = store;
    for (i, item) in list.iter().enumerate() {
        let told = give(after, *item);
        out[i] = replies::number(told.reply);
        after = told.store;
    }
    Outcome {
        reply: Reply::Done,
        store: after,
    }
}

// The first n of a list by value, and all where n is more: a caller of this one takes no slice of items.
pub fn add_some(store: Store, list: [Handed; HELD], n: usize, out: &mut [u8]) -> Outcome
    ensures { (result ≡ add_all_of store (take n list) out.old) × (out.new ≡ bytes_after store (take n list) out.old) }
{
    add_all(store, &list[..usize::min(n, HELD)], out)
}

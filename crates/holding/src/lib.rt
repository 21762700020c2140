// One justification among those held, which are in their order: whether it is held, put in its place, taken out.
#![tactic(auto)]

mod order;

ghost use Rattle.std.specs.Prelude.{true, ◌≡◌, ◌+◌, ◌-◌, ◌<◌, ◌≤◌};
ghost use Rattle.theory.specs.Limits.{limits};
ghost use Rattle.theory.specs.Lists.{some_of};
ghost use Rattle.rules.specs.Held.{fitting, held_right, meaning, said_by, top};
ghost use Rattle.rules.specs.Items.{same_justification};
ghost use Rattle.holding.specs.Placing.{insert_at, place_of, remove_at, with_entries};
ghost use Rattle.holding.specs.Promised.{Inserted, IsHeld, Removed};

use rules::{Entry, Held};

// That what is held has its right shape is a clause and no type: each caller knows it from a test of a whole store or file,
// and a type round what is held would be made for one call and taken off again to judge it. So with the room for one more.

// Whether the justification is held.
pub fn holds(held: Held, entry: Entry) -> bool
    requires { held_right held ≡ true }
    ensures { IsHeld held entry result }
{
    held.entries[..held.count]
        .iter()
        .any(|other| order::same(&entry, other))
}

// The justification put in its place among those held.
pub fn insert(held: Held, entry: Entry) -> Held
    requires { (held_right held ≡ true) × (held.count < limits.held) × (fitting (top held) entry ≡ true) }
    ensures { Inserted held entry result }
{
    let at = place(held, entry);
    moved(held, at, entry)
}

// What is held without the justification, which is held.
pub fn remove(held: Held, entry: Entry) -> Held
    requires { (held_right held ≡ true) × (some_of (same_justification (meaning entry)) (said_by held) ≡ true) }
    ensures { Removed held entry result }
{
    let at = place(held, entry);
    closed(held, at)
}

// How many held justifications stand before it.
fn place(held: Held, entry: Entry) -> usize
    requires { held_right held ≡ true }
    ensures { result ≡ place_of (meaning entry) (said_by held) }
{
    held.entries[..held.count].partition_point(|other| order::comes(other, &entry))
}

// The justification put in at a place; those from there on move up by one. No rotate: it needs C's memmove, and the library needs memcpy and memset alone.
fn moved(mut held: Held, at: usize, entry: Entry) -> Held
    requires { (at ≤ held.count) × (held.count < limits.held) }
    ensures { result ≡ with_entries held (held.count + 1) (insert_at held.entries at held.count entry) }
{
    let count = held.count;
    for i in (at..count).rev() {
        held.entries[i + 1] = held.entries[i];
    }
    held.entries[at] = entry;
    held.count = count + 1;
    held
}

// The justification at a place taken out; those after it move down by one, and the last place is vacant.
fn closed(mut held: Held, at: usize) -> Held
    requires { (held_right held ≡ true) × (at < held.count) }
    ensures { result ≡ with_entries held (held.count - 1) (remove_at held.entries at) }
{
    let last = held.count - 1;
    for i in at..last {
        held.entries[i] = held.entries[i + 1];
    }
    held.entries[last] = Entry::VACANT;
    held.count = last;
    held
}

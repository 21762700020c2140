// Justifications as a store holds them: one in its place, and all of them in their order. No set width is in it.
#![tactic(auto)]

mod lists;

ghost use Rattle.std.specs.Prelude.{◌&&◌, true, ◌≡◌, ◌+◌, ◌<◌, ◌≤◌, eqb, drop, length, take};
ghost use Rattle.theory.specs.Limits.{limits};
ghost use Rattle.theory.specs.Lists.{all_of};
ghost use Rattle.replies.specs.declared.Reply.TheVariants.{Done};
ghost use Rattle.rules.specs.Held.{fitting, ordered, said_by, top, unused_entry};
ghost use Rattle.rules.specs.Items.{fault_of};
ghost use Rattle.rules.specs.Placing.{Bytes, key_of, partly};
ghost use Rattle.rules.specs.Promised.{Canonical, Faulted, HoldingNothing, IsRight};

use replies::Reply;
use theory::{HELD, SUPPORTS};

// A justification in its place: its supports rising, unused places zero.
#[repr(C)]
#[derive(Clone, Copy)]
pub struct Entry {
    pub consequent: u8,
    pub count: u8,
    pub supports: [u8; SUPPORTS],
}

// The counts of assumptions and claims, and the justifications held, in their order; unused places zero.
// An array with a count beside it, and no Vec: a store is a value of fixed size, which C copies.
#[repr(C)]
#[derive(Clone, Copy)]
pub struct Held {
    pub assumptions: u8,
    pub claims: u8,
    pub count: usize,
    pub entries: [Entry; HELD],
}

// The first fault of a justification as it is handed over, top being the highest number.
pub fn fault(top: u8, consequent: u32, supports: &[u32]) -> Result<(), Reply>
    ensures { Faulted top consequent supports.now result }
{
    if SUPPORTS < supports.len() {
        return Err(Reply::Supports);
    }
    let highest = top as u32;
    if highest < consequent {
        return Err(Reply::Number);
    }
    if slices::over(supports, highest) {
        return Err(Reply::Number);
    }
    if slices::has(supports, 0) {
        return Err(Reply::Falsity);
    }
    if slices::has(supports, consequent) {
        return Err(Reply::Itself);
    }
    Ok(())
}

// A justification without fault in its place, its supports as a set. That a number is no higher than the highest is a clause, here and above: a type
// round a byte would be made and taken off again at each call.
pub fn canonical(top: u8, consequent: u32, supports: &[u32]) -> Entry
    requires { (top ≤ limits.numbers) × (fault_of top consequent supports.now ≡ Done) }
    ensures { Canonical top consequent supports.now result }
{
    let mut entry = Entry {
        consequent: consequent as u8,
        ..Entry::VACANT
    };
    for n in 0..=top {
        if slices::has(supports, n as u32) {
            entry.supports[entry.count as usize] = n;
            entry.count += 1;
        }
    }
    entry
}

impl Entry {
    // A place that holds no justification.
    pub const VACANT: Entry = Entry {
        consequent: 0,
        count: 0,
        supports: [0; SUPPORTS],
    };

    // Whether it is in range, its supports rising, its consequent none of them, and its unused places zero.
    fn fits(self, top: u16) -> bool
        ensures { result ≡ fitting top self }
    {
        let count = self.count as usize;
        if top < self.consequent as u16 || SUPPORTS < count {
            return false;
        }
        lists::rises(&self.supports[..count], top, self.consequent)
            && lists::ends(self.supports, count)
    }

    // A number that is zero where every field is.
    fn bits(self) -> u64
        ensures { eqb 0 result ≡ unused_entry self }
    {
        let [a, b, c, d] = self.supports;
        u64::from_le_bytes([self.consequent, self.count, a, b, c, d, 0, 0])
    }

    // The six bytes as one number, the consequent first: of two in range the one with the lesser number stands before the other.
    fn key(self) -> u64
        ensures { (result ≡ key_of self) × Bytes self }
    {
        let [a, b, c, d] = self.supports;
        u64::from_be_bytes([0, 0, self.consequent, self.count, a, b, c, d])
    }
}

impl Held {
    // Nothing held, with these counts.
    pub fn nothing(assumptions: u8, claims: u8) -> Held
        ensures { HoldingNothing assumptions claims result }
    {
        Held {
            assumptions,
            claims,
            count: 0,
            entries: [Entry::VACANT; HELD],
        }
    }

    // Whether what is held has the right shape.
    pub fn right(self) -> bool
        ensures { IsRight self result }
    {
        if HELD < self.count {
            return false;
        }
        let top = self.assumptions as u16 + self.claims as u16;
        self.inplace(top) && self.spare()
    }

    // Whether the places in use are in range, and each stands before the next.
    fn inplace(self, top: u16) -> bool
        requires { self.count ≤ limits.held }
        ensures { result ≡ all_of (fitting top) (take self.count self.entries) && ordered (said_by self) }
    {
        let mut least = 0;
        for entry in &self.entries[..self.count] {
            let key = entry.key();
            if !entry.fits(top) || key < least {
                return false;
            }
            least = key + 1;
        }
        true
    }

    // Whether the other places are zero: one pass without an exit.
    fn spare(self) -> bool
        requires { self.count ≤ limits.held }
        ensures { result ≡ all_of unused_entry (drop self.count self.entries) }
    {
        let mut seen = 0;
        for entry in &self.entries[self.count..] {
            seen |= entry.bits();
        }
        seen == 0
    }
}

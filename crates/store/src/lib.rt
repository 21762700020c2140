// The store by value: its shape, opening, judging what is held, adding, withdrawing.
#![tactic(auto)]

ghost use Rattle.std.specs.Prelude.{◌≡◌, ◌≤◌};
ghost use Rattle.theory.specs.Limits.{limits};
ghost use Rattle.store.specs.Shape.{RightShape, held_fits};
ghost use Rattle.replies.specs.Replies.{checked};
ghost use Rattle.store.specs.Reading.{refusal_of};
ghost use Rattle.store.specs.Calls.{Added, JudgedAnew, Opened, Withdrawn, after_of, start_store};

use replies::Reply;
use rules::Held;
use sets::Set;
use stages::Lists;
use theory::{ASSUMPTIONS, CLAIMS};

// What is held, and the labels and nogoods at its depth.
#[repr(C)]
#[derive(Clone, Copy)]
pub struct Store {
    pub held: Held,
    pub lists: Lists,
}

// A reply, and the store that goes with it; no Result, since a refusal hands back a store too (theorem Refusals).
#[derive(Clone, Copy)]
pub struct Outcome {
    pub reply: Reply,
    pub store: Store,
}

// The store that holds nothing.
fn start(a: u8, m: u8) -> Store
    requires { (a ≤ limits.assumptions) × (m ≤ limits.claims) }
    ensures { result ≡ start_store a m }
{
    Store {
        held: Held::nothing(a, m),
        lists: stages::start(a),
    }
}

// Whether what is held fits: the counts within the limits, and the justifications in their shape.
fn held_fits(held: Held) -> bool
    ensures { result ≡ held_fits held }
{
    if ASSUMPTIONS < held.assumptions as u32 || CLAIMS < held.claims as u32 {
        return false;
    }
    held.right()
}

// The store of the justifications held, judged anew from stage 0; or the refusal. No Result of a store within it, nor in `after`: with a copy of a store more, adding and loading take more than their bound of the stack.
pub fn judged(held: Held) -> Outcome
    ensures { JudgedAnew held result }
{
    if !held_fits(held) {
        return Outcome {
            reply: Reply::Shape,
            store: start(0, 0),
        };
    }
    match stages::judge(held) {
        Ok(lists) => Outcome {
            reply: Reply::Done,
            store: Store { held, lists },
        },
        Err(reply) => Outcome {
            reply,
            store: start(0, 0),
        },
    }
}

impl Store {
    // Whether the store has the right shape.
    pub fn shape(self) -> bool
        ensures { RightShape self result }
    {
        let held = self.held;
        if !held_fits(held) {
            return false;
        }
        let lists = self.lists;
        let a = held.assumptions;
        shape::right(lists, a, a + held.claims)
    }

    // Whether a call that reads n and e may go on: not with another shape, then not with n above the highest number or an assumption in e above the last.
    pub fn refusal(self, n: u32, e: Set) -> Result<(), Reply>
        ensures { result ≡ checked (refusal_of self n e) }
    {
        if !self.shape() {
            return Err(Reply::Shape);
        }
        let held = self.held;
        let a = held.assumptions;
        let top = (a + held.claims) as u32;
        if top < n {
            return Err(Reply::Number);
        }
        if !sets::low(e, a) {
            return Err(Reply::Number);
        }
        Ok(())
    }

    // A store that holds nothing, of so many assumptions and claims.
    pub fn open(assumptions: u32, claims: u32) -> Outcome
        ensures { Opened assumptions claims result }
    {
        if ASSUMPTIONS < assumptions || CLAIMS < claims {
            return Outcome {
                reply: Reply::Counts,
                store: start(0, 0),
            };
        }
        Outcome {
            reply: Reply::Done,
            store: start(assumptions as u8, claims as u8),
        }
    }

    // The store of what is held after a change, judged anew; or the refusal and the store as it was.
    pub fn after(self, changed: Result<Held, Reply>) -> Outcome
        ensures { result ≡ after_of self changed }
    {
        match changed {
            Ok(held) => {
                let out = judged(held);
                let reply = out.reply;
                if replies::number(reply) != 0 {
                    return Outcome { reply, store: self };
                }
                out
            }
            Err(reply) => Outcome { reply, store: self },
        }
    }

    // The store with one justification more; or the refusal and the store as it was.
    pub fn add(self, consequent: u32, supports: &[u32]) -> Outcome
        ensures { Added self consequent supports.now result }
    {
        if !self.shape() {
            return Outcome {
                reply: Reply::Shape,
                store: self,
            };
        }
        let changed = changing::more(self.held, consequent, supports);
        self.after(changed)
    }

    // The store without one justification that it holds; or the refusal and the store as it was.
    pub fn withdraw(self, consequent: u32, supports: &[u32]) -> Outcome
        ensures { Withdrawn self consequent supports.now result }
    {
        if !self.shape() {
            return Outcome {
                reply: Reply::Shape,
                store: self,
            };
        }
        let changed = changing::less(self.held, consequent, supports);
        self.after(changed)
    }
}

// Questions to a store, answered from its lists as they stand.
#![tactic(auto)]

ghost use Rattle.std.specs.Prelude.{◌&&◌, ◌++◌, ◌≡◌, ◌+◌, ◌≤◌, length, drop};
ghost use Rattle.following.specs.Marks.{all_marks};
ghost use Rattle.replies.specs.Replies.{checked};
ghost use Rattle.store.specs.Reading.{contradicted_in, label_held, list_held, nogoods_held, unlabelled};
ghost use Rattle.theory.specs.Limits.{limits};
ghost use Rattle.theory.specs.Places.{table};
ghost use Rattle.asking.specs.Asking.{Room, standing, byte_of, member_at, question_of, member_of, context_bytes, context_reply, Questioned, Contexted, Membered};

use replies::Reply;
use sets::Set;
use stages::Lists;
use store::{Outcome, Store};
use theory::LABEL;

// What a set is to a number: inconsistent because of a nogood, supported because of a member, or neither.
#[derive(Clone, Copy)]
pub enum Answer {
    Inconsistent(Set),
    Supported(Set),
    Unsupported,
}

// What a question answers, and the store that came in: a refusal hands it back too (theorem `Refusals`). A struct of its own, as a member and a line
// have: one over the type of the answer would put a Result within it into every signature.
#[derive(Clone, Copy)]
pub struct Asked {
    pub answer: Result<Answer, Reply>,
    pub store: Store,
}

// A member, or why there is none, and the store that came in, as above.
#[derive(Clone, Copy)]
pub struct Shown {
    pub answer: Result<Set, Reply>,
    pub store: Store,
}

// What a call reads: lists that stand in their places, and a number.
#[derive(Clone, Copy)]
struct Reading<'a> {
    lists: &'a Lists,
    n: usize,
    ghost room: { Room lists.now },
    ghost low: { n ≤ limits.numbers },
}

impl Reading<'_> {
    // The nogoods.
    fn nogoods(&self) -> &[Set]
        ensures { result.now ≡ nogoods_held self.now.lists.now }
    {
        let nogoods = &self.lists.nogoods[..];
        &nogoods[..self.lists.count]
    }

    // The label of the number; falsity has none.
    fn label(&self) -> &[Set]
        ensures { result.now ≡ label_held self.now.lists.now self.now.n }
    {
        if self.n == 0 {
            return &[];
        }
        let i = self.n - 1;
        let from = LABEL * i;
        let to = from + self.lists.sizes[i] as usize;
        let members = &self.lists.members[..];
        &members[from..to]
    }

    // What the lists say of e, and why.
    fn stands(&self, e: Set) -> Answer
        ensures { result ≡ standing self.now.lists.now self.now.n e }
    {
        let nogoods = self.nogoods();
        if let Some(place) = members::first_within(nogoods, e) {
            return Answer::Inconsistent(nogoods[place]);
        }
        let label = self.label();
        match members::first_within(label, e) {
            Some(place) => Answer::Supported(label[place]),
            None => Answer::Unsupported,
        }
    }

    // The byte for e; follows tells whether the number follows from all assumptions together. No From: the answer alone does not tell the byte.
    fn byte(&self, e: Set, follows: bool) -> u8
        ensures { result ≡ byte_of (unlabelled self.now.lists.now self.now.n && follows) (standing self.now.lists.now self.now.n e) }
    {
        match self.stands(e) {
            Answer::Inconsistent(_) => 2,
            Answer::Supported(_) => 1,
            Answer::Unsupported => {
                if follows && self.n != 0 && self.label().is_empty() {
                    3
                } else {
                    0
                }
            }
        }
    }

    // The nogoods for falsity, else the label.
    fn list(&self) -> &[Set]
        ensures { result.now ≡ list_held self.now.lists.now self.now.n }
    {
        if self.n == 0 {
            return self.nogoods();
        }
        self.label()
    }

    // The set of the list at a place.
    #[tactic(auto, unfolding(crate::specs::Asking::member_at))]
    fn at(&self, place: usize) -> Result<Set, Reply>
        ensures { result ≡ member_at self.now.lists.now self.now.n place }
    {
        self.list().get(place).copied().ok_or(Reply::Place)
    }
}

// What e is to n, and why.
#[tactic(auto, using(crate::proofs::Laws::of_question))]
fn told(store: &Store, n: u32, e: Set) -> Result<Answer, Reply>
    ensures { result ≡ question_of store.now n e }
{
    store.refusal(n, e)?;
    let reading = Reading {
        lists: &store.lists,
        n: n as usize,
    };
    Ok(reading.stands(e))
}

// Whether e is inconsistent, supports n, or neither, and the first set within e that makes it so.
pub fn question(store: Store, n: u32, e: Set) -> Asked
    ensures { Questioned store n e result }
{
    let answer = told(&store, n, e);
    Asked { answer, store }
}

// The bytes of the first numbers, as many as are lent, by the marks of what follows from all assumptions together.
fn fill(store: &Store, marks: &[u8], e: Set, out: &mut [u8])
    requires { Room store.now.lists × (marks.now ≡ all_marks store.now.held) × (length out.old ≤ limits.numbers + 1) }
    ensures { out.new ≡ table (length out.old) (λ n. byte_of (contradicted_in store.now n) (standing store.now.lists n e)) }
{
    for (n, byte) in out.iter_mut().enumerate() {
        let reading = Reading {
            lists: &store.lists,
            n,
        };
        *byte = reading.byte(e, marks[n] == 0);
    }
}

// The bytes of all numbers, where there is room for them.
#[tactic(auto, using(crate::proofs::Laws::of_context), unfolding(crate::specs::Asking::context_bytes, crate::specs::Asking::context_of))]
fn write(store: &Store, e: Set, out: &mut [u8]) -> Result<(), Reply>
    ensures reply { result ≡ checked (context_reply store.now e (length out.old)) }
    ensures bytes { out.new ≡ context_bytes store.now e out.old }
{
    store.refusal(0, e)?;
    let held = store.held;
    let end = (held.assumptions + held.claims) as usize + 1;
    if out.len() < end {
        return Err(Reply::Short);
    }
    let marks = following::from_all(held);
    fill(store, &marks, e, &mut out[..end]);
    Ok(())
}

// What e is to every number, a byte each.
#[tactic(auto, using(crate::proofs::Laws::of_reply))]
pub fn context(store: Store, e: Set, out: &mut [u8]) -> Outcome
    ensures { Contexted store e out.old result out.new }
{
    let reply = match write(&store, e, out) {
        Ok(()) => Reply::Done,
        Err(reply) => reply,
    };
    Outcome { reply, store }
}

// The set at a place of n's label, or of the nogoods.
#[tactic(auto, using(crate::proofs::Laws::of_member))]
fn found(store: &Store, n: u32, place: usize) -> Result<Set, Reply>
    ensures { result ≡ member_of store.now n place }
{
    store.refusal(n, 0)?;
    let reading = Reading {
        lists: &store.lists,
        n: n as usize,
    };
    reading.at(place)
}

// The member of n's label, or of the nogoods, at a place.
pub fn member(store: Store, n: u32, place: usize) -> Shown
    ensures { Membered store n place result }
{
    let answer = found(&store, n, place);
    Shown { answer, store }
}

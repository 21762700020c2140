// The plain path: question and context without labels, from what follows from the set, stage by stage.
#![tactic(auto)]

ghost use Rattle.std.specs.Prelude.{◌≡◌, length};
ghost use Rattle.following.specs.Marks.{sown};
ghost use Rattle.replies.specs.Replies.{checked};
ghost use Rattle.plain.specs.Plainly.{Contexted, Questioned, byte_of, fill_bytes, fill_reply, followed_of, plain_after, plain_of, read_from, word_in};
ghost use Rattle.theory.specs.Places.{table};
ghost use Rattle.asking.specs.Asking.{context_reply};

use replies::Reply;
use sets::{Set, WIDTH};
use store::{Outcome, Store};
use theory::MARKS;

// What a set is to a number.
#[derive(Clone, Copy)]
pub enum Plain {
    Inconsistent,
    Supported,
    Unsupported,
}

// The byte of a context.
impl From<Plain> for u8 {
    ghost from_gives = { λ word byte. byte ≡ byte_of word };

    fn from(word: Plain) -> u8 {
        match word {
            Plain::Inconsistent => 2,
            Plain::Supported => 1,
            Plain::Unsupported => 0,
        }
    }
}

// What a question answers, and the store that came in, as in `asking`: a refusal hands it back too (theorem `Refusals`).
#[derive(Clone, Copy)]
pub struct Told {
    pub answer: Result<Plain, Reply>,
    pub store: Store,
}

// The marks of stage 0: those of the assumptions in e.
pub fn sown(e: Set) -> [u8; MARKS]
    ensures { result ≡ sown e }
{
    let mut marks = [255u8; MARKS];
    for k in 1..=WIDTH {
        if sets::has(e, k) {
            marks[k as usize] = 0;
        }
    }
    marks
}

// For each number the first stage at which it follows from e, 255 where it never does; or why a call that reads n and e is refused.
// Never is no None: since_of and marks_of, of which theorems speak, have 255 for it.
#[tactic(auto, using(crate::proofs::Laws::of_follow))]
pub fn follow(store: Store, n: u32, e: Set) -> Result<[u8; MARKS], Reply>
    ensures { result ≡ followed_of store n e }
{
    store.refusal(n, e)?;
    Ok(following::stages(store.held, sown(e)))
}

// What the marks say of n; no number above 128 has one.
#[tactic(auto, unfolding(crate::specs::Plainly::read_from))]
fn read(marks: [u8; MARKS], n: usize) -> Plain
    ensures { result ≡ read_from marks n }
{
    if marks[0] < 255 {
        return Plain::Inconsistent;
    }
    match marks.get(n) {
        Some(mark) if *mark < 255 => Plain::Supported,
        _ => Plain::Unsupported,
    }
}

// The word for n; 4 where n is above the highest number.
pub fn word(marks: [u8; MARKS], top: u8, n: u32) -> Result<Plain, Reply>
    ensures { result ≡ word_in marks top n }
{
    let highest = top as u32;
    if highest < n {
        return Err(Reply::Number);
    }
    Ok(read(marks, n as usize))
}

// What e is to n, or why that is not told.
#[tactic(auto, using(crate::proofs::Laws::question_says))]
fn said(store: Store, n: u32, e: Set) -> Result<Plain, Reply>
    ensures { result ≡ plain_of store n e }
{
    let marks = follow(store, n, e)?;
    Ok(read(marks, n as usize))
}

// Whether e is inconsistent, supports n, or neither.
pub fn question(store: Store, n: u32, e: Set) -> Told
    ensures { Questioned store n e result }
{
    let answer = said(store, n, e);
    Told { answer, store }
}

// The bytes of the first numbers, as many as are lent.
fn bytes(marks: [u8; MARKS], out: &mut [u8])
    ensures { out.new ≡ table (length out.old) (λ n. byte_of (read_from marks n)) }
{
    for (n, byte) in out.iter_mut().enumerate() {
        *byte = u8::from(read(marks, n));
    }
}

// The bytes of the numbers up to top; 15 where there are too few.
#[tactic(auto, using(crate::proofs::Laws::of_fill))]
pub fn fill(marks: [u8; MARKS], top: u8, out: &mut [u8]) -> Result<(), Reply>
    ensures reply { result ≡ checked (fill_reply top (length out.old)) }
    ensures bytes { out.new ≡ fill_bytes marks top out.old }
{
    let end = top as usize + 1;
    if out.len() < end {
        return Err(Reply::Short);
    }
    bytes(marks, &mut out[..end]);
    Ok(())
}

// The bytes of all numbers, where there is room for them.
#[tactic(auto, using(crate::proofs::Laws::of_context))]
fn write(store: Store, e: Set, out: &mut [u8]) -> Result<(), Reply>
    ensures reply { result ≡ checked (context_reply store e (length out.old)) }
    ensures bytes { out.new ≡ plain_after store e out.old }
{
    let marks = follow(store, 0, e)?;
    fill(marks, store.held.assumptions + store.held.claims, out)
}

// What e is to every number, a byte each.
#[tactic(auto, using(asking::proofs::Laws::of_reply))]
pub fn context(store: Store, e: Set, out: &mut [u8]) -> Outcome
    ensures { Contexted store e out.old result out.new }
{
    let reply = match write(store, e, out) {
        Ok(()) => Reply::Done,
        Err(reply) => reply,
    };
    Outcome { reply, store }
}

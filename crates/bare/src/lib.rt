// The plain path from a bare list of justifications: the items judged in order, then followed stage by stage.
#![tactic(auto)]

ghost use Rattle.std.specs.Prelude.{◌≡◌, ◌+◌, ◌<◌, ◌≤◌, take};
ghost use Rattle.theory.specs.Limits.{limits, over_counts};
ghost use Rattle.theory.specs.Places.{table};
ghost use Rattle.following.specs.First.{since_of};
ghost use Rattle.following.specs.Marks.{mark_by, pass_over};
ghost use Rattle.replies.specs.Replies.{checked};
ghost use Rattle.replies.specs.declared.Reply.TheVariants.{Done};
ghost use Rattle.bare.specs.Bare.{Answers, answered, barely, fault_of_item, faults_of, just_of, told_in};

use handed::Handed;
use plain::Plain;
use replies::Reply;
use sets::Set;
use theory::{ASSUMPTIONS, CLAIMS, HELD, MARKS, SUPPORTS};

// What is asked of a list: of a number, of every number, or every stage.
#[derive(Clone, Copy)]
pub enum What {
    Number(u32),
    Context,
    Stages,
}

// How many assumptions and claims there are, what is asked, and of which set.
#[derive(Clone, Copy)]
pub struct Query {
    pub assumptions: u32,
    pub claims: u32,
    pub what: What,
    pub set: Set,
}

// The answer: a word, bytes that were filled in, or the length of the lines.
#[derive(Clone, Copy)]
pub enum Told {
    Word(Plain),
    Filled,
    Lines(usize),
}

// Whether one of the counts is over its limit.
fn over(query: Query) -> bool
    ensures { result ≡ over_counts query.assumptions query.claims }
{
    ASSUMPTIONS < query.assumptions || CLAIMS < query.claims
}

// The first fault of an item.
fn fault(top: u8, item: Handed) -> Result<(), Reply>
    ensures { result ≡ checked (fault_of_item top item) }
{
    if SUPPORTS < item.count {
        return Err(Reply::Supports);
    }
    let supports = item.supports;
    let n = item.count;
    rules::fault(top, item.consequent, &supports[..n])
}

// The first fault of the list: that of the first item which has one.
fn judge(top: u8, list: &[Handed]) -> Result<(), Reply>
    ensures { result ≡ checked (faults_of top list.now) }
{
    for item in list {
        fault(top, *item)?;
    }
    Ok(())
}

// The mark of the item's consequent after it, at stage k.
fn mark(top: u8, item: Handed, marks: &[u8; MARKS], k: u8) -> u8
    requires { (top ≤ limits.numbers) × (k < limits.numbers + 1) × (fault_of_item top item ≡ Done) }
    ensures { result ≡ mark_by k (k + 1) marks.now (just_of top item) }
{
    let supports = item.supports;
    let n = item.count;
    let entry = rules::canonical(top, item.consequent, &supports[..n]);
    following::mark(&entry, marks, k, k + 1)
}

// The marks after stage k: each item once, one after the other.
fn pass(top: u8, list: &[Handed], start: [u8; MARKS], k: u8) -> [u8; MARKS]
    requires { (top ≤ limits.numbers) × (k < limits.numbers + 1) × (faults_of top list.now ≡ Done) }
    ensures { result ≡ pass_over k (k + 1) start (barely top list.now) }
{
    let mut marks = start;
    for item in list {
        let n = item.consequent as usize;
        marks[n] = mark(top, *item, &marks, k);
    }
    marks
}

// For each number the first stage at which it follows from e: stage by stage until one marks nothing new.
fn follow(top: u8, list: &[Handed], e: Set) -> [u8; MARKS]
    requires { (top ≤ limits.numbers) × (faults_of top list.now ≡ Done) }
    ensures { result ≡ table (limits.numbers + 1) (since_of (barely top list.now) e) }
{
    let mut marks = plain::sown(e);
    for k in 0..MARKS as u8 {
        let next = pass(top, list, marks, k);
        if next == marks {
            return marks;
        }
        marks = next;
    }
    marks
}

// What the marks say to what is asked: a match and no closure, since C hands over as a value what is asked.
fn tell(marks: [u8; MARKS], top: u8, what: What, out: &mut [u8]) -> Result<Told, Reply>
    ensures { answered result out.new ≡ told_in marks top what out.old }
{
    match what {
        What::Number(n) => {
            let word = plain::word(marks, top, n)?;
            Ok(Told::Word(word))
        }
        What::Context => {
            plain::fill(marks, top, out)?;
            Ok(Told::Filled)
        }
        What::Stages => {
            let length = stagetext::put(marks, top, out)?;
            Ok(Told::Lines(length))
        }
    }
}

// What is asked of a bare list, any number of items: the items judged in order, then followed stage by stage.
pub fn ask(query: Query, list: &[Handed], out: &mut [u8]) -> Result<Told, Reply>
    ensures { Answers query list.now out.old result out.new }
{
    if over(query) {
        return Err(Reply::Counts);
    }
    let assumptions = query.assumptions as u8;
    let top = assumptions + query.claims as u8;
    judge(top, list)?;
    if !sets::low(query.set, assumptions) {
        return Err(Reply::Number);
    }
    let marks = follow(top, list, query.set);
    tell(marks, top, query.what, out)
}

// What is asked of the first n of a list by value, and of all where n is more: a caller of this one takes no slice of items.
pub fn ask_some(query: Query, list: [Handed; HELD], n: usize, out: &mut [u8]) -> Result<Told, Reply>
    ensures { Answers query (take n list) out.old result out.new }
{
    ask(query, &list[..usize::min(n, HELD)], out)
}

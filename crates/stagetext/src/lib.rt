// The lines of the stages into lent bytes: the stage, then every number that followed by then. The length is known before a byte is written.
#![tactic(auto)]

ghost use Rattle.std.specs.Prelude.{◌≡◌, ◌+◌, ◌≤◌, [], length};
ghost use Rattle.theory.specs.Limits.{limits};
ghost use Rattle.lent.specs.Lent.{Leaves};
ghost use Rattle.text.specs.Texts.{digits};
ghost use Rattle.text.specs.Writer.{Room, added};
ghost use Rattle.stagetext.specs.Stagetext.{StagesLined, body_of, latest, put_of, row_of, rows_of, stages_of};

use lent::Listed;
use replies::Reply;
use sets::Set;
use store::Store;
use text::Writer;
use theory::{MARKS, NUMBERS};

// No line of a stage is longer.
const WIDEST: usize = 3 + 406 + 1;

// No text of stages is longer.
pub const LONGEST: usize = (MARKS + 1) * WIDEST;

// The number of decimal digits of n.
#[tactic(auto, using(crate::proofs::Laws::widths))]
fn wide(n: u8) -> usize
    ensures { result ≡ length (digits n) }
{
    match n {
        0..=9 => 1,
        10..=99 => 2,
        _ => 3,
    }
}

// How long the lines of the first stages are without their numbers: the stage and the newline.
#[tactic(auto, using(crate::proofs::Laws::sums, crate::proofs::Longest::rows_most))]
fn empty_width(count: u8) -> usize
    ensures { result ≡ length (rows_of 0 [] count) }
{
    let mut sum = 0;
    for k in 0..count {
        sum += wide(k) + 1;
    }
    sum
}

// The greatest mark below 255, or 0.
fn last(marks: &[u8]) -> u8
    ensures { result ≡ latest 0 marks.now }
{
    marks
        .iter()
        .copied()
        .filter(|mark| *mark < 255)
        .max()
        .unwrap_or(0)
}

// The marks of the numbers up to the highest.
#[derive(Clone, Copy)]
struct Marked<'a> {
    marks: &'a [u8],
    ghost few: { length marks.now ≤ limits.numbers + 1 },
}

impl<'a> Marked<'a> {
    // The numbers whose marks are k at most, each after one space.
    #[tactic(auto, using(text::proofs::Added::writes, crate::proofs::Laws::parts))]
    fn body(&self, k: u8, out: &mut Writer)
        requires { Room (body_of (length self.now.marks.now) self.now.marks.now k) out.old }
        ensures { out.new ≡ added (body_of (length self.now.marks.now) self.now.marks.now k) out.old }
    {
        for (n, mark) in self.marks.iter().enumerate() {
            if *mark <= k {
                out.field(n as u32);
            }
        }
    }

    // The line of stage k.
    #[tactic(auto, using(text::proofs::Added::writes, crate::proofs::Laws::row_parts))]
    fn row(&self, k: u8, out: &mut Writer)
        requires { Room (row_of (length self.now.marks.now) self.now.marks.now k) out.old }
        ensures { out.new ≡ added (row_of (length self.now.marks.now) self.now.marks.now k) out.old }
    {
        out.number(k as u32);
        self.body(k, out);
        out.byte(b'\n');
    }

    // The lines of the first stages.
    #[tactic(auto, using(text::proofs::Added::writes, crate::proofs::Laws::rows))]
    fn rows(&self, count: u8, out: &mut Writer)
        requires { Room (rows_of (length self.now.marks.now) self.now.marks.now count) out.old }
        ensures { out.new ≡ added (rows_of (length self.now.marks.now) self.now.marks.now count) out.old }
    {
        for k in 0..count {
            self.row(k, out);
        }
    }

    // How long the lines of the first stages are. A number is counted once for all the lines that it stands in, those from its mark on.
    #[tactic(auto, using(crate::proofs::Laws::columns, crate::proofs::Longest::rows_most))]
    fn measured(&self, count: u8) -> usize
        ensures { result ≡ length (rows_of (length self.now.marks.now) self.now.marks.now count) }
    {
        let mut sum = empty_width(count);
        for (n, mark) in self.marks.iter().enumerate() {
            if *mark < count {
                sum += (1 + wide(n as u8)) * (count - *mark) as usize;
            }
        }
        sum
    }
}

// The lines of all stages up to the last with something new, where there is room for them; 4 where top is no number's.
// The length is known before a byte is written.
#[tactic(auto, using(crate::proofs::Laws::put_above, crate::proofs::Laws::latest_low, crate::proofs::Laws::put_short, crate::proofs::Laws::rows_first))]
pub fn put(marks: [u8; MARKS], top: u8, out: &mut [u8]) -> Result<usize, Reply>
    ensures { Leaves (put_of marks top out.old) result out.new }
{
    if NUMBERS < top as usize {
        return Err(Reply::Number);
    }
    let end = top as usize + 1;
    let marked = Marked {
        marks: &marks[..end],
    };
    let count = last(&marks) + 1;
    if out.len() < marked.measured(count) {
        return Err(Reply::Short);
    }
    let mut writer = Writer::new(out);
    marked.rows(count, &mut writer);
    Ok(writer.written)
}

// The lines of the stages from e, where e can be read.
fn followed(store: Store, e: Set, out: &mut [u8]) -> Result<usize, Reply>
    ensures { Leaves (stages_of store e out.old) result out.new }
{
    let marks = plain::follow(store, 0, e)?;
    let held = store.held;
    put(marks, held.assumptions + held.claims, out)
}

// One line a stage from 0 up to the last with something new: the stage, then every number that followed from e by then.
#[tactic(auto, using(lent::proofs::Fits::hands))]
pub fn lines(store: Store, e: Set, out: &mut [u8]) -> Listed
    ensures { StagesLined store e out.old result out.new }
{
    let answer = followed(store, e, out);
    Listed { answer, store }
}

// The lines of the listing, into lent bytes.
#![tactic(auto)]

ghost use Rattle.std.specs.Prelude.{true, ◌≡◌, ◌≤◌};
ghost use Rattle.theory.specs.Limits.{limits};
ghost use Rattle.store.specs.Reading.{contradicted_in};
ghost use Rattle.store.specs.Shape.{right_shape};
ghost use Rattle.lent.specs.Lent.{Leaves};
ghost use Rattle.lines.specs.Lines.{CaseLined, Lined, RefusalLined, heading_of, line_of};

use lent::Listed;
use replies::Reply;
use store::Store;
use text::Writer;
use theory::{LABEL, NOGOODS};

// No line of a store of right shape is longer, and no line of a refusal.
pub const LONGEST: usize = 8 + NOGOODS * 89 + 1;

// Whether the line of n says `contradicted`; the justifications are followed only where the label is empty.
fn contradicted(store: &Store, n: u32) -> bool
    requires { (right_shape store.now ≡ true) × (n ≤ limits.numbers) }
    ensures { result ≡ contradicted_in store.now n }
{
    if n == 0 {
        return false;
    }
    if 0 < store.lists.sizes[(n - 1) as usize] {
        return false;
    }
    following::from_all(store.held)[n as usize] == 0
}

// The text line of n, or why it cannot be read.
fn read(store: Store, n: u32, out: &mut [u8]) -> Result<usize, Reply>
    ensures { Leaves (line_of store n out.old) result out.new }
{
    store.refusal(n, 0)?;
    let mut text = [0u8; LONGEST];
    let mut writer = Writer::new(&mut text);
    wording::lined(&store, n, contradicted(&store, n), &mut writer);
    lent::fit(writer.text(), out)
}

// The line of n as the listing has it, its newline included.
#[tactic(auto, using(lent::proofs::Fits::hands))]
pub fn line(store: Store, n: u32, out: &mut [u8]) -> Listed
    ensures { Lined store n out.old result out.new }
{
    let answer = read(store, n, out);
    Listed { answer, store }
}

// The first line, where the shape is right.
#[tactic(auto, using(text::proofs::Added::texts, crate::proofs::Longest::case_length), unfolding(crate::specs::Lines::case_text, crate::specs::Lines::heading_of))]
fn first(store: &Store, out: &mut [u8]) -> Result<usize, Reply>
    ensures { Leaves (heading_of store.now out.old) result out.new }
{
    if !store.shape() {
        return Err(Reply::Shape);
    }
    let mut text = [0u8; 19];
    let mut writer = Writer::new(&mut text);
    wording::head(store, &mut writer);
    lent::fit(writer.text(), out)
}

// The first line of the listing.
#[tactic(auto, using(lent::proofs::Fits::hands))]
pub fn case_line(store: Store, out: &mut [u8]) -> Listed
    ensures { CaseLined store out.old result out.new }
{
    let answer = first(&store, out);
    Listed { answer, store }
}

// The line of a refusal and of the record being read.
#[tactic(auto, using(text::proofs::Added::texts, text::proofs::Lengths::refusal_length, replies::proofs::Laws::two_digits), unfolding(crate::specs::Lines::refusal_text))]
pub fn refusal(reply: Reply, record: u32, out: &mut [u8]) -> Result<usize, Reply>
    ensures { RefusalLined reply «record» out.old result out.new }
{
    let number = replies::number(reply) as u32;
    let mut text = [0u8; 22];
    let mut writer = Writer::new(&mut text);
    writer.refused(number, record);
    lent::fit(writer.text(), out)
}

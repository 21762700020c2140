// The text of one line of a store's listing: the number, its word, the members of its list.
#![tactic(auto)]

ghost use Rattle.std.specs.Prelude.{true, ◌≡◌, ◌≤◌};
ghost use Rattle.theory.specs.Limits.{limits};
ghost use Rattle.store.specs.Reading.{list_held};
ghost use Rattle.store.specs.Shape.{right_shape};
ghost use Rattle.text.specs.Texts.{heading};
ghost use Rattle.text.specs.Writer.{Room, added};
ghost use Rattle.wording.specs.Wording.{line_with, word_of};

use sets::Set;
use store::Store;
use text::Writer;
use theory::LABEL;

// The nogoods where n is 0, else the label of n. That the shape is right is a clause and no type, here and in lines and listing: each call looks at it
// once and then writes, and a type round a store would be made for that one call.
fn list_of(store: &Store, n: u32) -> &[Set]
    requires { (right_shape store.now ≡ true) × (n ≤ limits.numbers) }
    ensures { result.now ≡ list_held store.now.lists n }
{
    let lists = &store.lists;
    if n == 0 {
        let nogoods: &[Set] = &lists.nogoods;
        return &nogoods[..lists.count];
    }
    let i = (n - 1) as usize;
    &lists.members[LABEL * i..][..lists.sizes[i] as usize]
}

// The word of n with its list; follows tells whether n follows from all assumptions together.
#[tactic(auto, using(crate::proofs::Rows::words), unfolding(text::specs::Texts::word))]
fn word(n: u32, list: &[Set], follows: bool) -> &'static [u8]
    ensures { result.now ≡ word_of n list.now follows }
{
    if n == 0 {
        return b" nogood";
    }
    if !list.is_empty() {
        return b" supported";
    }
    if follows {
        return b" contradicted";
    }
    b" unsupported"
}

// The text of the line of n; the shape was looked at. Where the label is empty, follows tells whether n follows from all assumptions together.
#[tactic(auto, unfolding(crate::specs::Wording::line_with))]
pub fn lined(store: &Store, n: u32, follows: bool, writer: &mut Writer)
    requires { (right_shape store.now ≡ true) × (n ≤ limits.numbers) × Room (line_with store.now.lists n follows) writer.old }
    ensures { writer.new ≡ added (line_with store.now.lists n follows) writer.old }
{
    let list = list_of(store, n);
    writer.line(n, word(n, list, follows), list);
}

// Line one of the listing; the shape was looked at.
pub fn head(store: &Store, writer: &mut Writer)
    requires { (right_shape store.now ≡ true) × Room (heading store.now.held.assumptions store.now.held.claims store.now.held.count store.now.lists.depth) writer.old }
    ensures { writer.new ≡ added (heading store.now.held.assumptions store.now.held.claims store.now.held.count store.now.lists.depth) writer.old }
{
    let held = &store.held;
    writer.head(
        held.assumptions.into(),
        held.claims.into(),
        held.count as u32,
        store.lists.depth.into(),
    );
}

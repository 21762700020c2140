// The right shape of a store's lists.
#![tactic(auto)]

ghost use Rattle.std.specs.Prelude.{◌≡◌, ◌≤◌};
ghost use Rattle.theory.specs.Limits.{limits};
ghost use Rattle.theory.specs.Lists.{all_of, numbers_below, sorted_by};
ghost use Rattle.std.specs.Int.Count.{ones};
ghost use Rattle.theory.specs.Sets.{before};
ghost use Rattle.shape.specs.Shape.{apart, labels_right, ListsRight, row_right, standing, union_of};

use sets::Set;
use stages::Lists;
use theory::{LABEL, MARKS};

// Whether x stands before e in the listing, so many assumptions being theirs.
#[tactic(auto, unfolding(theory::specs::Sets::before))]
fn earlier(x: Set, of_x: u32, e: Set, of_e: u32) -> bool
    requires { (of_x ≡ ones x) × (of_e ≡ ones e) }
    ensures { result ≡ before x e }
{
    of_x < of_e || of_x == of_e && x < e
}

// Whether each stands clear before all later ones: before the next, and no set of fewer assumptions within a later one.
// Over the places, since those before each are looked at. The assumptions of a set are counted once, and not by `sets::before` for each two.
fn sorted(l: &[Set]) -> bool
    ensures { result ≡ sorted_by apart l.now }
{
    if l.is_empty() {
        return true;
    }
    let mut most = l[0].count_ones();
    let mut from = 0;
    for i in 1..l.len() {
        let (last, e) = (l[i - 1], l[i]);
        let count = e.count_ones();
        if !earlier(last, most, e, count) {
            return false;
        }
        if most < count {
            from = i;
            most = count;
        }
        if members::first_within(&l[..from], e).is_some() {
            return false;
        }
    }
    true
}

// The assumptions of all the sets: one pass without an exit.
fn all(l: &[Set]) -> Set
    ensures { result ≡ union_of l.now }
{
    l.iter().copied().fold(0, sets::union)
}

// Whether count sets stand in order in their places, and the other places are zero.
fn list(l: &[Set], count: usize) -> bool
    ensures { result ≡ standing count l.now }
{
    count <= l.len() && sorted(&l[..count]) && all(&l[count..]) == 0
}

// Whether each of the first n labels stands so in its places.
fn rows(lists: &Lists, n: usize) -> bool
    requires { n ≤ limits.numbers }
    ensures { result ≡ all_of (row_right lists.now.sizes lists.now.members) (numbers_below n) }
{
    (0..n).all(|i| list(
        &lists.members[LABEL * i..LABEL * i + LABEL],
        lists.sizes[i] as usize,
    ))
}

// Whether every label stands rightly in its places; those above top are empty.
fn labels(lists: &Lists, top: u8, a: u8) -> bool
    requires { (a ≤ limits.assumptions) × (top ≤ limits.numbers) }
    ensures { result ≡ labels_right a top lists.now.sizes lists.now.members }
{
    let n = top as usize;
    let end = LABEL * n;
    slices::zeros(&lists.sizes[n..])
        && all(&lists.members[end..]) == 0
        && sets::low(all(&lists.members[..end]), a)
        && rows(lists, n)
}

// Whether the lists of a assumptions and the numbers up to top have the right shape.
pub fn right(lists: Lists, a: u8, top: u8) -> bool
    requires { (a ≤ limits.assumptions) × (top ≤ limits.numbers) }
    ensures { ListsRight lists a top result }
{
    lists.depth as usize <= MARKS
        && sets::low(all(&lists.nogoods), a)
        && list(&lists.nogoods, lists.count)
        && labels(&lists, top, a)
}

// The pool: the smallest sets seen so far, in listing order. Where there is no room the last goes out: it is the bound, and what does not
// stand before it is refused from then on.
ghost use Rattle.std.specs.Prelude.{true, false, [], ◌++◌, ◌∷◌, ◌≡◌, ◌+◌, ◌≤◌, length, take, None, is_some};
ghost use Rattle.theory.specs.Limits.{limits};
ghost use Rattle.theory.specs.Lists.{choose, sorted_by};
ghost use Rattle.theory.specs.Sets.{before, within};
ghost use Rattle.joining.specs.Pool.{Well, entered, late_by, placed, purged};

use sets::Set;
use std::mem;
use theory::NOGOODS;

// Places for as many sets as a list may have, and one more.
pub const POOL: usize = NOGOODS + 1;

// The sets in their places, how many they are, and the one that went out last, if one did.
#[derive(Clone, Copy)]
pub struct Pool {
    pub sets: [Set; POOL],
    pub count: usize,
    pub bound: Option<Set>,
    ghost fits: { count ≤ limits.nogoods + 1 },
    ghost well: { Well (record { sets = take count sets; bound = bound }) },
}

// Those of the first so many that do not contain e put first, in their order; how many they are.
// The count stands beside the array, since a part of an array is not lent out of a struct behind a reference.
fn purge(list: &mut [Set], count: usize, e: Set) -> usize
    requires { count ≤ length list.old }
    ensures { (result ≤ count) × (take result list.new ≡ purged e (take count list.old)) }
{
    let mut kept = 0;
    for i in 0..count {
        let x = list[i];
        list[kept] = x;
        kept += usize::from(!sets::within(e, x));
    }
    kept
}

// e put among the first so many in listing order; the last of all is left over. A count beside the array, as above.
fn squeeze(list: &mut [Set], count: usize, e: Set) -> Set
    requires { (count ≤ length list.old) × (sorted_by before (take count list.old) ≡ true) }
    ensures { take count list.new ++ result ∷ [] ≡ placed e (take count list.old) }
{
    if 0 < count && sets::before(list[count - 1], e) {
        return e;
    }
    let mut carried = e;
    for x in list[..count].iter_mut() {
        if sets::before(carried, *x) {
            mem::swap(x, &mut carried);
        }
    }
    carried
}

impl Pool {
    ghost use Rattle.joining.specs.Places.{filled};

    // No set yet.
    pub fn new() -> Pool
        ensures { filled result ≡ record { sets = []; bound = None } }
    {
        Pool {
            sets: [0; POOL],
            count: 0,
            bound: None,
        }
    }

    // The sets in listing order.
    pub fn sets(&self) -> &[Set]
        ensures { result.now ≡ (filled self.now).sets }
    {
        &self.sets[..self.count]
    }

    // Whether one went out and e does not stand before it.
    pub fn late(&self, e: Set) -> bool
        ensures { result ≡ late_by (filled self.now).bound e }
    {
        self.bound.is_some_and(|bound| !sets::before(e, bound))
    }

    // The bound taken away, so that what was refused for it may come again; whether there was one.
    pub fn again(&mut self) -> bool
        ensures { (result ≡ is_some (filled self.old).bound) × (filled self.new ≡ record { sets = (filled self.old).sets; bound = None }) }
    {
        self.bound.take().is_some()
    }

    // e taken in, and those that contain it put out; where there is no room the last goes out.
    pub(crate) fn enter(&mut self, e: Set)
        requires { late_by (filled self.old).bound e ≡ false }
        ensures { filled self.new ≡ entered (limits.nogoods + 1) (filled self.old) e }
    {
        let held = self.count;
        let kept = purge(&mut self.sets, held, e);
        let last = squeeze(&mut self.sets, kept, e);
        if kept < POOL {
            self.sets[kept] = last;
            self.count = kept + 1;
        } else {
            self.bound = Some(last);
        }
    }
}

// The joins of one member of the label of each support, offered to a pool of the smallest sets seen so far.
#![tactic(auto)]

pub mod laid;
pub mod pool;

ghost use Rattle.std.specs.Prelude.{false, ◌≡◌};
ghost use Rattle.theory.specs.Step.{joins};
ghost use Rattle.joining.specs.Layout.{Ranged, lying};
ghost use Rattle.joining.specs.Places.{filled};
ghost use Rattle.joining.specs.Pool.{Barred, Gathered, late_by};

use laid::Labels;
use pool::Pool;
use sets::Set;
use theory::LABEL;

// The first set struck that lies within e, else the first of the pool.
fn barred(struck: &[Set], pool: &Pool, e: Set) -> Option<Set>
    ensures { Barred struck.now (filled pool.now).sets e result }
{
    if let Some(place) = members::first_within(struck, e) {
        return Some(struck[place]);
    }
    let sets = pool.sets();
    let place = members::first_within(sets, e)?;
    Some(sets[place])
}

// Each join of one member of the label of each support left offered to the pool; what is joined is not late.
// Each of these joins contains a set that is refused from now on and lies within the set handed back. So a later member whose joined set
// contains the part within it of an earlier one has only joins that are refused, and is passed over: that part is spent.
pub fn gather(labels: &Labels, supports: &[u8], struck: &[Set], joined: Set, pool: &mut Pool) -> Set
    requires { Ranged supports.now × (late_by (filled pool.old).bound joined ≡ false) }
    ensures { Gathered struck.now (joins (lying labels.now.members.now labels.now.sizes.now) joined supports.now) (filled pool.old) (filled pool.new) result }
{
    if let Some(bar) = barred(struck, pool, joined) {
        return bar;
    }
    let Some((first, left)) = supports.split_first() else {
        pool.enter(joined);
        return joined;
    };
    // Fixed places and a count, since no call of the product allocates.
    let mut spent: [Set; LABEL] = [0; LABEL];
    let mut n = 0;
    let mut why = 0;
    for member in labels.of(*first) {
        let g = sets::union(joined, *member);
        if pool.late(g) {
            why = sets::union(why, g);
            continue;
        }
        if members::first_within(&spent[..n], g).is_some() {
            continue;
        }
        let within = gather(labels, left, struck, g, pool);
        why = sets::union(why, within);
        spent[n] = sets::meet(g, within);
        n += 1;
    }
    why
}

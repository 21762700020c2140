// One list of the next stage, in listing order: by a pool of the smallest candidates seen so far, in one walk over the candidates
// where nothing went out for want of room, else in several, each of which begins with what the one before found.
#![tactic(auto)]

ghost use Rattle.std.specs.Prelude.{[], ◌∷◌, map, ◌≡◌, ◌≤◌};
ghost use Rattle.joining.specs.Layout.{Ranged, lying};
ghost use Rattle.joining.specs.Places.{filled};
ghost use Rattle.joining.specs.Pool.{Offered};
ghost use Rattle.rules.specs.Held.{meaning};
ghost use Rattle.theory.specs.Limits.{limits};
ghost use Rattle.theory.specs.Step.{joins_for};
ghost use Rattle.labels.specs.Entries.{Few, Joinable};
ghost use Rattle.labels.specs.Moved.{Hushed, Still, stirs};
ghost use Rattle.labels.specs.Promised.{Build, built_of};

use joining::laid::Labels;
use joining::pool::Pool;
use rules::Entry;
use sets::Set;
use theory::{MARKS, NOGOODS};

// A list as it was built: its members in fixed places, since no call of the product allocates; unused places zero.
#[derive(Clone, Copy)]
pub struct Built {
    pub count: usize,
    pub sets: [Set; NOGOODS],
}

// The first sets of a list that has more than its limit, as many as the limit; unused places zero.
#[derive(Clone, Copy)]
pub struct Full {
    pub first: [Set; NOGOODS],
}

// Each set of the list offered to the pool.
fn pour(list: &[Set], labels: &Labels, struck: &[Set], pool: &mut Pool)
    ensures { Offered struck.now list.now (filled pool.old) (filled pool.new) }
{
    for e in list {
        if pool.late(*e) {
            continue;
        }
        joining::gather(labels, &[], struck, *e, pool);
    }
}

// Whether the label of a support is marked, or place 0, as it is in the first step. A loop: with `any` it stayed open that each support has a mark.
pub fn stirred(entry: Entry, moved: &[u8; MARKS]) -> bool
    requires { Few entry × Ranged (meaning entry).supports }
    ensures { result ≡ stirs moved.now (meaning entry).supports }
{
    if moved[0] != 0 {
        return true;
    }
    let count = entry.count as usize;
    for s in &entry.supports[..count] {
        if moved[*s as usize] != 0 {
            return true;
        }
    }
    false
}

// The joins of a justification offered to the pool if it is one of n; where it is not stirred they are refused already.
fn joined(
    entry: Entry,
    n: u8,
    labels: &Labels,
    struck: &[Set],
    moved: &[u8; MARKS],
    pool: &mut Pool,
)
    requires { Few entry × Ranged (meaning entry).supports × Hushed (lying labels.now.members.now labels.now.sizes.now) (meaning entry ∷ []) n struck.now moved.now (filled pool.old) }
    ensures { Offered struck.now (joins_for (lying labels.now.members.now labels.now.sizes.now) n (meaning entry ∷ [])) (filled pool.old) (filled pool.new) }
{
    if entry.consequent != n {
        return;
    }
    if !stirred(entry, moved) {
        return;
    }
    if pool.late(0) {
        return;
    }
    let count = entry.count as usize;
    joining::gather(labels, &entry.supports[..count], struck, 0, pool);
}

// The joins of those of n among the justifications offered to the pool.
fn pooled(
    rules: &[Entry],
    n: u8,
    labels: &Labels,
    struck: &[Set],
    moved: &[u8; MARKS],
    pool: &mut Pool,
)
    requires { Joinable rules.now × Hushed (lying labels.now.members.now labels.now.sizes.now) (map meaning rules.now) n struck.now moved.now (filled pool.old) }
    ensures { Offered struck.now (joins_for (lying labels.now.members.now labels.now.sizes.now) n (map meaning rules.now)) (filled pool.old) (filled pool.new) }
{
    for entry in rules {
        joined(*entry, n, labels, struck, moved, pool);
    }
}

// The sets in the places of a list, if they are no more than the limit; else the first of them.
fn drawn(pool: &[Set], limit: usize) -> Result<Built, Full>
    requires { limit ≤ limits.nogoods }
    ensures { result ≡ built_of limit pool.now }
{
    let count = pool.len();
    let mut sets: [Set; NOGOODS] = [0; NOGOODS];
    if limit < count {
        sets[..limit].copy_from_slice(&pool[..limit]);
        return Err(Full { first: sets });
    }
    sets[..count].copy_from_slice(pool);
    Ok(Built { count, sets })
}

// The list of n at the next stage, or the first of it where it is longer than the limit: from its justifications, the labels as they lie, the old
// list of n and the sets struck; a justification that is not stirred adds nothing. Where a set went out for want of room, what the pool holds is
// the beginning of the list, and another walk over the candidates begins with it and finds more.
pub fn build(
    rules: &[Entry],
    n: u8,
    labels: &Labels,
    old: &[Set],
    struck: &[Set],
    moved: &[u8; MARKS],
    limit: usize,
) -> Result<Built, Full>
    requires { Joinable rules.now × (limit ≤ limits.nogoods) × Still (lying labels.now.members.now labels.now.sizes.now) (map meaning rules.now) n old.now struck.now moved.now }
    ensures { Build rules.now n labels.now.members.now labels.now.sizes.now old.now struck.now limit result }
{
    let mut pool = Pool::new();
    loop {
        pour(old, labels, struck, &mut pool);
        pooled(rules, n, labels, struck, moved, &mut pool);
        let short = pool.again();
        if !short || limit < pool.sets().len() {
            return drawn(pool.sets(), limit);
        }
    }
}

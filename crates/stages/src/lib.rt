// The lists of a stage, from one stage to the next, and the walk to the depth.
#![tactic(auto)]

ghost use Rattle.std.specs.Prelude.{◌≡◌, ◌≤◌, ◌<◌, ◌+◌, not, get_or, length, replicate, take};
ghost use Rattle.std.proofs.Math.Seq.{paste};
ghost use Rattle.theory.specs.Limits.{limits};
ghost use Rattle.theory.specs.Judge.{same_sets};
ghost use Rattle.rules.specs.Held.{said_by};
ghost use Rattle.labels.specs.Promised.{built_of, placed_list};
ghost use Rattle.stages.specs.Judged.{Judge, Judgeable, Start};
ghost use Rattle.stages.specs.Steps.{Fresh, Put, Reached, Relabelled, Stale, Steady, Stepped, Told, Touched, spared_of, stage_by, tallied};

use joining::laid::{Labels, MEMBERS};
use labels::{Built, Full};
use replies::Reply;
use rules::Held;
use sets::Set;
use theory::{LABEL, MARKS, NOGOODS, NUMBERS};

// The labels and nogoods of a stage: label n from place n - 1 times its limit on, its size beside it; unused places zero.
// Fixed places with sizes beside them, and no Vec: a store is a value of fixed size, which C copies.
#[repr(C)]
#[derive(Clone, Copy)]
pub struct Lists {
    pub sizes: [u8; NUMBERS],
    pub members: [Set; MEMBERS],
    pub count: usize,
    pub nogoods: [Set; NOGOODS],
    pub depth: u8,
}

// The lists of stage 0. By number, since a label stands at its number times the limit.
pub fn start(assumptions: u8) -> Lists
    requires { assumptions ≤ limits.assumptions }
    ensures { Start assumptions result }
{
    let mut lists = Lists {
        sizes: [0; NUMBERS],
        members: [0; MEMBERS],
        count: 0,
        nogoods: [0; NOGOODS],
        depth: 0,
    };
    for i in 0..assumptions {
        let at = i as usize;
        lists.sizes[at] = 1;
        lists.members[LABEL * at] = sets::only(i + 1);
    }
    lists
}

// What a step to the next stage reads: what is held, its tally, the lists of the stage, and a mark for each label that changed in the step before.
#[derive(Clone, Copy)]
struct Step<'a> {
    held: &'a Held,
    tallies: &'a [u16; MARKS],
    lists: &'a Lists,
    moved: &'a [u8; MARKS],
    ghost reached: { Reached held.now lists.now },
    ghost counted: { tallies.now ≡ tallied held.now },
    ghost fresh: { Fresh held.now lists.now.depth moved.now },
}

impl Step<'_> {
    // The nogoods of the next stage first, then every label with those nogoods, written over the old ones, and a mark for each that changed. Whether no list changed.
    fn next(&self, later: &mut Lists, marks: &mut [u8; MARKS]) -> Result<bool, Reply>
        requires { (later.old ≡ self.now.lists.now) × (marks.old ≡ replicate (limits.numbers + 1) 0) }
        ensures { Stepped self.now.held.now self.now.lists.now.depth later.new marks.new result }
    {
        let stale = touched(self.held, self.moved);
        let Ok(built) = self.refuted(stale[0]) else {
            return Err(Reply::Nogoods);
        };
        let struck = &built.sets[..built.count];
        let news = differs(struck, &self.lists.nogoods[..self.lists.count]);
        let over = self.relabel(&stale, news, struck, later, marks);
        if let Some(n) = over {
            return Err(Reply::Label(n));
        }
        later.count = built.count;
        later.nogoods = built.sets;
        later.depth = self.lists.depth + 1;
        Ok(!news && slices::zeros(marks))
    }

    // The nogoods of the next stage, built where they are stale; the first of them where they are more than the limit.
    fn refuted(&self, stale: u8) -> Result<Built, Full>
        requires { stale ≡ 0 → Steady self.now.held.now self.now.lists.now.depth 0 }
        ensures { result ≡ built_of limits.nogoods (stage_by self.now.held.now (self.now.lists.now.depth + 1)).nogoods }
    {
        let lists = self.lists;
        if stale == 0 {
            return Ok(Built {
                count: lists.count,
                sets: lists.nogoods,
            });
        }
        let labels = Labels {
            members: &lists.members,
            sizes: &lists.sizes,
        };
        let held = self.held;
        let end = self.tallies[0] as usize;
        labels::build(
            &held.entries[..end],
            0,
            &labels,
            &lists.nogoods[..lists.count],
            &[],
            self.moved,
            NOGOODS,
        )
    }

    // The labels of the next stage over the old ones, a mark for each that changed: those that are stale built, of the others what the nogoods leave where they changed. The lowest number whose label is over, if one is. By number, as above.
    fn relabel(
        &self,
        stale: &[u8; MARKS],
        news: bool,
        struck: &[Set],
        later: &mut Lists,
        marks: &mut [u8; MARKS],
    ) -> Option<u8>
        requires { (struck.now ≡ (stage_by self.now.held.now (self.now.lists.now.depth + 1)).nogoods) × Stale self.now.held.now self.now.lists.now.depth stale.now × Told self.now.held.now self.now.lists.now.depth news × (later.old ≡ self.now.lists.now) × (marks.old ≡ replicate (limits.numbers + 1) 0) }
        ensures { Relabelled self.now.held.now self.now.lists.now.depth later.new.members later.new.sizes marks.new result }
    {
        let lists = self.lists;
        let labels = Labels {
            members: &lists.members,
            sizes: &lists.sizes,
        };
        let held = self.held;
        let mut hi = self.tallies[0] as usize;
        for i in 0..held.assumptions + held.claims {
            let at = i as usize;
            let n = i + 1;
            let lo = hi;
            hi = lo + self.tallies[at + 1] as usize;
            let old = labels.of(n);
            if stale[at + 1] != 0 {
                let Ok(label) = labels::build(
                    &held.entries[lo..hi],
                    n,
                    &labels,
                    old,
                    struck,
                    self.moved,
                    LABEL,
                ) else {
                    return Some(n);
                };
                put(later, marks, at, label, old);
                continue;
            }
            if !news {
                continue;
            }
            put(later, marks, at, strike(old, struck), old);
        }
        None
    }
}

// A label put in its places with its size and a mark, where it is another than the old one.
fn put(later: &mut Lists, marks: &mut [u8; MARKS], at: usize, label: Built, old: &[Set])
    requires { (label.count ≤ limits.label) × (at < limits.numbers) }
    ensures { Put (same_sets (take label.count label.sets) old.now) at label later.old.members later.old.sizes marks.old later.new.members later.new.sizes marks.new }
{
    if !differs(&label.sets[..label.count], old) {
        return;
    }
    write(&mut later.members, LABEL * at, &label.sets[..LABEL]);
    later.sizes[at] = label.count as u8;
    marks[at + 1] = 1;
}

// Whether a list is another than the old one.
fn differs(list: &[Set], old: &[Set]) -> bool
    ensures { result ≡ not (same_sets list.now old.now) }
{
    list != old
}

// Those of a list that contain no set struck.
fn strike(list: &[Set], struck: &[Set]) -> Built
    requires { length list.now ≤ limits.nogoods }
    ensures { result ≡ placed_list (spared_of struck.now list.now) }
{
    let mut sets: [Set; NOGOODS] = [0; NOGOODS];
    let mut count = 0;
    for e in list {
        if members::first_within(struck, *e).is_none() {
            sets[count] = *e;
            count += 1;
        }
    }
    Built { count, sets }
}

// A list written over the members from a place on.
fn write(members: &mut [Set], from: usize, label: &[Set])
    requires { from + length label.now ≤ length members.old }
    ensures { members.new ≡ paste members.old from label.now (length label.now) }
{
    members[from..from + label.len()].copy_from_slice(label);
}

// How many justifications of each number are held: they stand in the order of their numbers. That what is held can be judged is a clause, as `judge` asks it.
fn tally(held: &Held) -> [u16; MARKS]
    requires { Judgeable limits.assumptions held.now }
    ensures { result ≡ tallied held.now }
{
    let mut tallies = [0u16; MARKS];
    for entry in &held.entries[..held.count] {
        tallies[entry.consequent as usize] += 1;
    }
    tallies
}

// A mark for each list that has to be built: one of its justifications is stirred. In the first step all are marked.
fn touched(held: &Held, moved: &[u8; MARKS]) -> [u8; MARKS]
    requires { Judgeable limits.assumptions held.now }
    ensures { Touched moved.now (said_by held.now) result }
{
    let mut marks = [moved[0]; MARKS];
    for entry in &held.entries[..held.count] {
        if labels::stirred(*entry, moved) {
            marks[entry.consequent as usize] = 1;
        }
    }
    marks
}

// The stages from 0 upward, to the first that agrees with the next, or the refusal. A stage that differs from the next has a number below that of the different consequents, so the walk ends.
pub fn judge(held: Held) -> Result<Lists, Reply>
    requires { Judgeable limits.assumptions held }
    ensures { Judge held result }
{
    let tallies = tally(&held);
    let mut lists = start(held.assumptions);
    let mut later = lists;
    let mut moved = [1u8; MARKS];
    loop {
        let mut marks = [0u8; MARKS];
        let step = Step {
            held: &held,
            tallies: &tallies,
            lists: &lists,
            moved: &moved,
        };
        if step.next(&mut later, &mut marks)? {
            return Ok(lists);
        }
        lists = later;
        moved = marks;
    }
}

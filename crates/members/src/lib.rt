// The first member of a list that lies within a set.
#![tactic(auto)]

ghost use Rattle.members.specs.Promised.{FirstWithin};

use sets::Set;

// The set of all assumptions that a set can have.
const ALL: Set = !0;

// The place of the first member that lies within e, if one does: it has nothing of what e has not, which is made once for all of them.
// A loop that yields the place by break, since docs/PROMISES.md has it so. Over what is left of the list, and not by place: so a caller's reading
// of the member costs the loop nothing.
pub fn first_within(list: &[Set], e: Set) -> Option<usize>
    ensures { FirstWithin list.now e result }
{
    let others = sets::without(ALL, e);
    let mut rest = list;
    let mut i = 0;
    loop {
        let Some((member, left)) = rest.split_first() else {
            break None;
        };
        if sets::meet(*member, others) == 0 {
            break Some(i);
        }
        rest = left;
        i += 1;
    }
}

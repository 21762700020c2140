// Two places compared: which stands before the other, and whether they are one justification.
ghost use Rattle.std.specs.Prelude.{◌≡◌};
ghost use Rattle.theory.specs.Stages.{ahead};
ghost use Rattle.rules.specs.Held.{meaning};
ghost use Rattle.rules.specs.Items.{same_justification};

use rules::Entry;
use theory::SUPPORTS;

// Its supports, without the unused places.
fn supports(entry: &Entry) -> &[u8]
    ensures { result.now ≡ (meaning entry.now).supports }
{
    let used = usize::min(entry.count as usize, SUPPORTS);
    &entry.supports[..used]
}

// Whether s stands before t.
pub(crate) fn comes(s: &Entry, t: &Entry) -> bool
    ensures { result ≡ ahead (meaning s.now) (meaning t.now) }
{
    let mine = supports(s);
    let theirs = supports(t);
    (s.consequent, mine.len(), mine) < (t.consequent, theirs.len(), theirs)
}

// Whether the two are one justification.
pub(crate) fn same(s: &Entry, t: &Entry) -> bool
    ensures { result ≡ same_justification (meaning s.now) (meaning t.now) }
{
    s.consequent == t.consequent && supports(s) == supports(t)
}

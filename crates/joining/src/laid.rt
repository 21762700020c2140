// The labels of a stage as they lie: label n from place n - 1 times its limit on, its size beside it.
ghost use Rattle.std.specs.Prelude.{◌≡◌, ◌≤◌};
ghost use Rattle.theory.specs.Limits.{limits};
ghost use Rattle.joining.specs.Layout.{Layout, lying};

use sets::Set;
use theory::{LABEL, NUMBERS};

// Places for the members of all labels.
pub const MEMBERS: usize = NUMBERS * LABEL;

// The members of all labels, lent, with the size of each.
#[derive(Clone, Copy)]
pub struct Labels<'a> {
    pub members: &'a [Set; MEMBERS],
    pub sizes: &'a [u8; NUMBERS],
    ghost layout: { Layout members.now sizes.now },
}

impl Labels<'_> {
    // The label of a number.
    pub fn of(&self, n: u8) -> &[Set]
        requires { (1 ≤ n) × (n ≤ limits.numbers) }
        ensures { result.now ≡ lying self.now.members.now self.now.sizes.now n }
    {
        let i = n as usize - 1;
        let from = LABEL * i;
        let end = from + self.sizes[i] as usize;
        let members = self.members;
        &members[from..end]
    }
}

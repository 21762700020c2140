// The supports of a place: whether they rise, and whether they end in zeros.
ghost use Rattle.std.specs.Prelude.{◌&&◌, not, ◌≡◌, ◌≤◌, eqb, drop};
ghost use Rattle.theory.specs.Limits.{limits};
ghost use Rattle.theory.specs.Lists.{all_of, some_of};
ghost use Rattle.rules.specs.Held.{climbs};

use theory::SUPPORTS;

// Whether the numbers rise strictly from above 0 to top at most, and none of them is n.
pub(crate) fn rises(l: &[u8], top: u16, n: u8) -> bool
    ensures { result ≡ climbs top 0 l.now && not (some_of (eqb n) l.now) }
{
    let mut last = 0;
    for x in l {
        if *x <= last || *x == n {
            return false;
        }
        last = *x;
    }
    last as u16 <= top
}

// Whether the bytes from place n on are zero: as one number, the first the lowest, they are less than 256^n.
pub(crate) fn ends(bytes: [u8; SUPPORTS], n: usize) -> bool
    requires { n ≤ limits.supports }
    ensures { result ≡ all_of (eqb 0) (drop n bytes) }
{
    (u32::from_le_bytes(bytes) as u64) < 1 << (8 * n)
}

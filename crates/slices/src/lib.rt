// Tests of lent slices: whether one has a number, has one above another, is zero, is the same as another.
#![tactic(auto)]

ghost use Rattle.std.specs.Prelude.{◌≡◌, eqb, ltb};
ghost use Rattle.theory.specs.Judge.{same_sets};
ghost use Rattle.theory.specs.Lists.{all_of, some_of};

// Whether n is one of the list: any and not contains, which takes twice as long on so few.
pub fn has(l: &[u32], n: u32) -> bool
    ensures { result ≡ some_of (eqb n) l.now }
{
    l.iter().any(|x| n == *x)
}

// Whether one of the list is above top.
pub fn over(l: &[u32], top: u32) -> bool
    ensures { result ≡ some_of (ltb top) l.now }
{
    l.iter().any(|x| top < *x)
}

// Whether every number is zero: one pass without an exit.
pub fn zeros(l: &[u8]) -> bool
    ensures { result ≡ all_of (eqb 0) l.now }
{
    l.iter().fold(0, |seen, x| seen | x) == 0
}

// Whether the two lists are the same.
pub fn equal(a: &[u8], b: &[u8]) -> bool
    ensures { result ≡ same_sets a.now b.now }
{
    a == b
}

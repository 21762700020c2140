// Sets of assumptions as numbers: assumption k is worth 2^(k-1).
#![tactic(auto)]

ghost use Rattle.std.specs.Prelude.{◌≤◌};
ghost use Rattle.theory.specs.Limits.{limits};
ghost use Rattle.sets.specs.Promised.{Before, Has, Low, Meet, Only, Union, Within, Without};

use theory::ASSUMPTIONS;

// The number itself and no type round it: a store crosses the C interface with its sets as such numbers.
pub type Set = u32;

// How many assumptions a set can have, once more as a byte: so an assumption is counted, in `has`, `only` and every loop over them.
pub const WIDTH: u8 = ASSUMPTIONS as u8;

// The assumptions in a or in b.
pub fn union(a: Set, b: Set) -> Set
    ensures { Union a b result }
{
    a | b
}

// The assumptions in a and in b.
pub fn meet(a: Set, b: Set) -> Set
    ensures { Meet a b result }
{
    a & b
}

// Whether a is a subset of b.
pub fn within(a: Set, b: Set) -> bool
    ensures { Within a b result }
{
    (a | b) == b
}

// The assumptions in a that are not in b.
pub fn without(a: Set, b: Set) -> Set
    ensures { Without a b result }
{
    a & !b
}

// The set of assumption k alone.
pub fn only(k: u8) -> Set
    requires { (1 ≤ k) × (k ≤ limits.assumptions) }
    ensures { Only k result }
{
    1 << (k - 1)
}

// Whether assumption k is in e.
pub fn has(e: Set, k: u8) -> bool
    requires { (1 ≤ k) × (k ≤ limits.assumptions) }
    ensures { Has e k result }
{
    (e >> (k - 1)) % 2 == 1
}

// Whether a stands before b in the listing: fewer assumptions first, and among equals the smaller number first.
pub fn before(a: Set, b: Set) -> bool
    ensures { Before a b result }
{
    (a.count_ones(), a) < (b.count_ones(), b)
}

// Whether e has no assumption above a. A shift by the whole width is undefined, so the number is widened first.
pub fn low(e: Set, a: u8) -> bool
    requires { a ≤ limits.assumptions }
    ensures { Low e a result }
{
    u64::from(e) >> a == 0
}

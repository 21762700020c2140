// What the documents mean, in specs/ and proofs/. In code only the limits: those of specs/Limits, as every contract has them.
#![tactic(auto)]

// Assumptions, which is the width of a set.
pub const ASSUMPTIONS: u32 = 32;

// Claims.
pub const CLAIMS: u32 = 96;

// Both together.
pub const NUMBERS: usize = 128;

// A place for each number, falsity the first.
pub const MARKS: usize = NUMBERS + 1;

// Justifications held.
pub const HELD: usize = 256;

// Supports of one justification.
pub const SUPPORTS: usize = 4;

// Members of a label.
pub const LABEL: usize = 12;

// Nogoods.
pub const NOGOODS: usize = 32;

// Bytes of a case file that is listed.
pub const FILE: usize = 4096;

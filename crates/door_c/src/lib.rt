// The calls of `door` for programs in C and Rust, as functions of C's convention. Each is one call of that crate, and promises what it promises.
#![tactic(auto)]

pub mod barely;
pub mod making;
pub mod reading;
pub mod texts;

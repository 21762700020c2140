// The calls for programs in C and Rust: numbers for replies, the store by value. Each is one call of the product.
#![tactic(auto)]

pub mod barely;
pub mod making;
pub mod reading;
pub mod texts;

// The entries for C and Rust: numbers and slices in, one number out.
#![tactic(auto)]

pub mod calls;
pub mod checked_calls;
pub mod checks;
pub mod numbers;

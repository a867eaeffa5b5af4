// The least upper bound of two types, written.
#![tactic(auto)]

pub mod bound_writes;
pub mod flags;
pub mod kept_attributes;
pub mod unions;
pub mod untyped_sets;

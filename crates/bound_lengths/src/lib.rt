// How long the least upper bound of two types is, or why there is none.
#![tactic(auto)]

pub mod bound_length;
pub mod kinds;
pub mod names;
pub mod pairs;
pub mod sets;

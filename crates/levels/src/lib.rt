// How many levels a type or a value has.
#![tactic(auto)]

pub mod depths;

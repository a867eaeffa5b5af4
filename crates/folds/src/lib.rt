// Bounds in turn: one step, and the fold of a list.
#![tactic(auto)]

pub mod lists;
pub mod steps;

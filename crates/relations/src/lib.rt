// How two whole types relate: disjoint, subtype, consistent.
#![tactic(auto)]

pub mod are_types_disjoint;
pub mod is_consistent_with;
pub mod is_plain;
pub mod is_subtype;
pub mod names;
pub mod sets;

// The public entries: each asks the questions of its call in order, and answers or refuses by number.
#![tactic(auto)]

pub mod all_attributes;
pub mod answers;
pub mod are_types_disjoint;
pub mod convert;
pub mod euid_literal;
pub mod is_consistent_with;
pub mod is_subtype;
pub mod least_upper_bound;
pub mod lookup_attribute_type;
pub mod may_have_attr;
pub mod measure_type;
pub mod measure_value;
pub mod own_attribute_type;
pub mod reduce_to_least_upper_bound;
pub mod rooms;
pub mod typecheck_restricted_expr;
pub mod workspaces;

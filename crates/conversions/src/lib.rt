// Type forms written as other forms: the conversion to a core type.
#![tactic(auto)]

pub mod core_types;

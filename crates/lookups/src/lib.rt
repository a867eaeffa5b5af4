// Attributes of a type: their types and their names, by bounds in turn over an entity's types.
#![tactic(auto)]

pub mod all_attributes;
pub mod lookup_attribute_type;

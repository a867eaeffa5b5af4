// Attributes found in a form or in a schema, may-have, and the type of a literal.
#![tactic(auto)]

pub mod entity_attribute;
pub mod euid_literal;
pub mod may_have_attr;
pub mod own_attribute;

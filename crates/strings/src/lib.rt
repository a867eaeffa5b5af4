// Strings: whether bytes are text, and whether every string of a value is.
#![tactic(auto)]

pub mod text;
pub mod values;

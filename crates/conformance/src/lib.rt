// Whether a value has a type, element by element down a nested value.
#![tactic(auto)]

pub mod calls;
pub mod conforms;
pub mod counts;
pub mod entities;
pub mod kinds;
pub mod required;
pub mod verdicts;

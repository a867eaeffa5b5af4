// The byte forms of Cedar's types, values and schemas: whether one is whole, and where its parts lie.
#![tactic(auto)]

pub mod kinds;
pub mod limits;
pub mod lists;
pub mod modes;
pub mod numbers;
pub mod offsets;
pub mod refusals;
pub mod rows;
pub mod shapes;
pub mod type_forms;
pub mod types;
pub mod values;
pub mod widths;

// The schema form: whether one is whole, where its sections lie, and its entries by key.
#![tactic(auto)]

pub mod arguments;
pub mod bodies;
pub mod checked;
pub mod entries;
pub mod kinds;
pub mod offsets;
pub mod order;
pub mod schema;
pub mod sections;
pub mod whole;

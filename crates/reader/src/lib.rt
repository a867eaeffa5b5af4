// A schema that is checked once and kept with its block.
#![tactic(auto)]

pub mod validator_schema;

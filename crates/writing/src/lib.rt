// Writing forms: how long one is first, then its bytes.
#![tactic(auto)]

pub mod form_lengths;
pub mod writers;

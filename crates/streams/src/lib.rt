// Standard input and standard output, read and written in full.
#![tactic(auto)]

mod error;
mod input;
mod output;

pub use error::{Stopped, stop};
pub use input::read_input;
pub use output::{Output, write_output};

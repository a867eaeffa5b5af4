// Jobs: whether one is whole, the check of its schema, its questions, and the line of each.
#![tactic(auto)]

mod answers;
mod checks;
mod lines;
mod operations;
mod questions;
mod steps;
mod text;
mod walk;
mod whole;

pub use checks::check_job;
pub use lines::put_bad_line;
pub use operations::{Operation, UnknownOperation};
pub use questions::{Cursor, count, start};
pub use steps::Buffers;
pub use walk::Walk;
pub use whole::whole_job;

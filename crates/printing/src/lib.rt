// The lines of a job or of a batch of jobs, on standard output.
#![tactic(auto)]

mod batch;
mod job;

pub use batch::{print_batch, print_jobs};
pub use job::print_job;

// Reads a job on standard input and prints its lines.
#![tactic(auto)]

use forms::limits::Limits;
use printing::print_job;
use streams::{Stopped, read_input};

// One byte more than a job may have is read, so that a longer one is known to be bad.
fn run(rt: &HostRuntime) -> Result<(), Stopped> {
    let mut buffer = [0u8; Limits::BLOCK_BYTES + 1];
    let n = read_input(rt, &mut buffer)?;
    print_job(rt, &buffer[..n])
}

fn main(rt: HostRuntime) {
    let _ = run(&rt);
}

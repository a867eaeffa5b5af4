// The lines of one job.
ghost use Rattle.std.specs.Prelude.{◌≡◌, true, IsOk};
ghost use Rattle.cedar.specs.Types.{present};
ghost use Rattle.cedar.specs.JobForm.{whole_job};
ghost use Rattle.jobs.specs.Walk.{count_of};

use jobs::{Buffers, Walk};
use streams::{Stopped, write_output};

// Prints the lines of a whole job.
fn print_lines(rt: &HostRuntime, job: &[u8]) -> Result<(), Stopped>
    ensures { count_of job.now ≡ 0 → IsOk result }
{
    let mut line = [0u8; Buffers::LINE];
    let mut walk = Walk::new(job);
    while let Some(n) = walk.next_line(&mut line) {
        write_output(rt, &line[..n])?;
    }
    Ok(())
}

// Prints the line of a bad job.
fn print_bad_line(rt: &HostRuntime) -> Result<(), Stopped> {
    let mut line = [0u8; Buffers::LINE];
    let n = jobs::put_bad_line(&mut line);
    write_output(rt, &line[..n])
}

// Prints what a job comes to: of a whole one without a question, nothing.
pub fn print_job(rt: &HostRuntime, job: &[u8]) -> Result<(), Stopped>
    ensures { present (whole_job job.now) ≡ true → count_of job.now ≡ 0 → IsOk result }
{
    if jobs::whole_job(job) {
        return print_lines(rt, job);
    }
    print_bad_line(rt)
}

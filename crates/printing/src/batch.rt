// A batch on standard input: jobs, each behind its length as a u32, low byte first. After the lines of each job stands a line with a dot.
ghost use Rattle.std.specs.Prelude.{◌≡◌, ◌≤◌, length, IfOk, IfSome};
ghost use Rattle.printing.specs.Heads.{head_of};

use crate::job::print_job;
use forms::limits::Limits;
use streams::{Stopped, read_input, stop, write_output};

// How many bytes a job's length takes, and how many its job at most: more than a whole job has, so that a batch can hold bad ones.
const HEAD: usize = 4;

const JOB: usize = 2 * Limits::BLOCK_BYTES;

// What is wrong with a length: it is cut short, or too large.
#[derive(Clone, Copy)]
enum BadHead {
    Cut,
    TooLong,
}

// The length that the first n bytes read for it say, or none at the end of the batch.
fn head_of(bytes: &[u8; HEAD], n: usize) -> Result<Option<usize>, BadHead>
    ensures { result ≡ head_of bytes.now n }
{
    if n == 0 {
        return Ok(None);
    }
    if n < HEAD {
        return Err(BadHead::Cut);
    }
    let length = u32::from_le_bytes(*bytes) as usize;
    if JOB < length {
        return Err(BadHead::TooLong);
    }
    Ok(Some(length))
}

// Reads the next length, or none at the end of the batch.
fn read_head(rt: &HostRuntime) -> Result<Option<usize>, Stopped>
    ensures { IfOk result (λ head. IfSome head (λ n. n ≤ 65536)) }
{
    let mut bytes = [0u8; HEAD];
    let n = read_input(rt, &mut bytes)?;
    match head_of(&bytes, n) {
        Ok(head) => Ok(head),
        Err(BadHead::Cut) => Err(stop(rt, b"standard input: a length is cut short\n")),
        Err(BadHead::TooLong) => Err(stop(rt, b"standard input: a job is too long\n")),
    }
}

// Reads a job that fills buf and prints its lines.
fn print_read(rt: &HostRuntime, buf: &mut [u8]) -> Result<(), Stopped> {
    if read_input(rt, buf)? < buf.len() {
        return Err(stop(rt, b"standard input: a job is cut short\n"));
    }
    print_job(rt, buf)?;
    write_output(rt, b".\n")
}

// Prints the lines of every job of the batch, in turn, and says whether it came to the end. The turns are more than any run takes.
pub fn print_jobs(rt: &HostRuntime) -> Result<(), Stopped> {
    let mut buffer = [0u8; JOB];
    for _ in 0..u64::MAX {
        let Some(n) = read_head(rt)? else {
            return Ok(());
        };
        print_read(rt, &mut buffer[..n])?;
    }
    Ok(())
}

// Prints the lines of every job of the batch, as far as they come.
pub fn print_batch(rt: &HostRuntime) {
    let _ = print_jobs(rt);
}

// Standard input, read to its end.
ghost use Rattle.std.specs.Prelude.{◌≤◌, length, IfOk, IfSome};

use crate::error::{Stopped, try_again};
use std::io::Read;

// How many bytes one read brought, or none at the end. A read that a signal cut short, or for which nothing was there yet, brings no bytes.
fn read_some(rt: &HostRuntime, buf: &mut [u8]) -> Result<Option<usize>, Stopped>
    ensures { IfOk result (λ got. IfSome got (λ n. n ≤ length buf.old)) }
{
    match rt.stdin().read(buf) {
        Ok(0) => Ok(None),
        Ok(n) => Ok(Some(n)),
        Err(error) => {
            try_again(rt, "standard input", error)?;
            Ok(Some(0))
        }
    }
}

// Reads until the end of the input or until buf is full, and returns how many bytes came. The turns are more than any run takes.
pub fn read_input(rt: &HostRuntime, buf: &mut [u8]) -> Result<usize, Stopped>
    ensures { IfOk result (λ n. n ≤ length buf.new) }
{
    let mut at = 0;
    for _ in 0..u64::MAX {
        if at == buf.len() {
            return Ok(at);
        }
        let Some(n) = read_some(rt, &mut buf[at..])? else {
            return Ok(at);
        };
        at += n;
    }
    Err(Stopped)
}

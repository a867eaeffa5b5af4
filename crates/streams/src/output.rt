// Standard output, written in full.
ghost use Rattle.std.specs.Prelude.{◌≡◌, ◌≤◌, length, IfOk, IsOk};

use crate::error::{Stopped, try_again};
use std::fmt;
use std::io::Write;

// How many bytes one write took.
fn write_some(rt: &HostRuntime, buf: &[u8]) -> Result<usize, Stopped>
    ensures { IfOk result (λ n. n ≤ length buf.now) }
{
    match rt.stdout().write(buf) {
        Ok(n) => Ok(n),
        Err(error) => {
            try_again(rt, "standard output", error)?;
            Ok(0)
        }
    }
}

// Writes all of buf, in as many writes as it takes. The turns are more than any run takes.
pub fn write_output(rt: &HostRuntime, buf: &[u8]) -> Result<(), Stopped>
    ensures { length buf.now ≡ 0 → IsOk result }
{
    let mut left = buf;
    for _ in 0..u64::MAX {
        if left.is_empty() {
            return Ok(());
        }
        let n = write_some(rt, left)?;
        left = &left[n..];
    }
    Err(Stopped)
}

// Standard output as what text is written to. Each piece that fails says so on standard error, and what follows is written all the same.
#[derive(Clone, Copy)]
pub struct Output<'a>(pub &'a HostRuntime);

impl fmt::Write for Output<'_> {
    fn write_str(&mut self, s: &str) -> fmt::Result {
        let _ = write_output(self.0, s.as_bytes());
        Ok(())
    }
}

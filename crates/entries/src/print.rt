// The line of a call.
use std::fmt::Write;
use streams::{Output, Stopped};
use trial::Buffers;

// Prints the entry, its answer's number, and between brackets the bytes of each buffer that it was lent.
pub(crate) fn print_line(
    rt: &HostRuntime,
    entry: &str,
    n: u64,
    lent: &[&[u8]],
) -> Result<(), Stopped> {
    writeln!(Output(rt), "{entry} 0x{n:x}{}", Buffers(lent))?;
    Ok(())
}

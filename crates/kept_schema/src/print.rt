// The line of a kept schema, and that of a call.
use forms::limits::Limits;
use forms::refusals::Refusal;
use std::fmt::Write;
use streams::{Output, Stopped};
use trial::{Buffers, Byte, Shown};
use validator::answers::Answer;

// Prints how long a kept block is, and its limits.
pub(crate) fn print_kept(rt: &HostRuntime, length: usize, limits: Limits) -> Result<(), Stopped> {
    let Limits { levels, bytes } = limits;
    writeln!(
        Output(rt),
        "schema {length}, levels {levels}, bytes {bytes}"
    )?;
    Ok(())
}

// Prints the call with the space behind it, its answer, and between brackets the bytes of each buffer that it was lent.
pub(crate) fn print_line(
    rt: &HostRuntime,
    call: &str,
    answer: Result<Answer, Refusal>,
    lent: &[&[u8]],
) -> Result<(), Stopped> {
    writeln!(Output(rt), "{call}{}{}", Shown(answer), Buffers(lent))?;
    Ok(())
}

// Prints the line of the call that hands back a part: the call with its space, the byte that tells which, and the part.
pub(crate) fn print_part(
    rt: &HostRuntime,
    call: &str,
    told: u8,
    part: &[u8],
) -> Result<(), Stopped> {
    writeln!(Output(rt), "{call}{}{}", Byte(told), Buffers(&[part]))?;
    Ok(())
}

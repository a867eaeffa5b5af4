// The line of a call.
use forms::refusals::Refusal;
use std::fmt::Write;
use streams::{Output, Stopped};
use trial::{Buffers, Shown};
use validator::answers::Answer;
use validator::own_attribute_type::{OwnPart, Told};

// Prints the answer, and between brackets the bytes of each buffer that the entry was lent.
pub(crate) fn print_left(
    rt: &HostRuntime,
    answer: Result<Answer, Refusal>,
    lent: &[&[u8]],
) -> Result<(), Stopped> {
    writeln!(Output(rt), "{}{}", Shown(answer), Buffers(lent))?;
    Ok(())
}

// Prints what the second entry of lookup told, where the part stands, and the part that it handed back: refusal or 0; none, or where the
// part starts and ends, behind r: or o:, or -.
pub(crate) fn print_part(
    rt: &HostRuntime,
    told: u8,
    place: Result<Option<OwnPart>, Refusal>,
    part: &[u8],
) -> Result<(), Stopped> {
    let mut out = Output(rt);
    match (told, place) {
        (Told::NOTHING, _) => write!(out, "0 none")?,
        (Told::REQUIRED, Ok(Some(at))) => write!(out, "0 r:{}..{}", at.start, at.end)?,
        (Told::OPTIONAL, Ok(Some(at))) => write!(out, "0 o:{}..{}", at.start, at.end)?,
        _ => write!(out, "{told} -")?,
    }
    writeln!(out, "{}", Buffers(&[part]))?;
    Ok(())
}

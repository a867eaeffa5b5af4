// How answers and buffers are shown.
ghost use Rattle.std.specs.Prelude.{◌<◌};

use forms::refusals::Refusal;
use std::{fmt, str};
use validator::answers::Answer;

// An answer: refusal or 0; yes, no, none, or the answer's length, or -. A type's length stands with its levels, as in 10/2; behind r: or
// o: for an attribute, behind m: where a form is measured.
#[derive(Clone, Copy)]
pub struct Shown(pub Result<Answer, Refusal>);

impl fmt::Display for Shown {
    fn fmt<W: fmt::Write>(&self, f: &mut fmt::Formatter<W>) -> fmt::Result {
        match self.0 {
            Err(refusal) => write!(f, "{} -", u8::from(refusal)),
            Ok(Answer::Yes) => write!(f, "0 yes"),
            Ok(Answer::No) => write!(f, "0 no"),
            Ok(Answer::Nothing) => write!(f, "0 none"),
            Ok(Answer::Measured(n, levels)) => write!(f, "0 m:{n}/{levels}"),
            Ok(Answer::Typed(n, levels)) => write!(f, "0 {n}/{levels}"),
            Ok(Answer::Attribute(true, n, levels)) => write!(f, "0 r:{n}/{levels}"),
            Ok(Answer::Attribute(false, n, levels)) => write!(f, "0 o:{n}/{levels}"),
            Ok(Answer::Named(n)) => write!(f, "0 {n}"),
        }
    }
}

// Buffers, each behind a space and between brackets, in hexadecimal.
#[derive(Clone, Copy)]
pub struct Buffers<'a>(pub &'a [&'a [u8]]);

impl fmt::Display for Buffers<'_> {
    fn fmt<W: fmt::Write>(&self, f: &mut fmt::Formatter<W>) -> fmt::Result {
        for buffer in self.0 {
            write!(f, " [{}]", Hex(buffer))?;
        }
        Ok(())
    }
}

// Bytes in hexadecimal.
#[derive(Clone, Copy)]
struct Hex<'a>(&'a [u8]);

impl fmt::Display for Hex<'_> {
    fn fmt<W: fmt::Write>(&self, f: &mut fmt::Formatter<W>) -> fmt::Result {
        for byte in self.0 {
            write!(f, "{}", Byte(*byte))?;
        }
        Ok(())
    }
}

// A byte in hexadecimal, its two digits in one piece.
#[derive(Clone, Copy)]
pub struct Byte(pub u8);

impl fmt::Display for Byte {
    fn fmt<W: fmt::Write>(&self, f: &mut fmt::Formatter<W>) -> fmt::Result {
        let digits = [digit(self.0 / 16), digit(self.0 % 16)];
        f.write_str(str::from_utf8(&digits).unwrap_or(""))
    }
}

// A digit in hexadecimal.
fn digit(n: u8) -> u8
    requires { n < 16 }
{
    b"0123456789abcdef"[n as usize]
}

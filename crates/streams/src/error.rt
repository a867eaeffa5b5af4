// Standard error, and calls of the system that fail.
use std::io::{Cursor, Error, ErrorKind, Print, Write};
use std::thread::yield_now;
use std::{fmt, str};

// Why a program stops here stands on standard error.
#[derive(Clone, Copy)]
pub struct Stopped;

// Says why a program stops where it does.
pub fn stop(rt: &HostRuntime, why: &[u8]) -> Stopped {
    let _ = Print::write_all(&rt.stderr(), why);
    Stopped
}

// The system's words for an error, which std prints with its number behind them.
fn words(line: &[u8]) -> &str {
    let Ok(line) = str::from_utf8(line) else {
        return "";
    };
    match line.rsplit_once(" (os error ") {
        Some((words, _)) => words,
        None => line,
    }
}

// Writes a line to standard error: what failed, as the caller names it, a colon and the system's words.
fn fail(rt: &HostRuntime, what: &str, error: Error) -> Stopped {
    let mut line = Cursor::new([0u8; 256]);
    let _ = write!(line, "{error}");
    let n = line.position() as usize;
    let text = line.into_inner();
    let why = words(text.get(..n).unwrap_or(b""));
    let _ = eprintln!(rt; "{what}: {why}");
    Stopped
}

// Goes on where the call that just failed is worth another try: a signal came first, or the pipe was full or empty for now.
pub(crate) fn try_again(rt: &HostRuntime, what: &str, error: Error) -> Result<(), Stopped> {
    match error.kind() {
        ErrorKind::Interrupted => Ok(()),
        ErrorKind::WouldBlock => {
            yield_now();
            Ok(())
        }
        _ => Err(fail(rt, what, error)),
    }
}

// Only a write that fails keeps text from standard output.
impl From<fmt::Error> for Stopped {
    fn from(_: fmt::Error) -> Stopped {
        Stopped
    }
}

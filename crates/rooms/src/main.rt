// Puts calls with result buffers and workspaces of any size to the library's entries, and prints what each answered and left in its
// buffers; tests/rooms.txt has the calls and the lines.
#![tactic(auto)]

mod ask;
mod calls;
mod print;

ghost use Rattle.std.specs.Prelude.{◌≡◌, ◌+◌, length};

use ask::ask;
use calls::{Bodies, Call, LARGEST, call_of};
use streams::{Stopped, read_input, stop};

// Reads the numbers of the next call, or none at the end.
fn read_call(rt: &HostRuntime) -> Result<Option<Call>, Stopped> {
    let mut head = [0u8; Call::BYTES];
    match read_input(rt, &mut head)? {
        0 => Ok(None),
        Call::BYTES => Ok(Some(call_of(&head))),
        _ => Err(stop(rt, b"standard input: a call's numbers are cut short\n")),
    }
}

// Reads the bodies of a call, which fill buf, and prints its line.
fn print_call(rt: &HostRuntime, call: Call, buf: &mut [u8]) -> Result<(), Stopped>
    requires { length buf.old ≡ call.schema + call.first + call.second }
{
    if read_input(rt, buf)? < buf.len() {
        return Err(stop(rt, b"standard input: a call is cut short\n"));
    }
    let (schema, bodies) = buf.split_at(usize::from(call.schema));
    let (first, second) = bodies.split_at(usize::from(call.first));
    ask(
        rt,
        call,
        Bodies {
            schema,
            first,
            second,
        },
    )
}

// Prints the line of every call, in turn. The turns are more than any run takes.
fn run(rt: &HostRuntime) -> Result<(), Stopped> {
    let mut bodies = [0u8; 3 * LARGEST];
    for _ in 0..u64::MAX {
        let Some(call) = read_call(rt)? else {
            return Ok(());
        };
        let end = usize::from(call.schema) + usize::from(call.first) + usize::from(call.second);
        print_call(rt, call, &mut bodies[..end])?;
    }
    Ok(())
}

fn main(rt: HostRuntime) {
    let _ = run(&rt);
}

// Calls each C entry by position, and prints each answer's number and the bytes that it left; tests/entries.c does the same in C.
#![tactic(auto)]

mod calls;
mod checked_calls;
mod print;

use calls::{ask_all, ask_counted, ask_measured};
use checked_calls::{ask_all_checked, ask_broken, ask_counted_checked};
use forms::limits::Limits;
use streams::Stopped;
use trial::Form;

fn run(rt: &HostRuntime) -> Result<(), Stopped> {
    ask_all(rt, &Form::SCHEMA)?;
    ask_all_checked(rt, &Form::SCHEMA)?;
    ask_broken(rt, &Form::BROKEN)?;
    ask_counted(rt, &Form::FUNCTION)?;
    ask_counted_checked(rt, &Form::FUNCTION)?;
    ask_measured(rt, Limits::FEWEST_LEVELS - 1, Limits::BYTES)?;
    ask_measured(rt, Limits::LEVELS, Limits::MOST_BYTES + 1)?;
    ask_measured(rt, Limits::FEWEST_LEVELS, Limits::FEWEST_BYTES)
}

fn main(rt: HostRuntime) {
    let _ = run(&rt);
}

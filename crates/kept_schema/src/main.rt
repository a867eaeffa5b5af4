// Keeps schemas under limits, puts each call to what they hand out, by position, and prints what each answered and left in its buffers.
#![tactic(auto)]

mod ask;
mod beyond;
mod print;

use ask::Kept;
use forms::limits::Limits;
use reader::validator_schema::ValidatorSchema;
use streams::Stopped;
use trial::Form;

// Puts each call to a block that is kept under limits.
fn ask_kept(rt: &HostRuntime, limits: Limits, block: &[u8]) -> Result<(), Stopped> {
    let kept = ValidatorSchema::new(limits, block);
    Kept(kept.check()).ask_all(rt)
}

// The schema under limits of so many levels and bytes.
fn ask_under(rt: &HostRuntime, levels: usize, bytes: usize) -> Result<(), Stopped> {
    ask_kept(rt, Limits { levels, bytes }, &Form::SCHEMA)
}

fn run(rt: &HostRuntime) -> Result<(), Stopped> {
    ask_kept(rt, Limits::standard(), &Form::SCHEMA)?;
    ask_under(rt, Limits::FEWEST_LEVELS, Limits::BYTES)?;
    ask_under(rt, Limits::MOST_LEVELS, Limits::MOST_BYTES)?;
    ask_under(rt, Limits::FEWEST_LEVELS - 1, Limits::BYTES)?;
    ask_under(rt, Limits::LEVELS, Limits::FEWEST_BYTES - 1)?;
    ask_kept(rt, Limits::standard(), &Form::BROKEN)?;
    ask_kept(rt, Limits::standard(), &Form::FUNCTION)
}

fn main(rt: HostRuntime) {
    let _ = run(&rt);
}

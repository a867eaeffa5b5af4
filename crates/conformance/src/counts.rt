// How many arguments a call may have.
ghost use Rattle.std.specs.Prelude.{◌≡◌};
ghost use Rattle.cedar.specs.Conformance.{left_over};
ghost use Rattle.conformance.specs.Counts.{counts_of};
ghost use Rattle.conformance.specs.Verdicts.{verdict_of};

use crate::verdicts::Verdict;
use schemas::schema::Schema;

// Any number, or exactly as many as its function declares.
#[derive(Clone, Copy, Debug, PartialEq, Eq)]
pub enum Counts {
    Shorter,
    Exact,
}

// What a walk asks: how many arguments a call may have, and a checked schema.
#[derive(Clone, Copy)]
pub struct Under<'a> {
    pub counts: Counts,
    pub schema: Schema<'a>,
}

// What is said where one list of arguments has ended and the other has not.
pub fn left_over(counts: Counts) -> Verdict
    ensures { result ≡ verdict_of (left_over (counts_of counts)) }
{
    match counts {
        Counts::Shorter => Verdict::Holds,
        Counts::Exact => Verdict::Fails,
    }
}

// One number for an answer, and one for a part of the caller's form.
ghost use Rattle.std.specs.Prelude.{◌≡◌, ◌+◌, ◌*◌, ◌<◌, ◌≤◌};
ghost use Rattle.cedar.specs.Limits.{most_bytes};
ghost use Rattle.cedar.specs.Result.{ok};
ghost use Rattle.forms.specs.Refusals.{number_of};
ghost use Rattle.writing.specs.FormLengths.{seen};
ghost use Rattle.exports.specs.Steps.{kind_step};
ghost use Rattle.exports.specs.Numbers.{sizes, answer_number, Brief, part_number, Narrow};

use crate::checks::Packed;
use forms::refusals::Refusal;
use validator::answers::Answer;
use validator::own_attribute_type::OwnPart;

// The kind of an answer, in the low byte of its number.
#[derive(Clone, Copy)]
pub struct Kind;

impl Kind {
    pub const REFUSED: u64 = 0;

    pub const YES: u64 = 1;

    pub const NO: u64 = 2;

    pub const NOTHING: u64 = 3;

    pub const WROTE: u64 = 4;

    pub const OPTIONAL: u64 = 5;

    pub const REQUIRED: u64 = 6;

    pub const OPTIONAL_PART: u64 = 7;

    pub const REQUIRED_PART: u64 = 8;

    pub const MEASURED: u64 = 9;

    // What the number above the kind is multiplied by.
    pub const STEP: u64 = 256;
}

// A kind, with a length above it, and levels above that.
fn sized_number(kind: u64, length: usize, levels: usize) -> u64
    requires { (kind < 256) × (length ≤ most_bytes) × (levels ≤ most_bytes) }
    ensures { result ≡ kind + kind_step * sizes length levels }
{
    let above = length + Packed::STEP * levels;
    kind + Kind::STEP * (above as u64)
}

// A kind, with what is told of a form above it.
fn said_number(a: Answer) -> u64
    requires { Brief (ok a) }
    ensures { result ≡ answer_number (ok a) }
{
    match a {
        Answer::Yes => Kind::YES,
        Answer::No => Kind::NO,
        Answer::Nothing => Kind::NOTHING,
        Answer::Measured(n, levels) => sized_number(Kind::MEASURED, n, levels),
        Answer::Typed(n, levels) => sized_number(Kind::WROTE, n, levels),
        Answer::Attribute(required, n, levels) => {
            if required {
                return sized_number(Kind::REQUIRED, n, levels);
            }
            sized_number(Kind::OPTIONAL, n, levels)
        }
        Answer::Named(n) => sized_number(Kind::WROTE, n, 0),
    }
}

// A kind, with a part's start and end above it.
fn found_number(found: Option<OwnPart>) -> u64
    requires { Narrow (ok found) }
    ensures { result ≡ part_number (ok found) }
{
    let Some(part) = found else {
        return Kind::NOTHING;
    };
    let place = part.start + Packed::STEP * part.end;
    if part.required {
        return Kind::REQUIRED_PART + Kind::STEP * (place as u64);
    }
    Kind::OPTIONAL_PART + Kind::STEP * (place as u64)
}

// The kind of a refusal, with its number above it.
fn refusal_number(refusal: Refusal) -> u64
    ensures { result ≡ kind_step * number_of refusal }
{
    Kind::REFUSED + Kind::STEP * (u8::from(refusal) as u64)
}

// The number of what an entry answered.
pub fn answer_number(a: Result<Answer, Refusal>) -> u64
    requires { Brief (seen a) }
    ensures { result ≡ answer_number (seen a) }
{
    match a {
        Ok(answer) => said_number(answer),
        Err(refusal) => refusal_number(refusal),
    }
}

// The number of a part of the caller's form.
pub fn part_number(p: Result<Option<OwnPart>, Refusal>) -> u64
    requires { Narrow (seen p) }
    ensures { result ≡ part_number (seen p) }
{
    match p {
        Ok(found) => found_number(found),
        Err(refusal) => refusal_number(refusal),
    }
}

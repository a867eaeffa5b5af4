// The questions of a job, one after the other.
ghost use Rattle.std.specs.Prelude.{◌≡◌, ◌<◌, OnSome};
ghost use Rattle.jobs.specs.Walk.{count_of, start_of, QuestionAt};

use crate::operations::Operation;
use crate::whole::{Entry, JobForm, bodies_from, lengths};
use forms::numbers::u16_at;

// Where a walk over a job's questions stands: the index of a question, and where its bodies begin.
#[derive(Clone, Copy)]
pub struct Cursor {
    pub index: usize,
    pub body: usize,
}

// A question: what it asks, and its two bodies.
#[derive(Clone, Copy)]
pub struct Question<'a> {
    pub operation: Operation,
    pub mode: u8,
    pub attribute: u16,
    pub first: &'a [u8],
    pub second: &'a [u8],
}

// How many questions a job says it has.
#[tactic(auto, unfolding(crate::specs::Walk::count_of))]
pub fn count(job: &[u8]) -> usize
    ensures { (result ≡ count_of job.now) × (result < 65536) }
{
    if job.len() < JobForm::ENTRIES {
        return 0;
    }
    u16_at(job, JobForm::COUNT)
}

// The first question of a job.
#[tactic(auto, unfolding(crate::specs::Walk::start_of))]
pub fn start(job: &[u8]) -> Cursor
    ensures { result ≡ start_of job.now }
{
    if job.len() < JobForm::ENTRIES {
        return Cursor { index: 0, body: 0 };
    }
    let body = bodies_from(job);
    Cursor { index: 0, body }
}

// The question at which a cursor stands, and the cursor behind it; or none: the job has none of that index, no such operation, or
// not the bytes.
pub fn question_at(job: &[u8], cursor: Cursor) -> Option<(Question<'_>, Cursor)>
    ensures question { QuestionAt job.now cursor result }
    ensures small { OnSome result (cursor.index < 65536) }
{
    let Cursor { index, body } = cursor;
    if count(job) <= index {
        return None;
    }
    if job.len() < bodies_from(job) {
        return None;
    }
    let at = JobForm::ENTRIES + Entry::BYTES * index;
    let Ok(operation) = Operation::try_from(job[at]) else {
        return None;
    };
    let lengths = lengths(job, at);
    if job.len() < body {
        return None;
    }
    if job.len() - body < lengths {
        return None;
    }
    let end = body + lengths;
    let second = body + u16_at(job, at + Entry::FIRST_LENGTH);
    let question = Question {
        operation,
        mode: job[at + Entry::MODE],
        attribute: u16_at(job, at + Entry::ATTRIBUTE) as u16,
        first: &job[body..second],
        second: &job[second..end],
    };
    let next = Cursor {
        index: index + 1,
        body: end,
    };
    Some((question, next))
}

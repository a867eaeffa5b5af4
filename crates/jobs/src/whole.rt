// Whether bytes are a whole job.
ghost use Rattle.std.specs.Prelude.{◌≡◌, ◌+◌, ◌*◌, ◌≤◌, ◌<◌, length};
ghost use Rattle.cedar.specs.Types.{present};
ghost use Rattle.cedar.specs.JobForm.{taken_or_zero, whole_job};
ghost use Rattle.jobs.specs.JobBytes.{entry_fits, lengths_at, fits_from, schema_from, bodies_from};

use crate::operations::Operation;
use forms::limits::Limits;
use forms::numbers::u16_at;

// Where the parts of a job stand: the schema's length, the count of questions, their entries.
#[derive(Clone, Copy)]
pub struct JobForm;

impl JobForm {
    pub const SCHEMA_LENGTH: usize = 0;

    pub const COUNT: usize = 2;

    pub const ENTRIES: usize = 4;
}

// Where the fields of an entry stand, and how many bytes it takes.
#[derive(Clone, Copy)]
pub struct Entry;

impl Entry {
    pub const MODE: usize = 1;

    pub const ATTRIBUTE: usize = 2;

    pub const FIRST_LENGTH: usize = 4;

    pub const SECOND_LENGTH: usize = 6;

    pub const BYTES: usize = 8;
}

// How long the bodies of the entry at `at` are together.
#[tactic(auto, unfolding(crate::specs::JobBytes::lengths_at))]
pub fn lengths(job: &[u8], at: usize) -> usize
    requires { at + 8 ≤ length job.now }
    ensures { result ≡ lengths_at job.now at }
{
    u16_at(job, at + Entry::FIRST_LENGTH) + u16_at(job, at + Entry::SECOND_LENGTH)
}

// Whether a field is taken or 0.
fn taken_or_zero(taken: bool, n: usize) -> bool
    ensures { result ≡ taken_or_zero taken n }
{
    taken || n == 0
}

// Whether the entry at `at` has an operation, and 0 in the fields that this doesn't take.
fn entry_fits(job: &[u8], at: usize) -> bool
    requires { at + 8 ≤ length job.now }
    ensures { result ≡ entry_fits job.now at }
{
    let Ok(operation) = Operation::try_from(job[at]) else {
        return false;
    };
    taken_or_zero(operation.takes_mode(), usize::from(job[at + Entry::MODE]))
        && taken_or_zero(
            operation.takes_attribute(),
            u16_at(job, at + Entry::ATTRIBUTE),
        )
        && taken_or_zero(
            operation.takes_second(),
            u16_at(job, at + Entry::SECOND_LENGTH),
        )
}

// Whether n entries are in order, and their bodies are so many bytes.
fn entries_fit(job: &[u8], n: usize, bytes: usize) -> bool
    requires { 4 + 8 * n ≤ length job.now }
    ensures { result ≡ fits_from job.now n 4 bytes }
{
    let mut room = bytes;
    for index in 0..n {
        let at = JobForm::ENTRIES + Entry::BYTES * index;
        if !entry_fits(job, at) {
            return false;
        }
        let lengths = lengths(job, at);
        if room < lengths {
            return false;
        }
        room -= lengths;
    }
    room == 0
}

// Where the schema of a job begins, if it is that long: behind the entries.
pub fn schema_from(job: &[u8]) -> usize
    requires { 4 ≤ length job.now }
    ensures { (result ≡ schema_from job.now) × (result < 1048576) }
{
    JobForm::ENTRIES + Entry::BYTES * u16_at(job, JobForm::COUNT)
}

// Where the bodies of its questions begin: behind the schema.
pub fn bodies_from(job: &[u8]) -> usize
    requires { 4 ≤ length job.now }
    ensures { result ≡ bodies_from job.now }
{
    schema_from(job) + u16_at(job, JobForm::SCHEMA_LENGTH)
}

// Whether a job is whole.
pub fn whole_job(job: &[u8]) -> bool
    ensures { result ≡ present (whole_job job.now) }
{
    if Limits::BLOCK_BYTES < job.len() {
        return false;
    }
    if job.len() < JobForm::ENTRIES {
        return false;
    }
    let bodies = bodies_from(job);
    if job.len() < bodies {
        return false;
    }
    entries_fit(job, u16_at(job, JobForm::COUNT), job.len() - bodies)
}

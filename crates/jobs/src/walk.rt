// The lines of a job, one after the other.
ghost use Rattle.std.specs.Prelude.{◌≡◌, ◌<◌, OnSome};
ghost use Rattle.jobs.specs.Checks.{JobCheck};
ghost use Rattle.jobs.specs.Walk.{start_of, ahead, LineWritten};

use crate::answers::ask;
use crate::checks::check_job;
use crate::lines::put_line;
use crate::questions::{Cursor, question_at, start};
use crate::steps::Buffers;
use schemas::checked::Checked;

// A walk over a job's questions: the job, its schema as it was checked, and where the walk stands.
#[derive(Clone, Copy)]
pub struct Walk<'a> {
    pub job: &'a [u8],
    pub schema: Checked<'a>,
    pub cursor: Cursor,
    pub ghost own_check: { JobCheck job.now schema },
}

impl<'a> Walk<'a> {
    // A walk from the first question on, under the job's schema as it is checked here.
    pub fn new(job: &'a [u8]) -> Walk<'a>
        ensures { (result.job ≡ job.entry) × (result.cursor ≡ start_of job.entry.now) }
    {
        Walk {
            job,
            schema: check_job(job),
            cursor: start(job),
        }
    }

    // Writes the line of the next question, and returns how long it is; or none where no question stands.
    pub fn next_line(&mut self, out: &mut [u8; Buffers::LINE]) -> Option<usize>
        ensures job { self.new.job ≡ self.old.job }
        ensures line { LineWritten self.old.job.now self.old.cursor out.old out.new result self.new.cursor }
        ensures fewer { OnSome result (ahead self.new.job.now self.new.cursor < ahead self.old.job.now self.old.cursor) }
    {
        let job = self.job;
        let Cursor { index, .. } = self.cursor;
        let (question, next) = question_at(job, self.cursor)?;
        self.cursor = next;
        let mut result = [0u8; Buffers::RESULT];
        let answer = ask(question, &self.schema, &mut result);
        Some(put_line(index, answer, &result, out))
    }
}

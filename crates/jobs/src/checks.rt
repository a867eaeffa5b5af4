// The check of a job's schema, made once for all its questions.
ghost use Rattle.jobs.specs.Checks.{JobCheck};

use crate::whole::{JobForm, bodies_from, schema_from};
use forms::limits::Limits;
use schemas::checked::Checked;

// The check of a job's schema under the standard limits; of a job that is cut short before its bodies, that of no bytes.
pub fn check_job(job: &[u8]) -> Checked<'_>
    ensures { JobCheck job.now result }
{
    let limits = Limits::standard();
    if job.len() < JobForm::ENTRIES {
        return Checked::new(limits, &job[..0]);
    }
    let schema = schema_from(job);
    let bodies = bodies_from(job);
    if job.len() < bodies {
        return Checked::new(limits, &job[..0]);
    }
    Checked::new(limits, &job[schema..bodies])
}

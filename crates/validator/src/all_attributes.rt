// The names of a type's attributes.
ghost use Rattle.std.specs.Prelude.{◌≡◌, ◌≤◌, length};
ghost use Rattle.cedar.specs.Limits.{most_bytes};
ghost use Rattle.cedar.specs.Calls.{names_call};
ghost use Rattle.forms.specs.Limits.{as_limits};
ghost use Rattle.schemas.specs.Schema.{limits_in};
ghost use Rattle.writing.specs.FormLengths.{seen};
ghost use Rattle.validator.specs.Answers.{Answered, AnsweredIn};

use crate::answers::Answer;
use crate::rooms::answer_fits;
use crate::workspaces::clear;
use forms::limits::Limits;
use forms::refusals::Refusal;
use forms::types::whole_type;
use lookups::all_attributes::all_names;
use schemas::checked::Checked;
use schemas::schema::Schema;
use writing::writers::copy;

// The answer for a whole schema, with the workspace as the steps left it; `last` and `kept` have room for any form.
fn named(
    schema: &Schema<'_>,
    t: &[u8],
    last: &mut [u8],
    kept: &mut [u8],
    out: &mut [u8],
    work: &mut [u8],
) -> Result<Answer, Refusal>
    requires last_room { schema.now.sections.limits.bytes ≤ length last.old }
    requires kept_room { (schema.now.sections.limits.bytes ≤ length kept.old) × (length kept.old ≤ most_bytes) }
    ensures { Answered (names_call (limits_in schema.now) schema.now.bytes.now t.now (length out.old) (length work.old)) out.old out.new (seen result) }
{
    let limits = schema.sections.limits;
    if !whole_type(t, limits) {
        return Err(Refusal::First);
    }
    let Ok(n) = all_names(schema, t, last, work, kept) else {
        return Err(Refusal::Workspace);
    };
    if !answer_fits(limits, n, out.len()) {
        return Err(Refusal::Answer);
    }
    copy(&kept[0..n], out);
    Ok(Answer::Named(n))
}

// The answer by the limits of a check. No more bytes are cleared for a form than the smaller of two sizes has that fits.
fn named_under(
    schema: &Checked<'_>,
    t: &[u8],
    out: &mut [u8],
    work: &mut [u8],
) -> Result<Answer, Refusal>
    ensures { Answered (names_call (as_limits schema.now.limits) schema.now.bytes.now t.now (length out.old) (length work.old)) out.old out.new (seen result) }
{
    if !schema.limits.are_allowed() {
        return Err(Refusal::Limits);
    }
    let Some(whole) = schema.whole() else {
        return Err(Refusal::Schema);
    };
    if whole.sections.limits.bytes <= Limits::BYTES {
        let mut last = [0u8; Limits::BYTES];
        let mut kept = [0u8; Limits::BYTES];
        return named(&whole, t, &mut last, &mut kept, out, work);
    }
    let mut last = [0u8; Limits::MOST_BYTES];
    let mut kept = [0u8; Limits::MOST_BYTES];
    named(&whole, t, &mut last, &mut kept, out, work)
}

// The answer under a schema that was checked before, and the limits of its check.
pub fn all_attributes_checked(
    schema: &Checked<'_>,
    t: &[u8],
    out: &mut [u8],
    work: &mut [u8],
) -> Result<Answer, Refusal>
    ensures { AnsweredIn (names_call (as_limits schema.now.limits) schema.now.bytes.now t.now (length out.old) (length work.old)) out.old out.new work.old work.new (seen result) }
{
    let answer = named_under(schema, t, out, work);
    clear(work);
    answer
}

pub fn all_attributes(
    limits: Limits,
    schema: &[u8],
    t: &[u8],
    out: &mut [u8],
    work: &mut [u8],
) -> Result<Answer, Refusal>
    ensures { AnsweredIn (names_call (as_limits limits) schema.now t.now (length out.old) (length work.old)) out.old out.new work.old work.new (seen result) }
{
    all_attributes_checked(&Checked::new(limits, schema), t, out, work)
}

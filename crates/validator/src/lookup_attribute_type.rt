// The attribute of a type, with its required flag.
ghost use Rattle.std.specs.Prelude.{◌≡◌, ◌≤◌, length};
ghost use Rattle.cedar.specs.Calls.{lookup_call};
ghost use Rattle.forms.specs.Limits.{as_limits};
ghost use Rattle.schemas.specs.Schema.{limits_in};
ghost use Rattle.writing.specs.FormLengths.{seen};
ghost use Rattle.validator.specs.Answers.{Answered, AnsweredIn};

use crate::answers::Answer;
use crate::rooms::answer_fits;
use crate::workspaces::clear;
use forms::limits::Limits;
use forms::refusals::Refusal;
use forms::types::whole_type;
use levels::depths::type_levels;
use lookups::lookup_attribute_type::look_up;
use schemas::checked::Checked;
use schemas::schema::Schema;
use writing::writers::copy;

// The answer for a whole schema, with the workspace as the steps left it; `last` has room for any form.
fn looked_up(
    schema: &Schema<'_>,
    attr: u16,
    t: &[u8],
    last: &mut [u8],
    out: &mut [u8],
    work: &mut [u8],
) -> Result<Answer, Refusal>
    requires last_room { schema.now.sections.limits.bytes ≤ length last.old }
    ensures { Answered (lookup_call (limits_in schema.now) schema.now.bytes.now attr t.now (length out.old) (length work.old)) out.old out.new (seen result) }
{
    let limits = schema.sections.limits;
    if !whole_type(t, limits) {
        return Err(Refusal::First);
    }
    let Ok(looked) = look_up(schema, t, attr as usize, last, work) else {
        return Err(Refusal::Workspace);
    };
    let Some(found) = looked else {
        return Ok(Answer::Nothing);
    };
    if !answer_fits(limits, found.bytes, out.len()) {
        return Err(Refusal::Answer);
    }
    let form = &last[0..found.bytes];
    copy(form, out);
    Ok(Answer::Attribute(
        found.required,
        found.bytes,
        type_levels(form, limits.levels - 1),
    ))
}

// The answer by the limits of a check. No more bytes are cleared for a form than the smaller of two sizes has that fits.
fn looked_up_under(
    schema: &Checked<'_>,
    attr: u16,
    t: &[u8],
    out: &mut [u8],
    work: &mut [u8],
) -> Result<Answer, Refusal>
    ensures { Answered (lookup_call (as_limits schema.now.limits) schema.now.bytes.now attr t.now (length out.old) (length work.old)) out.old out.new (seen result) }
{
    if !schema.limits.are_allowed() {
        return Err(Refusal::Limits);
    }
    let Some(whole) = schema.whole() else {
        return Err(Refusal::Schema);
    };
    if whole.sections.limits.bytes <= Limits::BYTES {
        let mut last = [0u8; Limits::BYTES];
        return looked_up(&whole, attr, t, &mut last, out, work);
    }
    let mut last = [0u8; Limits::MOST_BYTES];
    looked_up(&whole, attr, t, &mut last, out, work)
}

// The answer under a schema that was checked before, and the limits of its check.
pub fn lookup_attribute_type_checked(
    schema: &Checked<'_>,
    attr: u16,
    t: &[u8],
    out: &mut [u8],
    work: &mut [u8],
) -> Result<Answer, Refusal>
    ensures { AnsweredIn (lookup_call (as_limits schema.now.limits) schema.now.bytes.now attr t.now (length out.old) (length work.old)) out.old out.new work.old work.new (seen result) }
{
    let answer = looked_up_under(schema, attr, t, out, work);
    clear(work);
    answer
}

pub fn lookup_attribute_type(
    limits: Limits,
    schema: &[u8],
    attr: u16,
    t: &[u8],
    out: &mut [u8],
    work: &mut [u8],
) -> Result<Answer, Refusal>
    ensures { AnsweredIn (lookup_call (as_limits limits) schema.now attr t.now (length out.old) (length work.old)) out.old out.new work.old work.new (seen result) }
{
    lookup_attribute_type_checked(&Checked::new(limits, schema), attr, t, out, work)
}

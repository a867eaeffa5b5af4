// The least upper bound of a list of types.
ghost use Rattle.std.specs.Prelude.{◌≡◌, true, ◌≤◌, length};
ghost use Rattle.cedar.specs.Limits.{allowed};
ghost use Rattle.cedar.specs.Calls.{fold_call};
ghost use Rattle.forms.specs.Limits.{as_limits};
ghost use Rattle.writing.specs.FormLengths.{seen};
ghost use Rattle.validator.specs.Answers.{Answered, AnsweredIn};

use crate::answers::Answer;
use crate::rooms::answer_fits;
use crate::workspaces::clear;
use folds::lists::fold_types;
use forms::limits::Limits;
use forms::lists::whole_list;
use forms::modes::Mode;
use forms::refusals::Refusal;
use levels::depths::type_levels;
use schemas::checked::Checked;
use writing::writers::copy;

// The answer under limits that are allowed, with the workspace as the steps left it; `last` has room for any form.
fn reduced(
    schema: &Checked<'_>,
    mode: u8,
    list: &[u8],
    last: &mut [u8],
    out: &mut [u8],
    work: &mut [u8],
) -> Result<Answer, Refusal>
    requires fair { allowed (as_limits schema.now.limits) ≡ true }
    requires last_room { schema.now.limits.bytes ≤ length last.old }
    ensures { Answered (fold_call (as_limits schema.now.limits) mode schema.now.bytes.now list.now (length out.old) (length work.old)) out.old out.new (seen result) }
{
    let limits = schema.limits;
    let m = Mode::try_from(mode)?;
    let Some(_) = schema.sections else {
        return Err(Refusal::Schema);
    };
    if !whole_list(list, limits) {
        return Err(Refusal::First);
    }
    let n = fold_types(m, list, limits, last, work)?;
    if !answer_fits(limits, n, out.len()) {
        return Err(Refusal::Answer);
    }
    let form = &last[0..n];
    copy(form, out);
    Ok(Answer::Typed(n, type_levels(form, limits.levels)))
}

// The answer by the limits of a check. No more bytes are cleared for a form than the smaller of two sizes has that fits.
fn reduced_under(
    schema: &Checked<'_>,
    mode: u8,
    list: &[u8],
    out: &mut [u8],
    work: &mut [u8],
) -> Result<Answer, Refusal>
    ensures { Answered (fold_call (as_limits schema.now.limits) mode schema.now.bytes.now list.now (length out.old) (length work.old)) out.old out.new (seen result) }
{
    let limits = schema.limits;
    if !limits.are_allowed() {
        return Err(Refusal::Limits);
    }
    if limits.bytes <= Limits::BYTES {
        let mut last = [0u8; Limits::BYTES];
        return reduced(schema, mode, list, &mut last, out, work);
    }
    let mut last = [0u8; Limits::MOST_BYTES];
    reduced(schema, mode, list, &mut last, out, work)
}

// The answer under a schema that was checked before, and the limits of its check.
pub fn reduce_to_least_upper_bound_checked(
    schema: &Checked<'_>,
    mode: u8,
    list: &[u8],
    out: &mut [u8],
    work: &mut [u8],
) -> Result<Answer, Refusal>
    ensures { AnsweredIn (fold_call (as_limits schema.now.limits) mode schema.now.bytes.now list.now (length out.old) (length work.old)) out.old out.new work.old work.new (seen result) }
{
    let answer = reduced_under(schema, mode, list, out, work);
    clear(work);
    answer
}

pub fn reduce_to_least_upper_bound(
    limits: Limits,
    mode: u8,
    schema: &[u8],
    list: &[u8],
    out: &mut [u8],
    work: &mut [u8],
) -> Result<Answer, Refusal>
    ensures { AnsweredIn (fold_call (as_limits limits) mode schema.now list.now (length out.old) (length work.old)) out.old out.new work.old work.new (seen result) }
{
    reduce_to_least_upper_bound_checked(&Checked::new(limits, schema), mode, list, out, work)
}

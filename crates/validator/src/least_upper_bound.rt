// The least upper bound of two types.
ghost use Rattle.std.specs.Prelude.{◌≡◌, length};
ghost use Rattle.cedar.specs.Calls.{bound_call};
ghost use Rattle.forms.specs.Limits.{as_limits};
ghost use Rattle.writing.specs.FormLengths.{seen};
ghost use Rattle.validator.specs.Answers.{Answered};

use crate::answers::Answer;
use crate::rooms::answer_fits;
use bound_lengths::bound_length::bound_length;
use bounds::bound_writes::write_bound;
use forms::limits::Limits;
use forms::modes::Mode;
use forms::refusals::Refusal;
use forms::type_forms::TypeForm;
use levels::depths::type_levels;
use schemas::checked::Checked;

// The answer under a schema that was checked before, and the limits of its check.
#[inline(always)]
pub fn least_upper_bound_checked(
    schema: &Checked<'_>,
    mode: u8,
    t0: &[u8],
    t1: &[u8],
    out: &mut [u8],
) -> Result<Answer, Refusal>
    ensures { Answered (bound_call (as_limits schema.now.limits) mode schema.now.bytes.now t0.now t1.now (length out.old)) out.old out.new (seen result) }
{
    let limits = schema.limits;
    if !limits.are_allowed() {
        return Err(Refusal::Limits);
    }
    let m = Mode::try_from(mode)?;
    let Some(_) = schema.sections else {
        return Err(Refusal::Schema);
    };
    let Some(first) = TypeForm::within(t0, limits) else {
        return Err(Refusal::First);
    };
    let Some(second) = TypeForm::within(t1, limits) else {
        return Err(Refusal::Second);
    };
    let n = bound_length(m, first, second)?;
    if !answer_fits(limits, n, out.len()) {
        return Err(Refusal::Answer);
    }
    write_bound(m, first.bytes, second.bytes, limits.levels, Some(n), out);
    let form = &out[0..n];
    Ok(Answer::Typed(n, type_levels(form, limits.levels)))
}

pub fn least_upper_bound(
    limits: Limits,
    mode: u8,
    schema: &[u8],
    t0: &[u8],
    t1: &[u8],
    out: &mut [u8],
) -> Result<Answer, Refusal>
    ensures { Answered (bound_call (as_limits limits) mode schema.now t0.now t1.now (length out.old)) out.old out.new (seen result) }
{
    least_upper_bound_checked(&Checked::new(limits, schema), mode, t0, t1, out)
}

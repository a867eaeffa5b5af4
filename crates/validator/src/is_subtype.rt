// Whether a type is a subtype of another.
ghost use Rattle.std.specs.Prelude.{◌≡◌};
ghost use Rattle.cedar.specs.Calls.{subtype_call};
ghost use Rattle.forms.specs.Limits.{as_limits};
ghost use Rattle.writing.specs.FormLengths.{seen};
ghost use Rattle.validator.specs.Answers.{answer_of};

use crate::answers::{Answer, yes_or_no};
use forms::limits::Limits;
use forms::modes::Mode;
use forms::refusals::Refusal;
use forms::type_forms::TypeForm;
use schemas::checked::Checked;

// The answer under a schema that was checked before, and the limits of its check.
#[inline(always)]
pub fn is_subtype_checked(
    schema: &Checked<'_>,
    mode: u8,
    t0: &[u8],
    t1: &[u8],
) -> Result<Answer, Refusal>
    ensures { seen result ≡ answer_of (subtype_call (as_limits schema.now.limits) mode schema.now.bytes.now t0.now t1.now) }
{
    let limits = schema.limits;
    if !limits.are_allowed() {
        return Err(Refusal::Limits);
    }
    let m = Mode::try_from(mode)?;
    let Some(_) = schema.sections else {
        return Err(Refusal::Schema);
    };
    let Some(first) = TypeForm::within(t0, limits) else {
        return Err(Refusal::First);
    };
    let Some(second) = TypeForm::within(t1, limits) else {
        return Err(Refusal::Second);
    };
    Ok(yes_or_no(relations::is_subtype::is_subtype(m, first, second)))
}

pub fn is_subtype(
    limits: Limits,
    mode: u8,
    schema: &[u8],
    t0: &[u8],
    t1: &[u8],
) -> Result<Answer, Refusal>
    ensures { seen result ≡ answer_of (subtype_call (as_limits limits) mode schema.now t0.now t1.now) }
{
    is_subtype_checked(&Checked::new(limits, schema), mode, t0, t1)
}

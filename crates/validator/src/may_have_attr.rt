// Whether a value of a type might have an attribute.
ghost use Rattle.std.specs.Prelude.{◌≡◌};
ghost use Rattle.cedar.specs.Calls.{may_have_call};
ghost use Rattle.forms.specs.Limits.{as_limits};
ghost use Rattle.schemas.specs.Schema.{limits_in};
ghost use Rattle.writing.specs.FormLengths.{seen};
ghost use Rattle.validator.specs.Answers.{answer_of};

use crate::answers::{Answer, yes_or_no};
use forms::limits::Limits;
use forms::refusals::Refusal;
use forms::type_forms::TypeForm;
use schemas::checked::Checked;
use schemas::schema::Schema;

// The answer for a whole schema.
#[inline(always)]
fn may_have_under(schema: &Schema<'_>, attr: u16, t: &[u8]) -> Result<Answer, Refusal>
    ensures { seen result ≡ answer_of (may_have_call (limits_in schema.now) schema.now.bytes.now attr t.now) }
{
    let Some(whole) = TypeForm::within(t, schema.sections.limits) else {
        return Err(Refusal::First);
    };
    Ok(yes_or_no(attributes::may_have_attr::may_have_attr(schema, whole, attr as usize)))
}

// The answer under a schema that was checked before, and the limits of its check.
#[inline(always)]
pub fn may_have_attr_checked(schema: &Checked<'_>, attr: u16, t: &[u8]) -> Result<Answer, Refusal>
    ensures { seen result ≡ answer_of (may_have_call (as_limits schema.now.limits) schema.now.bytes.now attr t.now) }
{
    if !schema.limits.are_allowed() {
        return Err(Refusal::Limits);
    }
    let Some(whole) = schema.whole() else {
        return Err(Refusal::Schema);
    };
    may_have_under(&whole, attr, t)
}

pub fn may_have_attr(limits: Limits, schema: &[u8], attr: u16, t: &[u8]) -> Result<Answer, Refusal>
    ensures { seen result ≡ answer_of (may_have_call (as_limits limits) schema.now attr t.now) }
{
    may_have_attr_checked(&Checked::new(limits, schema), attr, t)
}

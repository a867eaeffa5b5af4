// Whether both types name entity types, and none in common.
ghost use Rattle.std.specs.Prelude.{◌≡◌, true};
ghost use Rattle.cedar.specs.Limits.{allowed};
ghost use Rattle.cedar.specs.Calls.{disjoint_call};
ghost use Rattle.forms.specs.Limits.{as_limits};
ghost use Rattle.writing.specs.FormLengths.{seen};
ghost use Rattle.validator.specs.Answers.{answer_of};

use crate::answers::{Answer, yes_or_no};
use forms::limits::Limits;
use forms::refusals::Refusal;
use forms::type_forms::TypeForm;

// The answer under limits that are allowed.
fn disjoint_under(limits: Limits, t0: &[u8], t1: &[u8]) -> Result<Answer, Refusal>
    requires { allowed (as_limits limits) ≡ true }
    ensures { seen result ≡ answer_of (disjoint_call (as_limits limits) t0.now t1.now) }
{
    let Some(first) = TypeForm::within(t0, limits) else {
        return Err(Refusal::First);
    };
    let Some(second) = TypeForm::within(t1, limits) else {
        return Err(Refusal::Second);
    };
    Ok(yes_or_no(relations::are_types_disjoint::are_types_disjoint(first, second)))
}

pub fn are_types_disjoint(limits: Limits, t0: &[u8], t1: &[u8]) -> Result<Answer, Refusal>
    ensures { seen result ≡ answer_of (disjoint_call (as_limits limits) t0.now t1.now) }
{
    if !limits.are_allowed() {
        return Err(Refusal::Limits);
    }
    disjoint_under(limits, t0, t1)
}

// Whether a type is consistent with a plain one, by the Rust's test; neither answer says whether a value has both.
ghost use Rattle.std.specs.Prelude.{◌≡◌, true};
ghost use Rattle.cedar.specs.Limits.{allowed};
ghost use Rattle.cedar.specs.Calls.{consistent_call};
ghost use Rattle.forms.specs.Limits.{as_limits};
ghost use Rattle.writing.specs.FormLengths.{seen};
ghost use Rattle.validator.specs.Answers.{answer_of};

use crate::answers::{Answer, yes_or_no};
use forms::limits::Limits;
use forms::refusals::Refusal;
use forms::type_forms::TypeForm;
use relations::is_plain::is_plain;

// The answer under limits that are allowed.
fn consistent_under(limits: Limits, t0: &[u8], t1: &[u8]) -> Result<Answer, Refusal>
    requires { allowed (as_limits limits) ≡ true }
    ensures { seen result ≡ answer_of (consistent_call (as_limits limits) t0.now t1.now) }
{
    let Some(first) = TypeForm::within(t0, limits) else {
        return Err(Refusal::First);
    };
    let Some(second) = TypeForm::within(t1, limits) else {
        return Err(Refusal::Second);
    };
    if !is_plain(second) {
        return Err(Refusal::NotPlain);
    }
    Ok(yes_or_no(relations::is_consistent_with::is_consistent_with(first, second)))
}

pub fn is_consistent_with(limits: Limits, t0: &[u8], t1: &[u8]) -> Result<Answer, Refusal>
    ensures { seen result ≡ answer_of (consistent_call (as_limits limits) t0.now t1.now) }
{
    if !limits.are_allowed() {
        return Err(Refusal::Limits);
    }
    consistent_under(limits, t0, t1)
}

// How long a type's form is, and how many levels it has.
ghost use Rattle.std.specs.Prelude.{◌≡◌};
ghost use Rattle.cedar.specs.Calls.{measure_type_call};
ghost use Rattle.forms.specs.Limits.{as_limits};
ghost use Rattle.writing.specs.FormLengths.{seen};
ghost use Rattle.validator.specs.Answers.{answer_of};

use crate::answers::Answer;
use forms::limits::Limits;
use forms::refusals::Refusal;
use forms::types::whole_type;
use levels::depths::type_levels;

pub fn measure_type(limits: Limits, t: &[u8]) -> Result<Answer, Refusal>
    ensures { seen result ≡ answer_of (measure_type_call (as_limits limits) t.now) }
{
    if !limits.are_allowed() {
        return Err(Refusal::Limits);
    }
    if !whole_type(t, limits) {
        return Err(Refusal::First);
    }
    Ok(Answer::Measured(t.len(), type_levels(t, limits.levels)))
}

// How long a value's form is, and how many levels it has.
ghost use Rattle.std.specs.Prelude.{◌≡◌};
ghost use Rattle.cedar.specs.Calls.{measure_value_call};
ghost use Rattle.forms.specs.Limits.{as_limits};
ghost use Rattle.writing.specs.FormLengths.{seen};
ghost use Rattle.validator.specs.Answers.{answer_of};

use crate::answers::Answer;
use forms::limits::Limits;
use forms::refusals::Refusal;
use forms::values::whole_value;
use levels::depths::value_levels;
use strings::values::is_textual;

pub fn measure_value(limits: Limits, v: &[u8]) -> Result<Answer, Refusal>
    ensures { seen result ≡ answer_of (measure_value_call (as_limits limits) v.now) }
{
    if !limits.are_allowed() {
        return Err(Refusal::Limits);
    }
    if !whole_value(v, limits) {
        return Err(Refusal::Value);
    }
    if !is_textual(v, limits.levels) {
        return Err(Refusal::Text);
    }
    Ok(Answer::Measured(v.len(), value_levels(v, limits.levels)))
}

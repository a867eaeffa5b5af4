// `TryFrom<Type>` into `CoreSchemaType`.
ghost use Rattle.std.specs.Prelude.{◌≡◌, true, length};
ghost use Rattle.cedar.specs.Limits.{allowed};
ghost use Rattle.cedar.specs.Calls.{convert_call};
ghost use Rattle.forms.specs.Limits.{as_limits};
ghost use Rattle.writing.specs.FormLengths.{seen};
ghost use Rattle.validator.specs.Answers.{Answered};

use crate::answers::Answer;
use crate::rooms::answer_fits;
use conversions::core_types::{core_length, write_core};
use forms::limits::Limits;
use forms::refusals::Refusal;
use forms::type_forms::TypeForm;
use levels::depths::type_levels;

// The answer under limits that are allowed.
fn convert_under(limits: Limits, t: &[u8], out: &mut [u8]) -> Result<Answer, Refusal>
    requires { allowed (as_limits limits) ≡ true }
    ensures { Answered (convert_call (as_limits limits) t.now (length out.old)) out.old out.new (seen result) }
{
    let Some(whole) = TypeForm::within(t, limits) else {
        return Err(Refusal::First);
    };
    let n = core_length(whole)?;
    if !answer_fits(limits, n, out.len()) {
        return Err(Refusal::Answer);
    }
    write_core(whole, out);
    let form = &out[0..n];
    Ok(Answer::Typed(n, type_levels(form, limits.levels)))
}

// The core type of a type.
pub fn convert(limits: Limits, t: &[u8], out: &mut [u8]) -> Result<Answer, Refusal>
    ensures { Answered (convert_call (as_limits limits) t.now (length out.old)) out.old out.new (seen result) }
{
    if !limits.are_allowed() {
        return Err(Refusal::Limits);
    }
    convert_under(limits, t, out)
}

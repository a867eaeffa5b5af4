// Has a value a type under a schema? `Type::typecheck_restricted_expr`; exact, with as many arguments in a call as its function declares.
ghost use Rattle.std.specs.Prelude.{◌≡◌};
ghost use Rattle.cedar.specs.Calls.{conforms_by, conforms_call, full_call};
ghost use Rattle.forms.specs.Limits.{as_limits};
ghost use Rattle.conformance.specs.Counts.{counts_of};
ghost use Rattle.schemas.specs.Schema.{limits_in};
ghost use Rattle.writing.specs.FormLengths.{seen};
ghost use Rattle.validator.specs.Answers.{answer_of};

use crate::answers::Answer;
use conformance::conforms::conforms;
use conformance::counts::{Counts, Under};
use conformance::verdicts::Verdict;
use forms::limits::Limits;
use forms::refusals::Refusal;
use forms::types::whole_type;
use forms::values::whole_value;
use schemas::checked::Checked;
use schemas::schema::Schema;
use strings::values::is_textual;

// The answer for a whole schema.
fn conforms_under(
    counts: Counts,
    schema: &Schema<'_>,
    t: &[u8],
    v: &[u8],
) -> Result<Answer, Refusal>
    ensures { seen result ≡ answer_of (conforms_by (counts_of counts) (limits_in schema.now) schema.now.bytes.now t.now v.now) }
{
    let limits = schema.sections.limits;
    if !whole_type(t, limits) {
        return Err(Refusal::First);
    }
    if !whole_value(v, limits) {
        return Err(Refusal::Value);
    }
    if !is_textual(v, limits.levels) {
        return Err(Refusal::Text);
    }
    let under = Under {
        counts,
        schema: *schema,
    };
    let said = conforms(&under, t, v, limits.levels);
    match said {
        Verdict::Holds => Ok(Answer::Yes),
        Verdict::Fails => Ok(Answer::No),
        Verdict::FailsInside => Ok(Answer::No),
        Verdict::Unknown => Err(Refusal::Function),
    }
}

// The answer under a schema that was checked before, and the limits of its check.
fn conforms_checked(
    counts: Counts,
    schema: &Checked<'_>,
    t: &[u8],
    v: &[u8],
) -> Result<Answer, Refusal>
    ensures { seen result ≡ answer_of (conforms_by (counts_of counts) (as_limits schema.now.limits) schema.now.bytes.now t.now v.now) }
{
    if !schema.limits.are_allowed() {
        return Err(Refusal::Limits);
    }
    let Some(whole) = schema.whole() else {
        return Err(Refusal::Schema);
    };
    conforms_under(counts, &whole, t, v)
}

// Conformance under a schema that was checked before.
pub fn typecheck_restricted_expr_checked(
    schema: &Checked<'_>,
    t: &[u8],
    v: &[u8],
) -> Result<Answer, Refusal>
    ensures { seen result ≡ answer_of (conforms_call (as_limits schema.now.limits) schema.now.bytes.now t.now v.now) }
{
    conforms_checked(Counts::Shorter, schema, t, v)
}

// Yes, no, or the number of the first question that has a no.
pub fn typecheck_restricted_expr(
    limits: Limits,
    schema: &[u8],
    t: &[u8],
    v: &[u8],
) -> Result<Answer, Refusal>
    ensures { seen result ≡ answer_of (conforms_call (as_limits limits) schema.now t.now v.now) }
{
    typecheck_restricted_expr_checked(&Checked::new(limits, schema), t, v)
}

// Full conformance under a schema that was checked before.
pub fn typecheck_restricted_expr_exact_checked(
    schema: &Checked<'_>,
    t: &[u8],
    v: &[u8],
) -> Result<Answer, Refusal>
    ensures { seen result ≡ answer_of (full_call (as_limits schema.now.limits) schema.now.bytes.now t.now v.now) }
{
    conforms_checked(Counts::Exact, schema, t, v)
}

// Full conformance: a call that the walk reaches with another count of arguments than its function declares is a no.
pub fn typecheck_restricted_expr_exact(
    limits: Limits,
    schema: &[u8],
    t: &[u8],
    v: &[u8],
) -> Result<Answer, Refusal>
    ensures { seen result ≡ answer_of (full_call (as_limits limits) schema.now t.now v.now) }
{
    typecheck_restricted_expr_exact_checked(&Checked::new(limits, schema), t, v)
}

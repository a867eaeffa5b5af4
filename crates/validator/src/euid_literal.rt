// The type of a uid.
ghost use Rattle.std.specs.Prelude.{◌≡◌, length};
ghost use Rattle.cedar.specs.Types.{present};
ghost use Rattle.cedar.specs.Bytes.{Bytes};
ghost use Rattle.cedar.specs.Calls.{literal_call};
ghost use Rattle.forms.specs.Limits.{as_limits};
ghost use Rattle.validator.specs.Answers.{Answered};
ghost use Rattle.schemas.specs.Schema.{limits_in};
ghost use Rattle.writing.specs.FormLengths.{seen};
ghost use Rattle.validator.specs.Uids.{uid_of};

use crate::answers::Answer;
use crate::rooms::answer_fits;
use attributes::euid_literal::find_literal;
use forms::kinds::ValueKind;
use forms::limits::Limits;
use forms::numbers::u16_at;
use forms::offsets::ValueOffset;
use forms::refusals::Refusal;
use forms::values::whole_value;
use schemas::checked::Checked;
use schemas::schema::Schema;

// Whether v is a whole value form, of a uid.
fn whole_uid(v: &[u8], limits: Limits) -> bool
    ensures { result ≡ present (uid_of (as_limits limits) v.now) }
{
    if !whole_value(v, limits) {
        return false;
    }
    v[0] == ValueKind::Uid as u8
}

// The answer for a whole schema.
#[inline(always)]
fn literal_under(schema: &Schema<'_>, v: &[u8], out: &mut [u8]) -> Result<Answer, Refusal>
    requires { Bytes schema.now.bytes.now }
    ensures { Answered (literal_call (limits_in schema.now) schema.now.bytes.now v.now (length out.old)) out.old out.new (seen result) }
{
    let limits = schema.sections.limits;
    if !whole_uid(v, limits) {
        return Err(Refusal::Value);
    }
    let entity = u16_at(v, ValueOffset::UID_TYPE);
    let Some(found) = find_literal(schema, entity, u16_at(v, ValueOffset::UID_ID)) else {
        return Ok(Answer::Nothing);
    };
    let n = found.length();
    if !answer_fits(limits, n, out.len()) {
        return Err(Refusal::Answer);
    }
    found.write(entity, out);
    Ok(Answer::Typed(n, found.levels(limits)))
}

// The answer under a schema that was checked before, and the limits of its check.
#[inline(always)]
pub fn euid_literal_checked(
    schema: &Checked<'_>,
    v: &[u8],
    out: &mut [u8],
) -> Result<Answer, Refusal>
    ensures { Answered (literal_call (as_limits schema.now.limits) schema.now.bytes.now v.now (length out.old)) out.old out.new (seen result) }
{
    if !schema.limits.are_allowed() {
        return Err(Refusal::Limits);
    }
    let Some(whole) = schema.whole() else {
        return Err(Refusal::Schema);
    };
    literal_under(&whole, v, out)
}

pub fn euid_literal(
    limits: Limits,
    schema: &[u8],
    v: &[u8],
    out: &mut [u8],
) -> Result<Answer, Refusal>
    ensures { Answered (literal_call (as_limits limits) schema.now v.now (length out.old)) out.old out.new (seen result) }
{
    euid_literal_checked(&Checked::new(limits, schema), v, out)
}

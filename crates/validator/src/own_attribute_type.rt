// The second entry of attribute lookup: a record's or action's attribute as a part of the caller's own form.
ghost use Rattle.std.specs.Prelude.{◌≡◌};
ghost use Rattle.cedar.specs.BodyPlace.{body_in};
ghost use Rattle.cedar.specs.Calls.{own_attribute_call};
ghost use Rattle.forms.specs.Limits.{as_limits};
ghost use Rattle.schemas.specs.Schema.{limits_in};
ghost use Rattle.writing.specs.FormLengths.{seen};
ghost use Rattle.validator.specs.Handed.{part_of, Handed};

use attributes::own_attribute::own_attribute;
use forms::limits::Limits;
use forms::refusals::Refusal;
use forms::type_forms::TypeForm;
use schemas::checked::Checked;
use schemas::schema::Schema;

// What the entry says beside the part, where it is no refusal's number.
#[derive(Clone, Copy)]
pub struct Told;

impl Told {
    pub const NOTHING: u8 = 0;

    pub const OPTIONAL: u8 = b'o';

    pub const REQUIRED: u8 = b'r';
}

// Where the attribute stands in the form that lists it, and whether it is required.
#[derive(Clone, Copy)]
pub struct OwnPart {
    pub start: usize,
    pub end: usize,
    pub required: bool,
}

// The place for a whole schema.
fn own_part_under(schema: &Schema<'_>, attr: u16, t: &[u8]) -> Result<Option<OwnPart>, Refusal>
    ensures { seen result ≡ part_of (own_attribute_call (limits_in schema.now) schema.now.bytes.now attr t.now) (body_in (limits_in schema.now) attr t.now) }
{
    let Some(whole) = TypeForm::within(t, schema.sections.limits) else {
        return Err(Refusal::First);
    };
    let Some(part) = own_attribute(whole, attr as usize) else {
        return Ok(None);
    };
    Ok(Some(OwnPart {
        start: part.start,
        end: part.start + part.form.len(),
        required: part.required,
    }))
}

// The place under a schema that was checked before, and the limits of its check.
#[inline(always)]
pub fn own_attribute_part_checked(
    schema: &Checked<'_>,
    attr: u16,
    t: &[u8],
) -> Result<Option<OwnPart>, Refusal>
    ensures { seen result ≡ part_of (own_attribute_call (as_limits schema.now.limits) schema.now.bytes.now attr t.now) (body_in (as_limits schema.now.limits) attr t.now) }
{
    if !schema.limits.are_allowed() {
        return Err(Refusal::Limits);
    }
    let Some(whole) = schema.whole() else {
        return Err(Refusal::Schema);
    };
    own_part_under(&whole, attr, t)
}

// The place.
pub fn own_attribute_part(
    limits: Limits,
    schema: &[u8],
    attr: u16,
    t: &[u8],
) -> Result<Option<OwnPart>, Refusal>
    ensures { seen result ≡ part_of (own_attribute_call (as_limits limits) schema.now attr t.now) (body_in (as_limits limits) attr t.now) }
{
    own_attribute_part_checked(&Checked::new(limits, schema), attr, t)
}

// The answer under a schema that was checked before, and the limits of its check.
pub fn own_attribute_type_checked<'a>(
    schema: &Checked<'_>,
    attr: u16,
    t: &'a [u8],
    told: &mut u8,
) -> &'a [u8]
    ensures { Handed (own_attribute_call (as_limits schema.now.limits) schema.now.bytes.now attr t.now) (body_in (as_limits schema.now.limits) attr t.now) t.entry result told.new }
{
    match own_attribute_part_checked(schema, attr, t) {
        Err(refusal) => {
            *told = u8::from(refusal);
            &t[..0]
        }
        Ok(None) => {
            *told = Told::NOTHING;
            &t[..0]
        }
        Ok(Some(part)) => {
            if part.required {
                *told = Told::REQUIRED;
                return &t[part.start..part.end];
            }
            *told = Told::OPTIONAL;
            &t[part.start..part.end]
        }
    }
}

// The attribute's type, as a part of t: empty for none or a refusal. `told` is the refusal's number, none, optional or required.
pub fn own_attribute_type<'a>(
    limits: Limits,
    schema: &[u8],
    attr: u16,
    t: &'a [u8],
    told: &mut u8,
) -> &'a [u8]
    ensures { Handed (own_attribute_call (as_limits limits) schema.now attr t.now) (body_in (as_limits limits) attr t.now) t.entry result told.new }
{
    own_attribute_type_checked(&Checked::new(limits, schema), attr, t, told)
}

// The attribute of a type, with its required flag.
ghost use Rattle.std.specs.Prelude.{◌≡◌, ◌-◌, ◌≤◌, length};
ghost use Rattle.cedar.specs.Attribute.{fold_attr, lookup_names, lookup};
ghost use Rattle.cedar.specs.Calls.{step_fits};
ghost use Rattle.forms.specs.Parts.{part};
ghost use Rattle.forms.specs.TypeBytes.{whole, dec};
ghost use Rattle.forms.specs.Names.{names_in};
ghost use Rattle.schemas.specs.Schema.{limits_in, said_by};
ghost use Rattle.folds.specs.Steps.{Held};
ghost use Rattle.lookups.specs.Lookup.{below, Shown, Asked, LookedUp};

use attributes::entity_attribute::{EntityAttribute, entity_attribute};
use attributes::own_attribute::{Attribute, own_attribute};
use folds::steps::{NoStep, join_step};
use forms::kinds::Kind;
use forms::limits::Limits;
use forms::modes::Mode;
use forms::numbers::u16_at;
use forms::offsets::Offset;
use forms::type_forms::TypeForm;
use forms::widths::Width;
use schemas::schema::Schema;
use writing::writers::copy;

// An attribute that was looked up: whether it is required, and how many bytes its form takes.
#[derive(Clone, Copy, Debug, PartialEq, Eq)]
pub struct Looked {
    pub required: bool,
    pub bytes: usize,
}

// A step's bound is too long.
#[derive(Clone, Copy, Debug, PartialEq, Eq)]
pub struct TooLong;

// Leaves an attribute's form in the first bytes of `last`.
fn keep(schema: &Schema, attribute: Attribute, last: &mut [u8]) -> Looked
    requires shown { Shown (limits_in schema.now) attribute }
    requires room { (limits_in schema.now).bytes ≤ length last.old }
    ensures required { result.required ≡ attribute.entry.required }
    ensures form { part 0 result.bytes last.new ≡ attribute.entry.form.now }
    ensures held { Held (below (limits_in schema.now)) result.bytes last.new }
{
    copy(attribute.form, last);
    Looked {
        required: attribute.required,
        bytes: attribute.form.len(),
    }
}

// Folds the attribute in the first bytes of `last` over entity types, until absent or unbounded.
fn fold_attribute(
    schema: &Schema,
    types: &[u8],
    name: usize,
    first: Looked,
    last: &mut [u8],
    work: &mut [u8],
) -> Result<Option<Looked>, TooLong>
    requires { Held (below (limits_in schema.now)) first.bytes last.old }
    ensures { LookedUp (limits_in schema.now) (fold_attr (step_fits (limits_in schema.now) (length work.old)) (said_by schema.now) name (first.required, dec ((limits_in schema.now).levels - 1) (part 0 first.bytes last.old)) (names_in types.now)) last.new result }
{
    let limits = schema.sections.limits;
    let parts = Limits {
        levels: limits.levels - 1,
        bytes: limits.bytes,
    };
    let mut found = first;
    let mut second = false;
    for entity in types.chunks_exact(Width::NAME) {
        let EntityAttribute::Found(attribute) = entity_attribute(schema, u16_at(entity, 0), name)
        else {
            return Ok(None);
        };
        match join_step(
            Mode::Permissive,
            last,
            found.bytes,
            attribute.form,
            parts,
            second,
            work,
        ) {
            Ok(n) => found.bytes = n,
            Err(NoStep::Unbounded(_)) => return Ok(None),
            Err(NoStep::TooLong) => return Err(TooLong),
        }
        found.required = found.required && attribute.required;
        second = !second;
    }
    Ok(Some(found))
}

// The attribute of entity types; its form is left in the first bytes of `last`.
pub fn look_up_types(
    schema: &Schema,
    types: &[u8],
    name: usize,
    last: &mut [u8],
    work: &mut [u8],
) -> Result<Option<Looked>, TooLong>
    requires { (limits_in schema.now).bytes ≤ length last.old }
    ensures { LookedUp (limits_in schema.now) (lookup_names (step_fits (limits_in schema.now) (length work.old)) (said_by schema.now) name (names_in types.now)) last.new result }
{
    let Some((first, others)) = types.split_at_checked(Width::NAME) else {
        return Ok(None);
    };
    let EntityAttribute::Found(attribute) = entity_attribute(schema, u16_at(first, 0), name) else {
        return Ok(None);
    };
    let found = keep(schema, attribute, last);
    fold_attribute(schema, others, name, found, last, work)
}

// The attribute of a type; its form is left in the first bytes of `last`.
pub fn look_up(
    schema: &Schema,
    t: &[u8],
    name: usize,
    last: &mut [u8],
    work: &mut [u8],
) -> Result<Option<Looked>, TooLong>
    requires { Asked (limits_in schema.now) t.now last.old }
    ensures { LookedUp (limits_in schema.now) (lookup (step_fits (limits_in schema.now) (length work.old)) (said_by schema.now) name (dec (limits_in schema.now).levels t.now)) last.new result }
{
    if let Kind::Entity = Kind::of(t) {
        return look_up_types(schema, &t[Offset::ENTITY_NAMES..], name, last, work);
    }
    let whole = TypeForm {
        levels: schema.sections.limits.levels,
        bytes: t,
    };
    let Some(attribute) = own_attribute(whole, name) else {
        return Ok(None);
    };
    Ok(Some(keep(schema, attribute, last)))
}

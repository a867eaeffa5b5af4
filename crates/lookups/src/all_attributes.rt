// The names of a type's attributes.
ghost use Rattle.std.specs.Prelude.{◌≡◌, ◌≤◌, length};
ghost use Rattle.cedar.specs.Bytes.{enc_names};
ghost use Rattle.cedar.specs.Limits.{most_bytes};
ghost use Rattle.cedar.specs.Attribute.{lookup_names, keep_found, entity_names, all_names};
ghost use Rattle.cedar.specs.Calls.{step_fits};
ghost use Rattle.forms.specs.TypeBytes.{dec};
ghost use Rattle.forms.specs.Names.{names_in};
ghost use Rattle.schemas.specs.Schema.{limits_in, said_by};
ghost use Rattle.writing.specs.Written.{Written};
ghost use Rattle.lookups.specs.Lookup.{Asked};
ghost use Rattle.forms.specs.AttributeRows.{names_of};
ghost use Rattle.lookups.specs.Names.{Entered, NamedBy};

use crate::lookup_attribute_type::{TooLong, look_up_types};
use attributes::entity_attribute::entity_attributes;
use forms::kinds::Kind;
use forms::numbers::u16_at;
use forms::offsets::Offset;
use forms::rows::Rows;
use forms::widths::Width;
use schemas::schema::Schema;
use writing::writers::put_name;

// Writes the names of attributes, and says how many bytes that took.
fn write_names(attributes: Rows<{ Width::ATTRIBUTE }>, kept: &mut [u8]) -> usize
    requires { Entered attributes kept.old }
    ensures { Written (enc_names (names_of attributes.entry)) kept.old kept.new result }
{
    let mut rows = attributes;
    let mut bytes = 0;
    while let Some(row) = rows.next() {
        put_name(&mut kept[bytes..], row.name());
        bytes += Width::NAME;
    }
    bytes
}

// Of attributes, the names that entity types keep.
fn kept_names(
    schema: &Schema,
    types: &[u8],
    attributes: Rows<{ Width::ATTRIBUTE }>,
    last: &mut [u8],
    work: &mut [u8],
    kept: &mut [u8],
) -> Result<usize, TooLong>
    requires last_room { (limits_in schema.now).bytes ≤ length last.old }
    requires entered { Entered attributes kept.old }
    ensures { NamedBy (keep_found (λ a. lookup_names (step_fits (limits_in schema.now) (length work.old)) (said_by schema.now) a (names_in types.now)) (names_of attributes.entry)) kept.old kept.new result }
{
    let mut rows = attributes;
    let mut bytes = 0;
    while let Some(row) = rows.next() {
        let name = row.name();
        let Some(_) = look_up_types(schema, types, name, last, work)? else {
            continue;
        };
        put_name(&mut kept[bytes..], name);
        bytes += Width::NAME;
    }
    Ok(bytes)
}

// The names of entity types: those of the first that all keep.
fn entity_names(
    schema: &Schema,
    types: &[u8],
    last: &mut [u8],
    work: &mut [u8],
    kept: &mut [u8],
) -> Result<usize, TooLong>
    requires last_room { (limits_in schema.now).bytes ≤ length last.old }
    requires kept_room { ((limits_in schema.now).bytes ≤ length kept.old) × (length kept.old ≤ most_bytes) }
    ensures { NamedBy (entity_names (step_fits (limits_in schema.now) (length work.old)) (said_by schema.now) (names_in types.now)) kept.old kept.new result }
{
    let Some((first, _)) = types.split_at_checked(Width::NAME) else {
        return Ok(0);
    };
    let Some(attributes) = entity_attributes(schema, u16_at(first, 0)) else {
        return Ok(0);
    };
    kept_names(schema, types, attributes, last, work, kept)
}

// The names of a type's attributes, left in the first bytes of `kept`.
pub fn all_names(
    schema: &Schema,
    t: &[u8],
    last: &mut [u8],
    work: &mut [u8],
    kept: &mut [u8],
) -> Result<usize, TooLong>
    requires asked { Asked (limits_in schema.now) t.now last.old }
    requires kept_room { ((limits_in schema.now).bytes ≤ length kept.old) × (length kept.old ≤ most_bytes) }
    ensures { NamedBy (all_names (step_fits (limits_in schema.now) (length work.old)) (said_by schema.now) (dec (limits_in schema.now).levels t.now)) kept.old kept.new result }
{
    match Kind::of(t) {
        Kind::Entity => entity_names(schema, &t[Offset::ENTITY_NAMES..], last, work, kept),
        Kind::Record => Ok(write_names(Rows::at(t, Offset::RECORD_COUNT), kept)),
        Kind::Action => Ok(write_names(Rows::at(t, Offset::ACTION_COUNT), kept)),
        _ => Ok(0),
    }
}

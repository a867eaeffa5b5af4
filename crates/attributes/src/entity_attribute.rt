// The attributes of an entity type, found in its entry's body: nothing else looks into a body.
ghost use Rattle.attributes.specs.EntityAttribute.{AttributeIn, RowsIn};

use crate::own_attribute::{Attribute, own_attribute};
use forms::kinds::Openness;
use forms::offsets::Offset;
use forms::rows::Rows;
use forms::type_forms::TypeForm;
use forms::widths::Width;
use schemas::schema::Schema;

// An attribute of an entity type; or it is absent from a body that is open or closed; or the schema lacks the entity type.
#[derive(Clone, Copy)]
pub enum EntityAttribute<'a> {
    Found(Attribute<'a>),
    Absent(bool),
    Missing,
}

// The attribute of a name.
pub fn entity_attribute<'a>(schema: &Schema<'a>, entity: usize, name: usize) -> EntityAttribute<'a>
    ensures { AttributeIn schema.now entity name result }
{
    let Some(row) = schema.find_entity(entity) else {
        return EntityAttribute::Missing;
    };
    let body = TypeForm {
        levels: schema.sections.limits.levels,
        bytes: row.body,
    };
    match own_attribute(body, name) {
        Some(attribute) => EntityAttribute::Found(attribute),
        None => EntityAttribute::Absent(row.body[Offset::OPEN] == Openness::OPEN),
    }
}

// All its attributes.
pub fn entity_attributes<'a>(
    schema: &Schema<'a>,
    entity: usize,
) -> Option<Rows<'a, { Width::ATTRIBUTE }>>
    ensures { RowsIn schema.now entity result }
{
    let row = schema.find_entity(entity)?;
    Some(Rows::at(row.body, Offset::RECORD_COUNT))
}

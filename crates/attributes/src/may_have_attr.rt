// Whether a value of a type might have an attribute.
ghost use Rattle.std.specs.Prelude.{◌≡◌};
ghost use Rattle.cedar.specs.Attribute.{may_have_type, may_have_names, may_have};
ghost use Rattle.forms.specs.Names.{names_in};
ghost use Rattle.forms.specs.TypeForms.{type_of};
ghost use Rattle.schemas.specs.Schema.{said_by};

use crate::entity_attribute::{EntityAttribute, entity_attribute};
use forms::kinds::Kind;
use forms::numbers::u16_at;
use forms::type_forms::{Shape, TypeForm};
use forms::widths::Width;
use schemas::schema::Schema;

// Whether an entity type is missing from the schema, is open, or lists the attribute.
fn entity_type_may_have(schema: &Schema, entity: usize, name: usize) -> bool
    ensures { result ≡ may_have_type (said_by schema.now) name entity }
{
    match entity_attribute(schema, entity, name) {
        EntityAttribute::Found(_) => true,
        EntityAttribute::Absent(is_open) => is_open,
        EntityAttribute::Missing => true, // the schema says nothing against it
    }
}

// Whether one of the entity types may have the attribute.
fn entity_may_have(schema: &Schema, types: &[u8], name: usize) -> bool
    ensures { result ≡ may_have_names (said_by schema.now) name (names_in types.now) }
{
    for entity in types.chunks_exact(Width::NAME) {
        if entity_type_may_have(schema, u16_at(entity, 0), name) {
            return true;
        }
    }
    false
}

// Whether a value of the type might have the attribute.
pub fn may_have_attr(schema: &Schema, t: TypeForm, name: usize) -> bool
    ensures { result ≡ may_have (said_by schema.now) name (type_of t.entry) }
{
    match t.shape() {
        Shape::Plain(kind) => matches!(kind, Kind::Never | Kind::AnyEntity),
        Shape::Record(is_open, mut attributes) => is_open || attributes.find(name).is_some(),
        Shape::Entity(names) => entity_may_have(schema, names, name),
        Shape::Action(_, mut attributes) => attributes.find(name).is_some(),
        Shape::Set(_) | Shape::Extension(_) => false,
    }
}

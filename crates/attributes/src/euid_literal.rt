// The type of a uid.
ghost use Rattle.std.specs.Prelude.{◌≡◌, ◌≤◌, ◌<◌, length};
ghost use Rattle.cedar.specs.Outcome.{over};
ghost use Rattle.forms.specs.Limits.{as_limits};
ghost use Rattle.attributes.specs.Literal.{literal_length, literal_levels, literal_form, Laid, Standing, LiteralIn};

use forms::kinds::Kind;
use forms::limits::Limits;
use forms::offsets::Offset;
use levels::depths::type_levels;
use schemas::order::is_action;
use schemas::schema::Schema;
use writing::writers::{copy, put_entity, put_kind};

// What a uid's type is: an action, with the body that lists its attributes; or an entity.
#[derive(Clone, Copy)]
pub enum Literal<'a> {
    Action(&'a [u8]),
    Entity,
}

// The type of the uid of an entity type and an id.
pub fn find_literal<'a>(schema: &Schema<'a>, entity: usize, id: usize) -> Option<Literal<'a>>
    ensures { LiteralIn schema.now entity id result }
{
    if is_action(entity) {
        let action = schema.find_action(entity, id)?;
        return Some(Literal::Action(action.body));
    }
    schema.find_entity(entity)?;
    Some(Literal::Entity)
}

impl<'a> Literal<'a> {
    // How long the type's form is. An action has its name where a record has its open byte.
    pub fn length(self) -> usize
        requires { Laid self }
        ensures { result ≡ literal_length self.entry }
    {
        match self {
            Literal::Action(body) => body.len() + 1,
            Literal::Entity => Offset::ENTITY_END,
        }
    }

    // How many levels the type has: an action as many as the body that lists its attributes.
    pub fn levels(self, limits: Limits) -> usize
        requires { Standing (as_limits limits) self }
        ensures { result ≡ literal_levels (as_limits limits) self.entry }
    {
        match self {
            Literal::Action(body) => type_levels(body, limits.levels),
            Literal::Entity => 1,
        }
    }

    // Writes the type's form.
    pub fn write(self, entity: usize, out: &mut [u8])
        requires laid { Laid self }
        requires entity_bound { entity < 65536 }
        requires in_bounds { literal_length self ≤ length out.old }
        ensures { out.new ≡ over (literal_form entity self.entry) out.old }
    {
        match self {
            Literal::Action(body) => {
                put_kind(out, Kind::Action, entity);
                copy(
                    &body[Offset::RECORD_COUNT..],
                    &mut out[Offset::ACTION_COUNT..],
                );
            }
            Literal::Entity => put_entity(out, entity),
        }
    }
}

// A type's form that is whole, and what it is made of.
ghost use Rattle.std.specs.Prelude.{◌≡◌, true};
ghost use Rattle.forms.specs.TypeBytes.{whole, Sound};

use crate::kinds::Kind;
use crate::rows::Attributes;

// The form of a type that is whole within so many levels.
#[derive(Clone, Copy)]
pub struct TypeForm<'a> {
    pub levels: usize,
    pub bytes: &'a [u8],
    pub ghost whole: { whole levels bytes.now ≡ true },
}

// What is left of a list of attributes, whose types are whole within so many levels each.
#[derive(Clone, Copy)]
pub struct AttributeForms<'a> {
    pub rows: Attributes<'a>,
    pub levels: usize,
    pub ghost sound: { Sound levels rows.left 0 rows.entries.now rows.bodies.now },
}

// An attribute: its name, whether it is required, and its type.
#[derive(Clone, Copy)]
pub struct AttributeForm<'a> {
    pub name: usize,
    pub required: bool,
    pub form: TypeForm<'a>,
}

// What a type is made of: nothing but its kind; the type of a set's elements; whether a record is open, and its attributes; an entity's
// names, two bytes each; an action's entity type and its attributes; an extension's name.
#[derive(Clone, Copy)]
pub enum Shape<'a> {
    Plain(Kind),
    Set(TypeForm<'a>),
    Record(bool, AttributeForms<'a>),
    Entity(&'a [u8]),
    Action(usize, AttributeForms<'a>),
    Extension(usize),
}

// What a type's form is made of, and the attributes of a list one by one.
ghost use Rattle.std.specs.Prelude.{◌≡◌};
ghost use Rattle.cedar.specs.Bytes.{Bytes};
ghost use Rattle.cedar.specs.Types.{names, eq_names, same};
ghost use Rattle.forms.specs.Codes.{code};
ghost use Rattle.forms.specs.Kinds.{kind_number};
ghost use Rattle.forms.specs.Limits.{as_limits};
ghost use Rattle.forms.specs.TypeForms.{TypeWithin, type_of, listed, Shaped, ElementOf, TookAttribute, SoughtAttribute};

use crate::kinds::{Kind, Openness};
use crate::limits::Limits;
use crate::numbers::u16_at;
use crate::offsets::Offset;
use crate::rows::Rows;
use crate::type_forms::{AttributeForm, AttributeForms, Shape, TypeForm};
use crate::types::whole_type;

// Whether two lists of bytes are the same.
#[inline]
fn same_bytes(a: &[u8], b: &[u8]) -> bool
    ensures is { result ≡ eq_names a.now b.now }
    ensures a_bytes { Bytes a.now }
    ensures b_bytes { Bytes b.now }
{
    a[..] == b[..]
}

impl<'a> TypeForm<'a> {
    // Bytes that are a whole type form within limits.
    pub fn within(bytes: &'a [u8], limits: Limits) -> Option<TypeForm<'a>>
        ensures { TypeWithin (as_limits limits) bytes.entry result }
    {
        if !whole_type(bytes, limits) {
            return None;
        }
        Some(TypeForm {
            bytes,
            levels: limits.levels,
        })
    }

    // Its kind.
    #[inline]
    pub fn kind(self) -> Kind
        ensures { kind_number result ≡ code (type_of self.entry) }
    {
        Kind::of(self.bytes)
    }

    // Whether it says the same type as another.
    #[inline]
    pub fn same(self, other: TypeForm) -> bool
        ensures { result ≡ same (type_of self.entry) (type_of other.entry) }
    {
        same_bytes(self.bytes, other.bytes)
    }

    // The type of a set's elements; other types have none.
    #[inline]
    pub fn element(self) -> Option<TypeForm<'a>>
        ensures { ElementOf self.entry result }
    {
        let b = self.bytes;
        if b[0] != Kind::Set as u8 {
            return None;
        }
        let levels = self.levels - 1;
        Some(TypeForm {
            bytes: &b[Offset::ELEMENT..],
            levels,
        })
    }

    // What it is made of.
    #[inline]
    pub fn shape(self) -> Shape<'a>
        ensures { Shaped self.entry result }
    {
        let b = self.bytes;
        match Kind::of(b) {
            Kind::Set => Shape::Set(TypeForm {
                bytes: &b[Offset::ELEMENT..],
                levels: self.levels - 1,
            }),
            Kind::Record => {
                let attributes = AttributeForms {
                    rows: Rows::at(b, Offset::RECORD_COUNT),
                    levels: self.levels - 1,
                };
                Shape::Record(b[Offset::OPEN] == Openness::OPEN, attributes)
            }
            Kind::Entity => Shape::Entity(&b[Offset::ENTITY_NAMES..]),
            Kind::Action => {
                let attributes = AttributeForms {
                    rows: Rows::at(b, Offset::ACTION_COUNT),
                    levels: self.levels - 1,
                };
                Shape::Action(u16_at(b, Offset::ACTION_NAME), attributes)
            }
            Kind::Extension => Shape::Extension(u16_at(b, Offset::EXTENSION_NAME)),
            kind => Shape::Plain(kind),
        }
    }
}

impl<'a> AttributeForms<'a> {
    // Takes the first attribute.
    #[inline]
    pub fn next(&mut self) -> Option<AttributeForm<'a>>
        ensures { TookAttribute self.old self.new result }
    {
        let row = self.rows.next()?;
        Some(AttributeForm {
            name: row.name(),
            required: row.is_required(),
            form: TypeForm {
                bytes: row.body,
                levels: self.levels,
            },
        })
    }

    // The attribute of a name, where the attributes below the name end, which are passed for good.
    #[inline]
    pub fn find(&mut self, name: usize) -> Option<AttributeForm<'a>>
        ensures { SoughtAttribute self.old name self.new result }
    {
        let row = self.rows.find(name)?;
        Some(AttributeForm {
            name,
            required: row.is_required(),
            form: TypeForm {
                levels: self.levels,
                bytes: row.body,
            },
        })
    }

    // Whether two lists have the same names.
    #[inline]
    pub fn same_names(self, other: AttributeForms) -> bool
        ensures { result ≡ eq_names (names (listed self.entry)) (names (listed other.entry)) }
    {
        self.rows.same_names(other.rows)
    }
}

// Whether a type is plain throughout, as the types of a core schema are.
ghost use Rattle.std.specs.Prelude.{◌≡◌};
ghost use Rattle.cedar.specs.Consistency.{plain, plain_attrs};
ghost use Rattle.forms.specs.Kinds.{kind_number};
ghost use Rattle.forms.specs.TypeForms.{type_of, listed};
ghost use Rattle.relations.specs.Meets.{plain_kind};

use crate::sets::past_own_sets;
use forms::kinds::Kind;
use forms::type_forms::{AttributeForms, Shape, TypeForm};
use forms::widths::Width;

// Whether a kind without parts, or an action's, is plain.
pub fn kind_is_plain(kind: Kind) -> bool
    ensures { result ≡ plain_kind (kind_number kind) }
{
    match kind {
        Kind::Bool | Kind::Long | Kind::String | Kind::AnySet => true,
        _ => false,
    }
}

// Whether each attribute's type is plain.
#[cycle(attributes_plain_is_plain)]
fn attributes_plain(mut attributes: AttributeForms) -> bool
    ensures { result ≡ plain_attrs (listed attributes.entry) }
{
    while let Some(attribute) = attributes.next() {
        if !is_plain(attribute.form) {
            return false;
        }
    }
    true
}

// Whether t is of kinds 3 to 8, 12, and 10 with one name, throughout.
#[cycle(attributes_plain_is_plain)]
pub fn is_plain(t: TypeForm) -> bool
    ensures { result ≡ plain (type_of t.entry) }
{
    let left = past_own_sets(t);
    match left.shape() {
        Shape::Plain(kind) => kind_is_plain(kind),
        Shape::Set(_) => false,
        Shape::Record(_, attributes) => attributes_plain(attributes),
        Shape::Entity(names) => names.len() == Width::NAME,
        Shape::Action(_, _) => false,
        Shape::Extension(_) => true,
    }
}

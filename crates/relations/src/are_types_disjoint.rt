// Whether two types have no entity type in common.
ghost use Rattle.std.specs.Prelude.{◌≡◌, IfSome, IfNone};
ghost use Rattle.std.proofs.Math.Option.{none};
ghost use Rattle.cedar.specs.Disjoint.{type_names, disjoint};
ghost use Rattle.forms.specs.TypeForms.{type_of};
ghost use Rattle.relations.specs.TypeNames.{NamesFound};

use crate::names::names_share;
use forms::offsets::Offset;
use forms::type_forms::{Shape, TypeForm};
use forms::widths::Width;

// The names of an entity, or the one name of an action; all else has none.
fn type_names<'a>(t: TypeForm<'a>) -> Option<&'a [u8]>
    ensures some { IfSome result (λ names. NamesFound (type_names (type_of t.entry)) names.now) }
    ensures none { IfNone result (type_names (type_of t.entry) ≡ none) }
{
    match t.shape() {
        Shape::Entity(names) => Some(names),
        Shape::Action(_, _) => Some(
            &t.bytes[Offset::ACTION_NAME..Offset::ACTION_NAME + Width::NAME],
        ),
        _ => None,
    }
}

// Whether both types have names and share none.
pub fn are_types_disjoint(t0: TypeForm, t1: TypeForm) -> bool
    ensures { result ≡ disjoint (type_of t0.entry) (type_of t1.entry) }
{
    let Some(first) = type_names(t0) else {
        return false;
    };
    let Some(second) = type_names(t1) else {
        return false;
    };
    !names_share(first, second)
}

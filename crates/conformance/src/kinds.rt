// The kinds of value that a type takes.
ghost use Rattle.std.specs.Prelude.{◌≡◌};
ghost use Rattle.forms.specs.Kinds.{kind_number, value_kind_number};
ghost use Rattle.conformance.specs.Kinds.{takes};

use forms::kinds::{Kind, ValueKind};

// Whether a type of kind k takes values of kind j. For a type without parts that is all there is to ask.
pub fn takes_kind(k: Kind, j: ValueKind) -> bool
    ensures { result ≡ takes (kind_number k) (value_kind_number j) }
{
    match k {
        Kind::Never => false,
        Kind::True => matches!(j, ValueKind::True),
        Kind::False => matches!(j, ValueKind::False),
        Kind::Bool => matches!(j, ValueKind::False | ValueKind::True),
        Kind::Long => matches!(j, ValueKind::Long),
        Kind::String => matches!(j, ValueKind::String),
        Kind::AnySet | Kind::Set => matches!(j, ValueKind::Set),
        Kind::Record => matches!(j, ValueKind::Record),
        Kind::AnyEntity | Kind::Entity | Kind::Action => matches!(j, ValueKind::Uid),
        Kind::Extension => matches!(j, ValueKind::Call),
    }
}

// Whether a type is a subtype of another.
ghost use Rattle.std.specs.Prelude.{◌≡◌};
ghost use Rattle.cedar.specs.Subtype.{sub_flag, sub_names, sub, sub_attrs};
ghost use Rattle.cedar.specs.Types.{rec, ent, names};
ghost use Rattle.forms.specs.Kinds.{kind_number};
ghost use Rattle.forms.specs.Modes.{as_mode};
ghost use Rattle.forms.specs.Names.{names_in, Ascending};
ghost use Rattle.forms.specs.TypeForms.{type_of, listed};
ghost use Rattle.relations.specs.Under.{kind_under, record_under};

use crate::names::names_subset;
use crate::sets::past_sets;
use forms::kinds::Kind;
use forms::modes::Mode;
use forms::type_forms::{AttributeForms, Shape, TypeForm};

// Whether a type of kind j stands under one of another kind k.
fn kind_under(mode: Mode, j: Kind, k: Kind) -> bool
    ensures { result ≡ kind_under (as_mode mode) (kind_number j) (kind_number k) }
{
    match k {
        Kind::Bool => matches!(j, Kind::Never | Kind::True | Kind::False),
        Kind::AnySet => matches!(j, Kind::Never | Kind::Set),
        Kind::AnyEntity => match j {
            Kind::Never => true,
            Kind::Entity | Kind::Action => mode.is_permissive(),
            _ => false,
        },
        _ => j == Kind::Never,
    }
}

// Whether an attribute that is required, or is not, stands under another: strict, both are or neither; permissive, a required one also
// stands under an optional one.
fn required_under(mode: Mode, lower: bool, upper: bool) -> bool
    ensures { result ≡ sub_flag (as_mode mode) lower upper }
{
    if mode.is_permissive() {
        return lower || !upper;
    }
    lower == upper
}

// Whether names stand under others, as those of entities do: strict, they are equal; permissive, they are a subset.
fn names_under(mode: Mode, lower: &[u8], upper: &[u8]) -> bool
    requires lower_up { Ascending lower.now }
    requires upper_up { Ascending upper.now }
    ensures { result ≡ sub_names (as_mode mode) (names_in lower.now) (names_in upper.now) }
{
    if mode.is_permissive() {
        return names_subset(lower, upper);
    }
    lower[..] == upper[..]
}

// Whether a type stands under an entity of these names.
fn entity_under(mode: Mode, t: TypeForm, upper: &[u8]) -> bool
    requires { Ascending upper.now }
    ensures { result ≡ sub (as_mode mode) (type_of t.entry) (ent (names_in upper.now)) }
{
    match t.shape() {
        Shape::Entity(lower) => names_under(mode, lower, upper),
        _ => t.kind() == Kind::Never,
    }
}

// Whether a record may stand under another but for its attributes: an open one only under an open one; with the same names or,
// permissive and the upper open, more.
fn record_under(
    mode: Mode,
    lower_open: bool,
    lower: AttributeForms,
    upper_open: bool,
    upper: AttributeForms,
) -> bool
    ensures { result ≡ record_under (as_mode mode) lower_open (names (listed lower.entry)) upper_open (names (listed upper.entry)) }
{
    if upper_open {
        return mode.is_permissive() || lower.same_names(upper);
    }
    !lower_open && lower.same_names(upper)
}

// Whether each attribute of the upper list is found in the lower one, there with a flag and a type below. Both ascend, so a search goes on
// where the last one ended.
#[cycle(attributes_subtype_is_subtype)]
fn attributes_subtype(mode: Mode, mut lower: AttributeForms, mut upper: AttributeForms) -> bool
    ensures { result ≡ sub_attrs (as_mode mode) (listed lower.entry) (listed upper.entry) }
{
    while let Some(attribute) = upper.next() {
        let Some(other) = lower.find(attribute.name) else {
            return false;
        };
        if !required_under(mode, other.required, attribute.required) {
            return false;
        }
        if !is_subtype(mode, other.form, attribute.form) {
            return false;
        }
    }
    true
}

// Whether a type stands under a record.
#[cycle(attributes_subtype_is_subtype)]
#[inline(never)]
fn record_subtype(mode: Mode, t: TypeForm, upper_open: bool, upper: AttributeForms) -> bool
    ensures { result ≡ sub (as_mode mode) (type_of t.entry) (rec upper_open (listed upper.entry)) }
{
    match t.shape() {
        Shape::Record(lower_open, lower) => {
            record_under(mode, lower_open, lower, upper_open, upper)
                && attributes_subtype(mode, lower, upper)
        }
        _ => t.kind() == Kind::Never,
    }
}

// Whether t0 is a subtype of t1. For a type without parts, as most attributes have, the loop over them calls nothing.
#[cycle(attributes_subtype_is_subtype)]
#[inline]
pub fn is_subtype(mode: Mode, t0: TypeForm, t1: TypeForm) -> bool
    ensures { result ≡ sub (as_mode mode) (type_of t0.entry) (type_of t1.entry) }
{
    match t1.shape() {
        Shape::Plain(k) => {
            let j = t0.kind();
            j == k || kind_under(mode, j, k)
        }
        _ => parts_subtype(mode, t0, t1),
    }
}

// The same, by the parts of the types.
#[cycle(attributes_subtype_is_subtype)]
#[inline(never)]
fn parts_subtype(mode: Mode, t0: TypeForm, t1: TypeForm) -> bool
    ensures { result ≡ sub (as_mode mode) (type_of t0.entry) (type_of t1.entry) }
{
    let (lower, upper) = past_sets(t0, t1);
    let j = lower.kind();
    match upper.shape() {
        Shape::Plain(k) => j == k || kind_under(mode, j, k),
        Shape::Set(_) => j == Kind::Never,
        Shape::Record(is_open, attributes) => record_subtype(mode, lower, is_open, attributes),
        Shape::Entity(names) => entity_under(mode, lower, names),
        Shape::Action(_, _) | Shape::Extension(_) => j == Kind::Never || lower.same(upper),
    }
}

// Whether a type and a core type, a plain one, may have a value in common.
ghost use Rattle.std.specs.Prelude.{◌≡◌, ◌≤◌, length};
ghost use Rattle.cedar.specs.Consistency.{covered_names, consistent_entity, consistent, consistent_attrs};
ghost use Rattle.cedar.specs.Types.{rec, Ty};
ghost use Rattle.forms.specs.Kinds.{kind_number};
ghost use Rattle.forms.specs.Names.{names_in, Ascending};
ghost use Rattle.forms.specs.TypeForms.{type_of, listed, IsPlain};
ghost use Rattle.relations.specs.Meets.{kind_meets};

use crate::is_plain::kind_is_plain;
use crate::names::names_share;
use crate::sets::past_sets;
use forms::kinds::Kind;
use forms::numbers::u16_at;
use forms::type_forms::{AttributeForms, Shape, TypeForm};
use forms::widths::Width;

// Whether a type of kind j is consistent with one of another kind k, which is no entity.
fn kind_consistent(j: Kind, k: Kind) -> bool
    ensures { result ≡ kind_meets (kind_number j) (kind_number k) }
{
    match k {
        Kind::Bool => matches!(j, Kind::True | Kind::False),
        Kind::AnySet => j == Kind::Set,
        _ => false,
    }
}

// Whether a type is consistent with the core type without parts that has a kind.
#[inline]
fn partless_consistent(t: TypeForm, kind: Kind) -> bool
    ensures { (core : Ty) → IsPlain core kind → result ≡ consistent (type_of t.entry) core }
{
    let own = t.kind();
    if own == kind {
        return kind_is_plain(kind);
    }
    kind_consistent(own, kind)
}

// Whether a type is consistent with an entity of a core type, by its name: one that has it, any entity, or an action of the name.
fn entity_consistent(t: TypeForm, name: &[u8]) -> bool
    requires { 2 ≤ length name.now }
    ensures { result ≡ consistent_entity (type_of t.entry) (names_in name.now) }
{
    match t.shape() {
        Shape::Plain(kind) => kind == Kind::AnyEntity,
        Shape::Entity(names) => names_share(names, &name[..Width::NAME]),
        Shape::Action(entity, _) => entity == u16_at(name, 0),
        _ => false,
    }
}

// Whether each attribute has its name in the core list, or is optional, or the core record is open. Both lists ascend, so a search goes
// on where the last one ended.
fn names_covered(mut attributes: AttributeForms, is_open: bool, mut core: AttributeForms) -> bool
    ensures { result ≡ covered_names (listed attributes.entry) is_open (listed core.entry) }
{
    if is_open {
        return true;
    }
    while let Some(attribute) = attributes.next() {
        if attribute.required {
            let Some(_) = core.find(attribute.name) else {
                return false;
            };
        }
    }
    true
}

// Whether each attribute of the core list is consistent with its namesake in the other list; without one, whether it is optional or the
// other list's record open.
#[cycle(attributes_consistent_is_consistent_with)]
fn attributes_consistent(
    mut attributes: AttributeForms,
    is_open: bool,
    mut core: AttributeForms,
) -> bool
    ensures { result ≡ consistent_attrs is_open (listed attributes.entry) (listed core.entry) }
{
    while let Some(attribute) = core.next() {
        match attributes.find(attribute.name) {
            Some(other) => {
                if !is_consistent_with(other.form, attribute.form) {
                    return false;
                }
            }
            None => {
                if attribute.required && !is_open {
                    return false;
                }
            }
        }
    }
    true
}

// Whether a type is consistent with a core record.
#[cycle(attributes_consistent_is_consistent_with)]
#[inline(never)]
fn record_consistent(t: TypeForm, core_open: bool, core: AttributeForms) -> bool
    ensures { result ≡ consistent (type_of t.entry) (rec core_open (listed core.entry)) }
{
    match t.shape() {
        Shape::Record(is_open, attributes) => {
            attributes_consistent(attributes, is_open, core)
                && names_covered(attributes, core_open, core)
        }
        _ => false,
    }
}

// Whether t0 is consistent with t1, a core type. For a type without parts, as most attributes have, the loop over them calls nothing.
#[cycle(attributes_consistent_is_consistent_with)]
#[inline]
pub fn is_consistent_with(t0: TypeForm, t1: TypeForm) -> bool
    ensures { result ≡ consistent (type_of t0.entry) (type_of t1.entry) }
{
    match t1.shape() {
        Shape::Plain(kind) => partless_consistent(t0, kind),
        _ => parts_consistent(t0, t1),
    }
}

// The same, by the parts of the types.
#[cycle(attributes_consistent_is_consistent_with)]
#[inline(never)]
fn parts_consistent(t0: TypeForm, t1: TypeForm) -> bool
    ensures { result ≡ consistent (type_of t0.entry) (type_of t1.entry) }
{
    let (t, core) = past_sets(t0, t1);
    match core.shape() {
        Shape::Plain(kind) => partless_consistent(t, kind),
        Shape::Set(_) => false,
        Shape::Record(is_open, attributes) => record_consistent(t, is_open, attributes),
        Shape::Entity(names) => entity_consistent(t, names),
        Shape::Action(_, _) => false,
        Shape::Extension(_) => t.same(core),
    }
}

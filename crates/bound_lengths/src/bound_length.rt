// How long the least upper bound of two types is, or why there is none: one walk.
ghost use Rattle.std.specs.Prelude.{◌≡◌};
ghost use Rattle.cedar.specs.TypeForm.{enc};
ghost use Rattle.cedar.specs.Laws.DirectBound.{direct, direct_names};
ghost use Rattle.forms.specs.Modes.{as_mode};
ghost use Rattle.forms.specs.Names.{names_in, Ascending};
ghost use Rattle.forms.specs.TypeForms.{type_of, listed};
ghost use Rattle.writing.specs.FormLengths.{seen, plus, form_length_of, table};
ghost use Rattle.bound_lengths.specs.Kinds.{partless};
ghost use Rattle.bound_lengths.specs.Pairs.{joined_form, joined_attrs, pair_length_of};
ghost use Rattle.bound_lengths.specs.Sets.{NotBothSets};

use crate::kinds::unlike_kinds;
use crate::names::Union;
use crate::pairs::{dropped, kept, names_allowed};
use crate::sets::{past_sets, sets_length};
use forms::kinds::Kind;
use forms::modes::Mode;
use forms::offsets::Offset;
use forms::refusals::Refusal;
use forms::type_forms::{AttributeForm, AttributeForms, Shape, TypeForm};
use forms::widths::Width;
use writing::form_lengths::{capped, longer};

// Of two types of which no part is joined.
fn partless_length(mode: Mode, a: TypeForm, b: TypeForm) -> Result<usize, Refusal>
    ensures { seen result ≡ form_length_of enc (partless (as_mode mode) (type_of a.entry) (type_of b.entry)) }
{
    let j = Kind::of(a.bytes);
    let k = Kind::of(b.bytes);
    if j == Kind::Never {
        return Ok(capped(b.bytes.len()));
    }
    if k == Kind::Never {
        return Ok(capped(a.bytes.len()));
    }
    unlike_kinds(mode, j, k)?;
    Ok(Offset::ELEMENT)
}

// Of the names of two entities.
fn entities_length(mode: Mode, a: &[u8], b: &[u8]) -> Result<usize, Refusal>
    requires { Ascending a.now × Ascending b.now }
    ensures { seen result ≡ form_length_of enc (direct_names (as_mode mode) (names_in a.now) (names_in b.now)) }
{
    if mode.is_permissive() {
        let names = Union { left: a, right: b };
        return Ok(longer(Width::NAME * names.count(), Offset::ENTITY_NAMES));
    }
    if a[..] == b[..] {
        return Ok(longer(a.len(), Offset::ENTITY_NAMES));
    }
    Err(Refusal::EntityType)
}

// Of two types: the sets that both begin with are gone down by a loop, and what is left is asked once.
#[cycle(actions_length_attributes_length_bare_length_bound_length_pair_length_records_length)]
pub fn bound_length(mode: Mode, a: TypeForm, b: TypeForm) -> Result<usize, Refusal>
    ensures { seen result ≡ form_length_of enc (direct (as_mode mode) (type_of a.entry) (type_of b.entry)) }
{
    let (x, y, sets) = past_sets(a, b);
    sets_length(mode, sets, bare_length(mode, x, y))
}

// Of two types that are not both sets.
#[cycle(actions_length_attributes_length_bare_length_bound_length_pair_length_records_length)]
#[inline]
fn bare_length(mode: Mode, a: TypeForm, b: TypeForm) -> Result<usize, Refusal>
    requires { NotBothSets a b }
    ensures { seen result ≡ form_length_of enc (direct (as_mode mode) (type_of a.entry) (type_of b.entry)) }
{
    match a.shape() {
        Shape::Plain(j) => {
            if j == Kind::of(b.bytes) {
                return Ok(Offset::ELEMENT);
            }
        }
        Shape::Set(_) => {}
        Shape::Record(_, x) => {
            if let Shape::Record(_, y) = b.shape() {
                return records_length(mode, x, y);
            }
        }
        Shape::Entity(x) => {
            if let Shape::Entity(y) = b.shape() {
                return entities_length(mode, x, y);
            }
        }
        Shape::Action(j, x) => {
            if let Shape::Action(k, y) = b.shape() {
                if j == k {
                    return actions_length(Mode::Strict, x, y);
                }
            }
        }
        Shape::Extension(j) => {
            if let Shape::Extension(k) = b.shape() {
                if j == k {
                    return Ok(Offset::EXTENSION_END);
                }
            }
        }
    }
    partless_length(mode, a, b)
}

// Of two records, by their attributes.
#[cycle(actions_length_attributes_length_bare_length_bound_length_pair_length_records_length)]
fn records_length(mode: Mode, a: AttributeForms, b: AttributeForms) -> Result<usize, Refusal>
    ensures { seen result ≡ plus 4 (form_length_of table (joined_attrs (as_mode mode) (listed a.entry) (listed b.entry))) }
{
    attributes_length(mode, a, b, Offset::RECORD_ENTRIES)
}

// Of two actions of one name, by their attributes.
#[cycle(actions_length_attributes_length_bare_length_bound_length_pair_length_records_length)]
fn actions_length(mode: Mode, a: AttributeForms, b: AttributeForms) -> Result<usize, Refusal>
    ensures { seen result ≡ plus 5 (form_length_of table (joined_attrs (as_mode mode) (listed a.entry) (listed b.entry))) }
{
    attributes_length(mode, a, b, Offset::ACTION_ENTRIES)
}

// Of two lists of attributes, with so many bytes before them.
#[cycle(actions_length_attributes_length_bare_length_bound_length_pair_length_records_length)]
fn attributes_length(
    mode: Mode,
    mut attributes: AttributeForms,
    mut others: AttributeForms,
    front: usize,
) -> Result<usize, Refusal>
    ensures { seen result ≡ plus front (form_length_of table (joined_attrs (as_mode mode) (listed attributes.entry) (listed others.entry))) }
{
    if !names_allowed(mode, attributes, others) {
        return Err(Refusal::RecordWidth);
    }
    let mut sum = 0;
    while let Some(attribute) = attributes.next() {
        let other = others.find(attribute.name);
        if let Some(n) = pair_length(mode, attribute, other)? {
            sum = capped(sum + n + Width::ATTRIBUTE);
        }
    }
    Ok(longer(sum, front))
}

// Of an attribute, with the attribute of its name; none where it is dropped.
#[cycle(actions_length_attributes_length_bare_length_bound_length_pair_length_records_length)]
fn pair_length(
    mode: Mode,
    attribute: AttributeForm,
    other: Option<AttributeForm>,
) -> Result<Option<usize>, Refusal>
    ensures { seen result ≡ pair_length_of (joined_form (as_mode mode) attribute.entry other.entry) }
{
    let Some(other) = other else {
        return dropped(mode, Refusal::RecordWidth);
    };
    match bound_length(mode, attribute.form, other.form) {
        Ok(n) => kept(mode, attribute.required, other.required, n),
        Err(refusal) => dropped(mode, refusal),
    }
}

// `TryFrom<Type>` into `CoreSchemaType`: a length pass, and a write pass where every part can be expressed.
ghost use Rattle.std.specs.Prelude.{◌≡◌, replicate};
ghost use Rattle.std.proofs.Math.Option.{none};
ghost use Rattle.cedar.specs.Outcome.{over};
ghost use Rattle.cedar.specs.TypeForm.{enc};
ghost use Rattle.cedar.specs.Types.{as_set};
ghost use Rattle.forms.specs.Kinds.{kind_number};
ghost use Rattle.forms.specs.TypeForms.{type_of, listed};
ghost use Rattle.writing.specs.FormLengths.{seen, form_length_of, form_of, table, Ready};
ghost use Rattle.writing.specs.Written.{Written};
ghost use Rattle.conversions.specs.CoreTypes.{core, core_attrs, bool_or, PastSets};

use forms::kinds::Kind;
use forms::numbers::u16_at;
use forms::offsets::Offset;
use forms::refusals::Refusal;
use forms::type_forms::{AttributeForms, Shape, TypeForm};
use forms::widths::Width;
use writing::form_lengths::{capped, longer};
use writing::writers::{put_attribute, put_entity, put_first, put_kind, put_record};

// The form below the sets that a type begins with, and how many these are: a loop that calls nothing goes down them.
#[inline]
fn past_sets<'a>(t: TypeForm<'a>) -> (TypeForm<'a>, usize)
    ensures { PastSets t.entry result.0 result.1 }
{
    let mut below = t;
    let mut sets = 0;
    while let Some(element) = below.element() {
        below = element;
        sets += 1;
    }
    (below, sets)
}

// How long the core type's form is: a byte for each set that it begins with, and what is below them.
#[cycle(core_attributes_length_core_length)]
#[inline]
pub fn core_length(t: TypeForm) -> Result<usize, Refusal>
    ensures { seen result ≡ form_length_of enc (core (type_of t.entry)) }
{
    let (below, sets) = past_sets(t);
    let n = below_length(below)?;
    Ok(longer(n, sets))
}

// The same of a type that is no set.
#[cycle(core_attributes_length_core_length)]
fn below_length(t: TypeForm) -> Result<usize, Refusal>
    requires { as_set (type_of t) ≡ none }
    ensures { seen result ≡ form_length_of enc (core (type_of t.entry)) }
{
    match t.shape() {
        Shape::Plain(kind) => match kind {
            Kind::Never | Kind::AnyEntity => Err(Refusal::Conversion),
            _ => Ok(Offset::ELEMENT),
        },
        Shape::Set(_) => Err(Refusal::Conversion),
        Shape::Record(_, attributes) => {
            let n = core_attributes_length(attributes)?;
            Ok(longer(n, Offset::RECORD_ENTRIES))
        }
        Shape::Entity(names) => {
            if names.len() == Width::NAME {
                return Ok(Offset::ENTITY_END);
            }
            Err(Refusal::Conversion)
        }
        Shape::Action(_, _) => Ok(Offset::ENTITY_END),
        Shape::Extension(_) => Ok(Offset::EXTENSION_END),
    }
}

// How long the entries and bodies of a record's core type are.
#[cycle(core_attributes_length_core_length)]
fn core_attributes_length(mut attributes: AttributeForms) -> Result<usize, Refusal>
    ensures { seen result ≡ form_length_of table (core_attrs (listed attributes.entry)) }
{
    let mut sum = 0;
    while let Some(attribute) = attributes.next() {
        let n = core_length(attribute.form)?;
        sum = capped(sum + n + Width::ATTRIBUTE);
    }
    Ok(sum)
}

// True and False become Bool.
fn bool_or(k: Kind) -> Kind
    ensures { kind_number result ≡ bool_or (kind_number k) }
{
    match k {
        Kind::True | Kind::False => Kind::Bool,
        _ => k,
    }
}

// Writes the kinds of the sets that a type begins with; hands out the form below them, and how many they are.
#[inline]
fn put_sets<'a>(t: TypeForm<'a>, out: &mut [u8]) -> (TypeForm<'a>, usize)
    requires { Ready enc (core (type_of t)) out.old }
    ensures under { PastSets t.entry result.0 result.1 }
    ensures written { out.new ≡ over (replicate result.1 7) out.old }
{
    let mut below = t;
    let mut sets = 0;
    while let Some(element) = below.element() {
        put_first(&mut out[sets..], Kind::Set);
        below = element;
        sets += 1;
    }
    (below, sets)
}

// Writes the core type's form, and says how long it is.
#[cycle(write_core_write_core_attributes)]
#[inline]
pub fn write_core(t: TypeForm, out: &mut [u8]) -> usize
    requires { Ready enc (core (type_of t)) out.old }
    ensures { Written (form_of enc (core (type_of t.entry))) out.old out.new result }
{
    let (below, sets) = put_sets(t, out);
    write_below(below, &mut out[sets..]) + sets
}

// The same of a type that is no set.
#[cycle(write_core_write_core_attributes)]
fn write_below(t: TypeForm, out: &mut [u8]) -> usize
    requires no_set { as_set (type_of t) ≡ none }
    requires ready { Ready enc (core (type_of t)) out.old }
    ensures { Written (form_of enc (core (type_of t.entry))) out.old out.new result }
{
    match t.shape() {
        Shape::Plain(kind) => {
            put_first(out, bool_or(kind));
            Offset::ELEMENT
        }
        Shape::Set(_) => 0,
        Shape::Record(is_open, attributes) => {
            put_record(out, is_open, attributes.rows.left);
            write_core_attributes(attributes, &mut out[Offset::RECORD_ENTRIES..])
                + Offset::RECORD_ENTRIES
        }
        Shape::Entity(names) => {
            put_entity(out, u16_at(names, 0));
            Offset::ENTITY_END
        }
        Shape::Action(entity, _) => {
            put_entity(out, entity);
            Offset::ENTITY_END
        }
        Shape::Extension(name) => {
            put_kind(out, Kind::Extension, name);
            Offset::EXTENSION_END
        }
    }
}

// Writes the entries and bodies of a record's core type, and says how long they are.
#[cycle(write_core_write_core_attributes)]
fn write_core_attributes(mut attributes: AttributeForms, out: &mut [u8]) -> usize
    requires { Ready table (core_attrs (listed attributes)) out.old }
    ensures { Written (form_of table (core_attrs (listed attributes.entry))) out.old out.new result }
{
    let mut at = 0;
    let mut pos = Width::ATTRIBUTE * attributes.rows.left;
    while let Some(attribute) = attributes.next() {
        let n = write_core(attribute.form, &mut out[pos..]);
        put_attribute(&mut out[at..], attribute.name, attribute.required, n);
        at += Width::ATTRIBUTE;
        pos += n;
    }
    pos
}

// The attribute of a record or an action, found in its own form.
ghost use Rattle.std.specs.Prelude.{◌≡◌, ◌+◌, ◌*◌, ◌-◌};
ghost use Rattle.cedar.specs.Types.{find as find_in};
ghost use Rattle.cedar.specs.Attribute.{own_attr};
ghost use Rattle.cedar.specs.BodyPlace.{body_from, body_place};
ghost use Rattle.forms.specs.Parts.{rd};
ghost use Rattle.forms.specs.TypeForms.{type_of};
ghost use Rattle.forms.specs.Tables.{attrs_at, Tabled};
ghost use Rattle.attributes.specs.Place.{Placed, span_of};

use forms::kinds::Kind;
use forms::offsets::Offset;
use forms::rows::Rows;
use forms::type_forms::TypeForm;
use forms::widths::Width;

// An attribute in the form that lists it: where its type's form starts, that form, and whether the attribute is required.
#[derive(Clone, Copy)]
pub struct Attribute<'a> {
    pub start: usize,
    pub form: &'a [u8],
    pub required: bool,
}

// The attribute of a list whose count stands at `at`.
fn listed_attribute<'a>(t: &'a [u8], at: usize, name: usize, levels: usize) -> Option<Attribute<'a>>
    requires { Tabled levels «at» t.now }
    ensures placed { Placed levels t.now (find_in name (attrs_at levels «at» t.now)) result }
    ensures spanned { span_of result ≡ body_from («at» + 2 + 5 * rd t.now «at») name (attrs_at levels «at» t.now) }
{
    let mut rows: Rows<{ Width::ATTRIBUTE }> = Rows::at(t, at);
    let row = rows.find(name)?;
    Some(Attribute {
        start: t.len() - rows.bodies.len(),
        form: row.body,
        required: row.is_required(),
    })
}

// The attribute of a record or an action; other kinds have none.
pub fn own_attribute<'a>(t: TypeForm<'a>, name: usize) -> Option<Attribute<'a>>
    ensures placed { Placed (t.entry.levels - 1) t.entry.bytes.now (own_attr name (type_of t.entry)) result }
    ensures spanned { span_of result ≡ body_place name (type_of t.entry) }
{
    match Kind::of(t.bytes) {
        Kind::Record => listed_attribute(t.bytes, Offset::RECORD_COUNT, name, t.levels - 1),
        Kind::Action => listed_attribute(t.bytes, Offset::ACTION_COUNT, name, t.levels - 1),
        _ => None,
    }
}

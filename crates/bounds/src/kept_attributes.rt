// Which attributes a bound keeps, where there is one: strict all of them, permissive those whose types have a bound. Permissive, two
// records always have one, and loose two sets, so no part of theirs is looked at.
ghost use Rattle.std.specs.Prelude.{◌≡◌, true};
ghost use Rattle.std.specs.Option.{ForSome};
ghost use Rattle.cedar.specs.Types.{is_permissive};
ghost use Rattle.cedar.specs.Laws.DirectBound.{direct};
ghost use Rattle.forms.specs.Modes.{as_mode};
ghost use Rattle.forms.specs.Tables.{Tabled, attrs_at};
ghost use Rattle.forms.specs.TypeForms.{type_of};
ghost use Rattle.bound_lengths.specs.Pairs.{WholeRow, joined_row, joined_attrs};
ghost use Rattle.bounds.specs.Joins.{count_of, is_ok, Bare, KeptWith};

use bound_lengths::bound_length::bound_length;
use bound_lengths::sets::past_sets;
use forms::kinds::Kind;
use forms::modes::Mode;
use forms::rows::{Row, Rows};
use forms::type_forms::{Shape, TypeForm};
use forms::widths::Width;

// Whether two types have a bound, permissive: unless loose, of those below the sets that both begin with.
pub fn has_bound(mode: Mode, a: TypeForm, b: TypeForm) -> bool
    requires { is_permissive (as_mode mode) ≡ true }
    ensures { result ≡ is_ok (direct (as_mode mode) (type_of a.entry) (type_of b.entry)) }
{
    if mode.is_loose() {
        return has_bare_bound(mode, a, b);
    }
    let (x, y, _) = past_sets(a, b);
    has_bare_bound(mode, x, y)
}

// Of one kind, only actions and extensions may have none: loose, two sets always have one, and else these are not both sets.
#[inline]
fn has_bare_bound(mode: Mode, a: TypeForm, b: TypeForm) -> bool
    requires permissive { is_permissive (as_mode mode) ≡ true }
    requires bare { Bare (as_mode mode) a b }
    ensures { result ≡ is_ok (direct (as_mode mode) (type_of a.entry) (type_of b.entry)) }
{
    match a.shape() {
        Shape::Plain(kind) => {
            if kind == Kind::of(b.bytes) {
                return true;
            }
        }
        Shape::Set(_) => {
            if let Shape::Set(_) = b.shape() {
                return true;
            }
        }
        Shape::Record(_, _) => {
            if let Shape::Record(_, _) = b.shape() {
                return true;
            }
        }
        Shape::Entity(_) => {
            if let Shape::Entity(_) = b.shape() {
                return true;
            }
        }
        _ => {}
    }
    bound_length(mode, a, b).is_ok()
}

// The attribute with which an attribute is kept: that of its name. None where it is dropped.
pub fn kept_with<'a>(mode: Mode, row: Row, other: Option<Row<'a>>, levels: usize) -> Option<Row<'a>>
    requires row_whole { WholeRow levels row }
    requires other_whole { ForSome other (WholeRow levels) }
    requires bounded { is_ok (joined_row (as_mode mode) levels row other) ≡ true }
    ensures { KeptWith (as_mode mode) levels row.entry other.entry result }
{
    let other = other?;
    let mine = TypeForm {
        levels,
        bytes: row.body,
    };
    let theirs = TypeForm {
        levels,
        bytes: other.body,
    };
    if mode.is_permissive() && !has_bound(mode, mine, theirs) {
        return None;
    }
    Some(other)
}

// How many attributes the bound of two tables has, each from its count on.
pub fn kept_count(mode: Mode, a: &[u8], b: &[u8], levels: usize) -> usize
    requires a_tabled { Tabled levels 0 a.now }
    requires b_tabled { Tabled levels 0 b.now }
    requires joined { is_ok (joined_attrs (as_mode mode) (attrs_at levels 0 a.now) (attrs_at levels 0 b.now)) ≡ true }
    ensures { result ≡ count_of (joined_attrs (as_mode mode) (attrs_at levels 0 a.now) (attrs_at levels 0 b.now)) }
{
    let mut rows: Rows<{ Width::ATTRIBUTE }> = Rows::at(a, 0);
    if !mode.is_permissive() {
        return rows.left;
    }
    let mut others: Rows<{ Width::ATTRIBUTE }> = Rows::at(b, 0);
    let mut count = 0;
    while let Some(row) = rows.next() {
        let other = others.find(row.name());
        if kept_with(mode, row, other, levels).is_some() {
            count += 1;
        }
    }
    count
}

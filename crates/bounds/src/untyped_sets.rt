// Which sets have the untyped set for a bound: loose, those whose elements have none. The kinds of the others are written by a loop.
ghost use Rattle.std.specs.Prelude.{◌≡◌, ◌≤◌, true, not, ◌-◌, length, replicate};
ghost use Rattle.std.specs.Option.{option_map};
ghost use Rattle.cedar.specs.TypeForm.{enc};
ghost use Rattle.cedar.specs.Bound.{join_set};
ghost use Rattle.cedar.specs.Laws.DirectBound.{direct};
ghost use Rattle.forms.specs.TypeForms.{type_of};
ghost use Rattle.forms.specs.Modes.{as_mode};
ghost use Rattle.writing.specs.FormLengths.{form_of};
ghost use Rattle.writing.specs.Written.{Written};
ghost use Rattle.bounds.specs.Joins.{is_ok, KnownLength};
ghost use Rattle.bounds.specs.TypedSets.{PastTyped};

use crate::kept_attributes::has_bound;
use forms::kinds::Kind;
use forms::modes::Mode;
use forms::offsets::Offset;
use forms::type_forms::TypeForm;
use writing::writers::put_first;

// Whether two sets that have a bound have the untyped one, by their elements. Where the length of the bound is known, it tells: no
// other bound of sets has one byte.
#[inline]
pub fn is_untyped(mode: Mode, x: TypeForm, y: TypeForm, known: Option<usize>) -> bool
    requires bounded { is_ok (join_set (as_mode mode) (direct (as_mode mode) (type_of x) (type_of y))) ≡ true }
    requires known_length { KnownLength known (form_of enc (join_set (as_mode mode) (direct (as_mode mode) (type_of x) (type_of y)))) }
    ensures { result ≡ not (is_ok (direct (as_mode mode) (type_of x.entry) (type_of y.entry))) }
{
    if let Some(n) = known {
        return n == Offset::ELEMENT;
    }
    mode.is_loose() && !has_bound(mode, x, y)
}

// The length of a set's element, where the length of the set is known.
#[inline]
pub fn element_length(known: Option<usize>) -> Option<usize>
    ensures { result ≡ option_map (λ n. n - 1) known }
{
    known.map(|n| n.saturating_sub(Offset::ELEMENT))
}

// Two types without the sets that both begin with and whose bound is a typed set, with the length of the bound of what is left, where
// it is known, and how many sets those are.
#[inline]
pub fn past_typed<'a, 'b>(
    mode: Mode,
    a: TypeForm<'a>,
    b: TypeForm<'b>,
    known: Option<usize>,
) -> (TypeForm<'a>, TypeForm<'b>, Option<usize>, usize)
    requires bounded { is_ok (direct (as_mode mode) (type_of a) (type_of b)) ≡ true }
    requires known_length { KnownLength known (form_of enc (direct (as_mode mode) (type_of a) (type_of b))) }
    ensures { PastTyped (as_mode mode) a.entry b.entry result.0 result.1 result.2 result.3 }
{
    let mut left = a;
    let mut right = b;
    let mut length = known;
    let mut sets = 0;
    while let Some(x) = left.element() {
        let Some(y) = right.element() else {
            return (left, right, length, sets);
        };
        if is_untyped(mode, x, y, length) {
            return (left, right, length, sets);
        }
        length = element_length(length);
        left = x;
        right = y;
        sets += 1;
    }
    (left, right, length, sets)
}

// Writes the kinds of so many typed sets.
#[inline]
pub fn put_sets(out: &mut [u8], sets: usize)
    requires { sets ≤ length out.old }
    ensures { Written (replicate sets 7) out.old out.new sets }
{
    let mut at = 0;
    while at < sets {
        put_first(&mut out[at..], Kind::Set);
        at += Offset::ELEMENT;
    }
}

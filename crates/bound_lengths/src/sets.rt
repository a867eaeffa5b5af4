// How long the least upper bound of sets is, by how long that of their elements is.
ghost use Rattle.std.specs.Prelude.{◌≡◌};
ghost use Rattle.forms.specs.Modes.{as_mode};
ghost use Rattle.writing.specs.FormLengths.{seen};
ghost use Rattle.bound_lengths.specs.Sets.{set_length, around, PastSets};

use forms::modes::Mode;
use forms::offsets::Offset;
use forms::refusals::Refusal;
use forms::type_forms::TypeForm;
use writing::form_lengths::longer;

// Loose, two sets whose elements have no bound have the untyped set.
#[inline]
pub fn set_length(mode: Mode, element: Result<usize, Refusal>) -> Result<usize, Refusal>
    ensures { seen result ≡ set_length (as_mode mode) (seen element) }
{
    match element {
        Ok(n) => Ok(longer(n, Offset::ELEMENT)),
        Err(_) if mode.is_loose() => Ok(Offset::ELEMENT),
        Err(refusal) => Err(refusal),
    }
}

// Of types so many sets deep, by the length of the bound of what lies below.
#[inline]
pub fn sets_length(
    mode: Mode,
    sets: usize,
    element: Result<usize, Refusal>,
) -> Result<usize, Refusal>
    ensures { seen result ≡ around sets (set_length (as_mode mode)) (seen element) }
{
    let mut length = element;
    let mut left = sets;
    while left > 0 {
        length = set_length(mode, length);
        left -= 1;
    }
    length
}

// Two types without the sets that both begin with, and how many those are: a loop that calls nothing goes down them.
#[inline]
pub fn past_sets<'a, 'b>(a: TypeForm<'a>, b: TypeForm<'b>) -> (TypeForm<'a>, TypeForm<'b>, usize)
    ensures { PastSets a.entry b.entry result.0 result.1 result.2 }
{
    let mut left = a;
    let mut right = b;
    let mut sets = 0;
    while let Some(x) = left.element() {
        let Some(y) = right.element() else {
            return (left, right, sets);
        };
        left = x;
        right = y;
        sets += 1;
    }
    (left, right, sets)
}

// Lists of ascending names, two bytes each, and the union of two, name by name.
ghost use Rattle.std.specs.Prelude.{◌≡◌, ◌+◌, ◌*◌, ◌<◌, ◌≤◌, cond, leb, length, slice_get, IfSome};
ghost use Rattle.cedar.specs.Bound.{union};
ghost use Rattle.bound_lengths.specs.Names.{Merged};
ghost use Rattle.forms.specs.Names.{names_in, Ascending};

use forms::numbers::u16_at;
use forms::widths::Width;

// What is left of two lists of names.
#[derive(Clone, Copy)]
pub struct Union<'a> {
    pub left: &'a [u8],
    pub right: &'a [u8],
}

// The first name of a list.
fn first(names: &[u8]) -> Option<usize>
    requires { Ascending names.now }
    ensures value { result ≡ slice_get (names_in names.now) 0 }
    ensures small { IfSome result (λ name. name < 65536) }
{
    if names.is_empty() {
        return None;
    }
    Some(u16_at(names, 0))
}

// How many names are taken of a list that begins with p, beside one that begins with q: 1 or 0, a number, so that the merge of two lists
// has no branch to guess.
fn taken(p: usize, q: usize) -> usize
    ensures { result ≡ cond (leb p q) 1 0 }
{
    if p <= q {
        return 1;
    }
    0
}

impl Union<'_> {
    // The next name of the union.
    pub fn next(&mut self) -> Option<usize>
        requires { Ascending self.old.left.now × Ascending self.old.right.now }
        ensures { Merged self.old.left.now self.old.right.now self.new.left.now self.new.right.now result }
    {
        match (first(self.left), first(self.right)) {
            (Some(p), Some(q)) => {
                self.left = &self.left[Width::NAME * taken(p, q)..];
                self.right = &self.right[Width::NAME * taken(q, p)..];
                Some(p.min(q))
            }
            (Some(p), None) => {
                self.left = &self.left[Width::NAME..];
                Some(p)
            }
            (None, Some(q)) => {
                self.right = &self.right[Width::NAME..];
                Some(q)
            }
            (None, None) => None,
        }
    }

    // How many names the union has.
    pub fn count(mut self) -> usize
        requires { Ascending self.left.now × Ascending self.right.now }
        ensures many { result ≡ length (union (names_in self.entry.left.now) (names_in self.entry.right.now)) }
        ensures most { 2 * result ≤ length self.entry.left.now + length self.entry.right.now }
    {
        let mut count = 0;
        while self.next().is_some() {
            count += 1;
        }
        count
    }
}

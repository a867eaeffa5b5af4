// The names that a record type requires.
ghost use Rattle.std.specs.Prelude.{◌≡◌, ℕ};
ghost use Rattle.cedar.specs.Conformance.{has_required};
ghost use Rattle.conformance.specs.Walks.{Records, attributes_of, pairs_of};

use forms::offsets::{Offset, ValueOffset};
use forms::rows::Rows;
use forms::widths::Width;

// Whether a record value has each name that a record type requires. Names ascend in both: what is passed for one is passed for the next.
pub fn has_required(t: &[u8], v: &[u8]) -> bool
    requires { Records t.now v.now }
    ensures { (l : ℕ) → result ≡ has_required (attributes_of l t.now) (pairs_of l v.now) }
{
    let mut attributes: Rows<{ Width::ATTRIBUTE }> = Rows::at(t, Offset::RECORD_COUNT);
    let mut pairs: Rows<{ Width::PAIR }> = Rows::at(v, ValueOffset::RECORD_COUNT);
    while let Some(attribute) = attributes.next() {
        if !attribute.is_required() {
            continue;
        }
        if pairs.find(attribute.name()).is_none() {
            return false;
        }
    }
    true
}

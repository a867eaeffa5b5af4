// Lists of names that ascend strictly, two bytes each.
ghost use Rattle.std.specs.Prelude.{◌≡◌};
ghost use Rattle.cedar.specs.Disjoint.{shares};
ghost use Rattle.cedar.specs.Subtype.{subset};
ghost use Rattle.forms.specs.Names.{names_in, Ascending};

use forms::numbers::u16_at;
use forms::widths::Width;

// Whether two lists have a name in common: the search stops at the first. What is below a name of the first list is passed for good, so each
// list is gone through once.
pub fn names_share(first: &[u8], second: &[u8]) -> bool
    requires first_up { Ascending first.now }
    requires second_up { Ascending second.now }
    ensures { result ≡ shares (names_in first.now) (names_in second.now) }
{
    if second.is_empty() {
        return false;
    }
    let mut shared = false;
    let mut a = first;
    let mut b = second;
    'search: while !a.is_empty() {
        let x = u16_at(a, 0);
        while u16_at(b, 0) < x {
            b = &b[Width::NAME..];
            if b.is_empty() {
                break 'search;
            }
        }
        if u16_at(b, 0) == x {
            shared = true;
            break 'search;
        }
        a = &a[Width::NAME..];
    }
    shared
}

// Whether each name of the first list stands in the second.
pub fn names_subset(first: &[u8], second: &[u8]) -> bool
    requires first_up { Ascending first.now }
    requires second_up { Ascending second.now }
    ensures { result ≡ subset (names_in first.now) (names_in second.now) }
{
    let mut a = first;
    let mut b = second;
    while !a.is_empty() {
        if b.is_empty() {
            return false;
        }
        let x = u16_at(a, 0);
        let y = u16_at(b, 0);
        if x < y {
            return false;
        }
        if x == y {
            a = &a[Width::NAME..];
        }
        b = &b[Width::NAME..];
    }
    true
}

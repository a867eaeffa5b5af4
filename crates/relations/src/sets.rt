// Sets in sets: loops that call nothing go down them.
ghost use Rattle.relations.specs.Sets.{PastSets, PastOwnSets};

use forms::type_forms::TypeForm;

// Two types without the sets that both begin with.
#[inline]
pub fn past_sets<'a, 'b>(t0: TypeForm<'a>, t1: TypeForm<'b>) -> (TypeForm<'a>, TypeForm<'b>)
    ensures { PastSets t0.entry t1.entry result.0 result.1 }
{
    let mut lower = t0;
    let mut upper = t1;
    while let Some(x) = lower.element() {
        let Some(y) = upper.element() else {
            return (lower, upper);
        };
        lower = x;
        upper = y;
    }
    (lower, upper)
}

// A type without the sets that it begins with.
#[inline]
pub fn past_own_sets<'a>(t: TypeForm<'a>) -> TypeForm<'a>
    ensures { PastOwnSets t.entry result }
{
    let mut left = t;
    while let Some(x) = left.element() {
        left = x;
    }
    left
}

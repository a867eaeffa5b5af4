// The flag of a bound of records.
ghost use Rattle.std.specs.Prelude.{◌≡◌, ◌||◌, ◌&&◌, not, eqb};

// Whether a bound of records is open: if either was or a name was lost, where n of left and right names are kept.
pub fn is_open(a: bool, b: bool, n: usize, left: usize, right: usize) -> bool
    ensures { result ≡ (a || b || not (eqb n left && eqb n right)) }
{
    let all_kept = n == left && n == right;
    a || b || !all_kept
}

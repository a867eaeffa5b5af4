// How long a type form is, before it is written.
ghost use Rattle.std.specs.Prelude.{◌≡◌, ◌+◌};
ghost use Rattle.writing.specs.FormLengths.{cap};

use forms::limits::Limits;

// A length, or one byte more than the largest form that any limits allow.
pub fn capped(n: usize) -> usize
    ensures { result ≡ cap n }
{
    n.min(Limits::MOST_BYTES + 1)
}

// So many bytes more.
pub fn longer(n: usize, by: usize) -> usize
    ensures { result ≡ cap (n + by) }
{
    capped(n.saturating_add(by))
}

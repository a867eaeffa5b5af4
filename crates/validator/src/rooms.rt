// The room for an answer.
ghost use Rattle.std.specs.Prelude.{◌≡◌, min, leb};
ghost use Rattle.forms.specs.Limits.{as_limits};

use forms::limits::Limits;

// Whether an answer of so many bytes is within a result buffer and the limit on a form's length.
pub fn answer_fits(limits: Limits, n: usize, room: usize) -> bool
    ensures { result ≡ leb n (min room (as_limits limits).bytes) }
{
    if limits.bytes < n {
        return false;
    }
    n <= room
}

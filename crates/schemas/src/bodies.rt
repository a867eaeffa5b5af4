// The body of an entity type or an action: a record form.
ghost use Rattle.std.specs.Prelude.{◌≡◌};
ghost use Rattle.forms.specs.Limits.{as_limits};
ghost use Rattle.schemas.specs.SchemaBytes.{body_fits};

use forms::kinds::{Kind, Openness};
use forms::limits::Limits;
use forms::offsets::Offset;
use forms::types::whole_type;

// Whether a body is a whole record form, closed where it must be.
pub fn body_within(b: &[u8], closed: bool, limits: Limits) -> bool
    ensures { result ≡ body_fits (as_limits limits) closed b.now }
{
    if !whole_type(b, limits) {
        return false;
    }
    if Kind::of(b) != Kind::Record {
        return false;
    }
    !closed || b[Offset::OPEN] == Openness::CLOSED
}

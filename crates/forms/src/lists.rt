// Whether bytes are a whole list of type forms.
ghost use Rattle.std.specs.Prelude.{◌≡◌, ◌*◌, length};
ghost use Rattle.cedar.specs.Types.{present};
ghost use Rattle.cedar.specs.Whole.{whole_list};
ghost use Rattle.forms.specs.Limits.{as_limits};
ghost use Rattle.forms.specs.ListBytes.{whole_ts};

use crate::limits::Limits;
use crate::rows::Members;
use crate::types::whole_type;

// Whether what is left of a list are whole types, with no byte over.
fn types_within(types: Members, limits: Limits) -> bool
    requires { length types.entries.now ≡ 2 * types.left }
    ensures { result ≡ whole_ts (as_limits limits) types.entry.left types.entry.entries.now types.entry.bodies.now }
{
    let mut ahead = types;
    while 0 < ahead.left {
        let Some(row) = ahead.take() else {
            return false;
        };
        if !whole_type(row.body, limits) {
            return false;
        }
    }
    ahead.bodies.is_empty()
}

// Whether l is a whole list within the limits.
pub fn whole_list(l: &[u8], limits: Limits) -> bool
    ensures { result ≡ present (whole_list (as_limits limits) l.now) }
{
    if Limits::BLOCK_BYTES < l.len() {
        return false;
    }
    let Some(types) = Members::within(l, 0) else {
        return false;
    };
    types.left <= Limits::LISTED && types_within(types, limits)
}

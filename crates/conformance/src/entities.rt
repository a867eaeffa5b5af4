// Entity types of uids.
ghost use Rattle.std.specs.Prelude.{◌≡◌, ◌&&◌, eqb};
ghost use Rattle.cedar.specs.Types.{is_action, mem};
ghost use Rattle.forms.specs.Names.{names_in};

use forms::numbers::u16_at;
use forms::widths::Width;
use schemas::order::is_action;

// Whether a uid's type is an action type, and the one asked for.
pub fn is_action_of(name: usize, action: usize) -> bool
    ensures { result ≡ (is_action name && eqb name action) }
{
    is_action(name) && name == action
}

// Whether a name stands among names.
pub fn stands(names: &[u8], name: usize) -> bool
    ensures { result ≡ mem name (names_in names.now) }
{
    for pair in names.chunks_exact(Width::NAME) {
        if u16_at(pair, 0) == name {
            return true;
        }
    }
    false
}

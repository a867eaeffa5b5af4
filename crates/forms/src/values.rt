// Whether bytes are a whole value form.
ghost use Rattle.std.specs.Prelude.{◌≡◌, ◌<◌};
ghost use Rattle.cedar.specs.Types.{present};
ghost use Rattle.cedar.specs.Whole.{whole_value};
ghost use Rattle.forms.specs.Limits.{as_limits};
ghost use Rattle.forms.specs.Rows.{table_fits};
ghost use Rattle.forms.specs.ValueBytes.{member_row, pair_row, whole_v};

use crate::kinds::ValueKind;
use crate::limits::Limits;
use crate::numbers::u16_at;
use crate::offsets::ValueOffset;
use crate::rows::{Members, Pairs};

// Whether the values whose count stands at `at` are whole, each within so many levels, with no byte over.
#[cycle(members_within_pairs_within_value_within)]
fn members_within(v: &[u8], at: usize, levels: usize) -> bool
    requires { at < 4 }
    ensures { result ≡ table_fits member_row (λ _. whole_v levels) tt at v.now }
{
    let Some(members) = Members::within(v, at) else {
        return false;
    };
    let mut ahead = members;
    while 0 < ahead.left {
        let Some(member) = ahead.take() else {
            return false;
        };
        if !value_within(member.body, levels) {
            return false;
        }
    }
    ahead.bodies.is_empty()
}

// Whether the pairs of a record value are whole, each within so many levels, with no byte over.
#[cycle(members_within_pairs_within_value_within)]
fn pairs_within(v: &[u8], levels: usize) -> bool
    ensures { result ≡ table_fits pair_row (λ _. whole_v levels) 0 1 v.now }
{
    let Some(pairs) = Pairs::within(v, ValueOffset::RECORD_COUNT) else {
        return false;
    };
    let mut ahead = pairs;
    let mut low = 0;
    while 0 < ahead.left {
        let Some(pair) = ahead.take() else {
            return false;
        };
        if pair.name() < low {
            return false;
        }
        if !value_within(pair.body, levels) {
            return false;
        }
        low = pair.name() + 1;
    }
    ahead.bodies.is_empty()
}

// Whether v is a whole value form of at most so many levels.
#[cycle(members_within_pairs_within_value_within)]
pub fn value_within(v: &[u8], levels: usize) -> bool
    ensures { result ≡ whole_v levels v.now }
{
    if levels == 0 {
        return false;
    }
    if v.is_empty() {
        return false;
    }
    let Ok(kind) = ValueKind::try_from(v[0]) else {
        return false;
    };
    match kind {
        ValueKind::False | ValueKind::True => v.len() == ValueOffset::BOOLEAN_END,
        ValueKind::Long => v.len() == ValueOffset::LONG_END,
        ValueKind::String => {
            ValueOffset::STRING <= v.len()
                && v.len() == ValueOffset::STRING + u16_at(v, ValueOffset::STRING_COUNT)
        }
        ValueKind::Uid => v.len() == ValueOffset::UID_END,
        ValueKind::Set => members_within(v, ValueOffset::SET_COUNT, levels - 1),
        ValueKind::Record => pairs_within(v, levels - 1),
        ValueKind::Call => members_within(v, ValueOffset::CALL_COUNT, levels - 1),
    }
}

// Whether v is a whole value form within the limits.
pub fn whole_value(v: &[u8], limits: Limits) -> bool
    ensures { result ≡ present (whole_value (as_limits limits) v.now) }
{
    if limits.bytes < v.len() {
        return false;
    }
    value_within(v, limits.levels)
}

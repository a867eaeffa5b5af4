// Whether every string of a value is text, by falling level.
ghost use Rattle.std.specs.Prelude.{◌≡◌, true, ◌<◌, ◌≤◌};
ghost use Rattle.cedar.specs.Text.{textual, textual_values};
ghost use Rattle.forms.specs.Rows.{body_row, table_fits};
ghost use Rattle.forms.specs.ValueBytes.{whole_v, dec_v};
ghost use Rattle.strings.specs.Bodies.{bodies_at};

use crate::text::{is_text, plain};
use forms::kinds::ValueKind;
use forms::numbers::u16_at;
use forms::offsets::ValueOffset;
use forms::widths::Width;

// Whether every string of the bodies is text, in a table whose count stands at `at` and whose entries have this width. The outermost
// table is first looked at as one run of bytes: where none is above 127, nor is any in a string.
#[cycle(bodies_are_textual_body_is_textual_strings_are_text)]
fn bodies_are_textual(v: &[u8], at: usize, width: usize, levels: usize, outermost: bool) -> bool
    requires at_bound { (at < 4) × (2 ≤ width) × (width ≤ 4) }
    requires v_table { table_fits (body_row width) (λ _. whole_v levels) tt at v.now ≡ true }
    ensures { result ≡ textual_values (bodies_at levels width at v.now) }
{
    let n = u16_at(v, at);
    let start = at + Width::COUNT;
    let end = start + width * n;
    let mut e = &v[start..end];
    let mut b = &v[end..];
    if outermost && plain(b, 0, b.len()) {
        return true;
    }
    let mut left = n;
    while 0 < left {
        let len = u16_at(e, width - Width::LENGTH);
        if !body_is_textual(&b[0..len], levels) {
            return false;
        }
        e = &e[width..];
        b = &b[len..];
        left -= 1;
    }
    true
}

// Whether every string of a body is text: a Boolean, a Long and a uid have none.
#[cycle(bodies_are_textual_body_is_textual_strings_are_text)]
fn body_is_textual(v: &[u8], levels: usize) -> bool
    requires { whole_v levels v.now ≡ true }
    ensures { result ≡ textual (dec_v levels v.now) }
{
    match ValueKind::of(v) {
        ValueKind::String | ValueKind::Set | ValueKind::Record | ValueKind::Call => {
            strings_are_text(v, levels, false)
        }
        _ => true,
    }
}

// Whether every string of v is text, a whole value form of at most so many levels, the outermost one or a body.
#[cycle(bodies_are_textual_body_is_textual_strings_are_text)]
fn strings_are_text(v: &[u8], levels: usize, outermost: bool) -> bool
    requires { whole_v levels v.now ≡ true }
    ensures { result ≡ textual (dec_v levels v.now) }
{
    match ValueKind::of(v) {
        ValueKind::String => is_text(&v[ValueOffset::STRING..]),
        ValueKind::Set => {
            let at = ValueOffset::SET_COUNT;
            bodies_are_textual(&v[0..], at, Width::MEMBER, levels - 1, outermost)
        }
        ValueKind::Record => {
            let at = ValueOffset::RECORD_COUNT;
            bodies_are_textual(&v[0..], at, Width::PAIR, levels - 1, outermost)
        }
        ValueKind::Call => {
            let at = ValueOffset::CALL_COUNT;
            bodies_are_textual(&v[0..], at, Width::MEMBER, levels - 1, outermost)
        }
        _ => true,
    }
}

// Whether every string of v is text, a whole value form of at most so many levels.
pub fn is_textual(v: &[u8], levels: usize) -> bool
    requires { whole_v levels v.now ≡ true }
    ensures { result ≡ textual (dec_v levels v.now) }
{
    strings_are_text(v, levels, true)
}

// How many levels a whole form has: one, and one more than the deepest part if it has parts. By falling level.
ghost use Rattle.std.specs.Prelude.{◌≡◌, true, ◌<◌, ◌≤◌, max};
ghost use Rattle.cedar.specs.Levels.{depth, depth_value};
ghost use Rattle.forms.specs.Rows.{body_row, table_fits};
ghost use Rattle.forms.specs.TypeBytes.{whole, dec};
ghost use Rattle.forms.specs.ValueBytes.{whole_v, dec_v};
ghost use Rattle.levels.specs.Deepest.{whole_form, levels_in, deepest_at};

use forms::kinds::{Kind, ValueKind};
use forms::numbers::u16_at;
use forms::offsets::{Offset, ValueOffset};
use forms::widths::Width;

// What is walked.
#[derive(Clone, Copy)]
pub enum Form {
    Types,
    Values,
}

// The larger of `most` and the levels of a body.
#[cycle(deeper_deepest_body_type_levels_value_levels)]
fn deeper(form: Form, b: &[u8], levels: usize, most: usize) -> usize
    requires { whole_form form levels b.now ≡ true }
    ensures { result ≡ max most (levels_in form levels b.now) }
{
    match form {
        Form::Types => most.max(type_levels(&b[0..], levels)),
        Form::Values => most.max(value_levels(&b[0..], levels)),
    }
}

// The levels of the deepest body in a table whose count stands at `at` and whose entries have this width; 0 if it has none. A form has no
// more levels than bytes: a body of no more bytes than `most` is passed over, and where those that are left have a byte each and no more
// than `most` together beyond that, the walk ends.
#[cycle(deeper_deepest_body_type_levels_value_levels)]
fn deepest_body(form: Form, t: &[u8], at: usize, width: usize, levels: usize) -> usize
    requires at_bound { (at < 4) × (2 ≤ width) × (width ≤ 5) }
    requires t_table { table_fits (body_row width) (λ _. whole_form form levels) tt at t.now ≡ true }
    ensures { result ≡ deepest_at form levels width at t.now }
{
    let n = u16_at(t, at);
    let start = at + Width::COUNT;
    let end = start + width * n;
    if n == 0 {
        return 0;
    }
    let mut e = &t[start..end];
    let mut b = &t[end..];
    let mut left = n;
    let mut most = 1;
    while left + most <= b.len() {
        let len = u16_at(e, width - Width::LENGTH);
        if most < len {
            most = deeper(form, &b[0..len], levels, most);
        }
        e = &e[width..];
        b = &b[len..];
        left -= 1;
    }
    most
}

// The levels of t, a whole type form of at most so many. A loop that calls nothing goes down a chain of sets.
#[cycle(deeper_deepest_body_type_levels_value_levels)]
pub fn type_levels(t: &[u8], levels: usize) -> usize
    requires { whole levels t.now ≡ true }
    ensures { result ≡ depth (dec levels t.now) }
{
    let mut b = &t[0..];
    let mut left = levels;
    while b[0] == Kind::Set as u8 {
        b = &b[Offset::ELEMENT..];
        left -= 1;
    }
    let above = levels - left + 1;
    let below = left - 1;
    match Kind::of(b) {
        Kind::Record => {
            let at = Offset::RECORD_COUNT;
            above + deepest_body(Form::Types, b, at, Width::ATTRIBUTE, below)
        }
        Kind::Action => {
            let at = Offset::ACTION_COUNT;
            above + deepest_body(Form::Types, b, at, Width::ATTRIBUTE, below)
        }
        _ => above,
    }
}

// The levels of v, a whole value form of at most so many.
#[cycle(deeper_deepest_body_type_levels_value_levels)]
pub fn value_levels(v: &[u8], levels: usize) -> usize
    requires { whole_v levels v.now ≡ true }
    ensures { result ≡ depth_value (dec_v levels v.now) }
{
    let below = levels - 1;
    match ValueKind::of(v) {
        ValueKind::Set => {
            let at = ValueOffset::SET_COUNT;
            deepest_body(Form::Values, &v[0..], at, Width::MEMBER, below) + 1
        }
        ValueKind::Record => {
            let at = ValueOffset::RECORD_COUNT;
            deepest_body(Form::Values, &v[0..], at, Width::PAIR, below) + 1
        }
        ValueKind::Call => {
            let at = ValueOffset::CALL_COUNT;
            deepest_body(Form::Values, &v[0..], at, Width::MEMBER, below) + 1
        }
        _ => 1,
    }
}

// Whether bytes are a whole type form.
ghost use Rattle.std.specs.Prelude.{◌≡◌, ◌/◌, ◌<◌, ◌≤◌, length};
ghost use Rattle.cedar.specs.Types.{present};
ghost use Rattle.cedar.specs.Whole.{whole_type};
ghost use Rattle.forms.specs.Limits.{as_limits};
ghost use Rattle.forms.specs.Rows.{table_fits};
ghost use Rattle.forms.specs.TypeBytes.{names_up, names_fit, attr_row, whole};

use crate::kinds::{Kind, Openness, Requirement};
use crate::limits::Limits;
use crate::numbers::u16_at;
use crate::offsets::Offset;
use crate::rows::Attributes;
use crate::widths::Width;

// Whether names, two bytes each, ascend strictly.
pub fn names_ascend(names: &[u8]) -> bool
    ensures { result ≡ names_up (length names.now / 2) 0 names.now }
{
    let mut low = 0;
    for pair in names.chunks_exact(Width::NAME) {
        let name = u16_at(pair, 0);
        if name < low {
            return false;
        }
        low = name + 1;
    }
    true
}

// Whether an entity form has a name, as many as it says, and they ascend.
fn entity_within(t: &[u8]) -> bool
    ensures { result ≡ names_fit t.now }
{
    if t.len() < Offset::ENTITY_NAMES {
        return false;
    }
    let n = u16_at(t, Offset::ENTITY_COUNT);
    if n < 1 {
        return false;
    }
    if t.len() != Offset::ENTITY_NAMES + Width::NAME * n {
        return false;
    }
    names_ascend(&t[Offset::ENTITY_NAMES..])
}

// Whether an attribute's entry has a flag and a name of at least low.
fn attribute_follows(e: &[u8], low: usize) -> bool
    requires { 5 ≤ length e.now }
    ensures { result ≡ attr_row.ok low e.now }
{
    if Requirement::REQUIRED < e[Offset::REQUIRED] {
        return false;
    }
    low <= u16_at(e, 0)
}

// Whether the attributes whose count stands at `at` are whole, each within so many levels, with no byte over.
#[cycle(attributes_within_type_within)]
fn attributes_within(t: &[u8], at: usize, levels: usize) -> bool
    requires { at < 4 }
    ensures { result ≡ table_fits attr_row (λ _. whole levels) 0 at t.now }
{
    let Some(attributes) = Attributes::within(t, at) else {
        return false;
    };
    let mut ahead = attributes;
    let mut low = 0;
    while 0 < ahead.left {
        let Some(attribute) = ahead.take() else {
            return false;
        };
        if !attribute_follows(attribute.head, low) {
            return false;
        }
        if !type_within(attribute.body, levels) {
            return false;
        }
        low = attribute.name() + 1;
    }
    ahead.bodies.is_empty()
}

// Whether t is a whole type form of at most so many levels. A loop that calls nothing goes down a chain of sets. It walks a
// part of t, since a slice that is handed on as it came is copied through memory at each call, which takes several times as long.
#[cycle(attributes_within_type_within)]
pub fn type_within(t: &[u8], levels: usize) -> bool
    ensures { result ≡ whole levels t.now }
{
    let mut b = &t[0..];
    let mut left = levels;
    loop {
        if left == 0 {
            return false;
        }
        if b.len() == 0 {
            return false;
        }
        if b[0] != Kind::Set as u8 {
            break;
        }
        b = &b[Offset::ELEMENT..];
        left -= 1;
    }
    let Ok(kind) = Kind::try_from(b[0]) else {
        return false;
    };
    match kind {
        Kind::Record => {
            if b.len() < Offset::RECORD_COUNT {
                return false;
            }
            if Openness::OPEN < b[Offset::OPEN] {
                return false;
            }
            attributes_within(b, Offset::RECORD_COUNT, left - 1)
        }
        Kind::Entity => entity_within(b),
        Kind::Action => attributes_within(b, Offset::ACTION_COUNT, left - 1),
        Kind::Extension => b.len() == Offset::EXTENSION_END,
        _ => b.len() == Offset::ELEMENT,
    }
}

// Whether t is a whole type form within the limits.
pub fn whole_type(t: &[u8], limits: Limits) -> bool
    ensures { result ≡ present (whole_type (as_limits limits) t.now) }
{
    if limits.bytes < t.len() {
        return false;
    }
    type_within(t, limits.levels)
}

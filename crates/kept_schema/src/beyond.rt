// Types beyond the standard limits.
use forms::kinds::Kind;
use forms::limits::Limits;
use forms::offsets::Offset;
use forms::widths::Width;

#[derive(Clone, Copy)]
struct Beyond;

impl Beyond {
    const LEVELS: usize = Limits::LEVELS + 1;

    const BYTES: usize = Limits::BYTES + 1;

    const NAMES: u16 = 2047;
}

// Sets in sets: a level more.
pub(crate) fn deep_type() -> [u8; Beyond::LEVELS] {
    let mut form = [Kind::Set as u8; Beyond::LEVELS];
    form[Limits::LEVELS] = Kind::Long as u8;
    form
}

// An entity type of 2,047 names, from 0 on: a byte more.
pub(crate) fn long_type() -> [u8; Beyond::BYTES] {
    let mut form = [0u8; Beyond::BYTES];
    form[0] = Kind::Entity as u8;
    [form[1], form[2]] = Beyond::NAMES.to_le_bytes();
    for name in 0..Beyond::NAMES {
        let at = Offset::ENTITY_NAMES + Width::NAME * usize::from(name);
        [form[at], form[at + 1]] = name.to_le_bytes();
    }
    form
}

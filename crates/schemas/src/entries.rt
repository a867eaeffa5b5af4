// Entries of a section by their keys.
ghost use Rattle.std.specs.Prelude.{◌≡◌, ◌≤◌, length, option_map};
ghost use Rattle.schemas.specs.Entries.{key_is, entry_at, row_bytes, LaidIn};

use crate::sections::Section;
use forms::numbers::u16_at;
use forms::offsets::SchemaOffset;
use forms::rows::{Row, Rows};

// What an entry is found by: an entity type or a function by its name, an action by its type and id.
#[derive(Clone, Copy)]
pub enum Key {
    Name(usize),
    Uid(usize, usize),
}

// What a function's entry says: which extension it returns, if it returns one; and its arguments.
#[derive(Clone, Copy)]
pub struct Signature<'a> {
    pub returns: Option<usize>,
    pub arguments: &'a [u8],
}

// Whether an entry has a key.
fn has_key(e: &[u8], key: Key) -> bool
    requires { 4 ≤ length e.now }
    ensures { result ≡ key_is key e.now }
{
    match key {
        Key::Name(name) => name == u16_at(e, 0),
        Key::Uid(kind, id) => kind == u16_at(e, 0) && id == u16_at(e, SchemaOffset::ACTION_ID),
    }
}

// The row of a key.
pub(crate) fn find_row<'a, const WIDTH: usize>(s: &'a [u8], x: Section, key: Key) -> Option<Row<'a>>
    requires laid { LaidIn WIDTH x s.now }
    requires wide { 4 ≤ WIDTH }
    ensures { option_map row_bytes result ≡ entry_at WIDTH key x s.now }
{
    let mut rows: Rows<WIDTH> = x.rows(s);
    while let Some(row) = rows.next() {
        if has_key(row.head, key) {
            return Some(row);
        }
    }
    None
}

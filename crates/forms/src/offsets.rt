// Where the parts of a form begin, and the lengths of forms that have one.

// A type form.
#[derive(Clone, Copy)]
pub struct Offset;

impl Offset {
    // A form without parts ends after its first byte; a set's element begins there.
    pub const ELEMENT: usize = 1;

    // A record: whether it is open, its count of attributes, and their entries.
    pub const OPEN: usize = 1;

    pub const RECORD_COUNT: usize = 2;

    pub const RECORD_ENTRIES: usize = 4;

    // An entity: its count of names, and the names; the end of one with one name.
    pub const ENTITY_COUNT: usize = 1;

    pub const ENTITY_NAMES: usize = 3;

    pub const ENTITY_END: usize = 5;

    // An action: its name, its count of attributes, and their entries.
    pub const ACTION_NAME: usize = 1;

    pub const ACTION_COUNT: usize = 3;

    pub const ACTION_ENTRIES: usize = 5;

    // An extension: its name, and its end.
    pub const EXTENSION_NAME: usize = 1;

    pub const EXTENSION_END: usize = 3;

    // An attribute's entry: whether it is required.
    pub const REQUIRED: usize = 2;
}

// A value form.
#[derive(Clone, Copy)]
pub struct ValueOffset;

impl ValueOffset {
    // A Boolean ends after its first byte, a Long after its eight.
    pub const BOOLEAN_END: usize = 1;

    pub const LONG_END: usize = 9;

    // A string: its count of bytes, and the bytes.
    pub const STRING_COUNT: usize = 1;

    pub const STRING: usize = 3;

    // A uid: its type, its id, its end.
    pub const UID_TYPE: usize = 1;

    pub const UID_ID: usize = 3;

    pub const UID_END: usize = 5;

    // A set: its count of members.
    pub const SET_COUNT: usize = 1;

    // A record: its count of pairs.
    pub const RECORD_COUNT: usize = 1;

    // A call: its function, and its count of arguments.
    pub const FUNCTION: usize = 1;

    pub const CALL_COUNT: usize = 3;
}

// A schema's counts, and the fields of its entries after the name.
#[derive(Clone, Copy)]
pub struct SchemaOffset;

impl SchemaOffset {
    pub const ENTITIES: usize = 0;

    pub const ACTIONS: usize = 2;

    pub const FUNCTIONS: usize = 4;

    pub const ENTITY_KIND: usize = 2;

    pub const ACTION_ID: usize = 2;

    pub const RETURNS: usize = 2;

    pub const EXTENSION: usize = 3;

    // An argument of a function: its extension.
    pub const ARGUMENT_EXTENSION: usize = 1;
}

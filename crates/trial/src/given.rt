// What a call is given: forms, and buffers that are filled with what no call writes.
ghost use Rattle.std.specs.Prelude.{◌≡◌, replicate};

#[derive(Clone, Copy)]
pub struct Form;

impl Form {
    // Entity types 2 with {1: entity 2} and 4 with {1?: entity 4}; action (3, 0) with {1: Long}.
    pub const SCHEMA: [u8; 60] = [
        2, 0, 1, 0, 0, 0, 2, 0, 0, 14, 0, 4, 0, 0, 14, 0, 3, 0, 0, 0, 10, 0, 8, 0, 1, 0, 1, 0, 1,
        5, 0, 10, 1, 0, 2, 0, 8, 0, 1, 0, 1, 0, 0, 5, 0, 10, 1, 0, 4, 0, 8, 0, 1, 0, 1, 0, 1, 1, 0,
        4,
    ];

    pub const BROKEN: [u8; 1] = [13];

    pub const NEVER: [u8; 1] = [0];

    pub const TRUE: [u8; 1] = [1];

    pub const LONG: [u8; 1] = [4];

    pub const ENTITY_2: [u8; 5] = [10, 1, 0, 2, 0];

    pub const ENTITY_4: [u8; 5] = [10, 1, 0, 4, 0];

    pub const BOTH: [u8; 7] = [10, 2, 0, 2, 0, 4, 0];

    pub const LIST: [u8; 16] = [2, 0, 5, 0, 5, 0, 10, 1, 0, 2, 0, 10, 1, 0, 4, 0];

    // {1: Long}, closed.
    pub const RECORD: [u8; 10] = [8, 0, 1, 0, 1, 0, 1, 1, 0, 4];

    pub const UID_2: [u8; 5] = [4, 2, 0, 7, 0];

    pub const UID_3: [u8; 5] = [4, 3, 0, 0, 0];

    // A schema of one function, 2, which takes nothing and returns extension 7; that extension; a call of 2 with an argument.
    pub const FUNCTION: [u8; 13] = [0, 0, 0, 0, 1, 0, 2, 0, 1, 7, 0, 0, 0];

    pub const EXTENSION: [u8; 3] = [12, 7, 0];

    pub const CALL: [u8; 8] = [7, 2, 0, 1, 0, 1, 0, 1];

    // A set of a string with a byte that no text has.
    pub const NO_TEXT: [u8; 9] = [5, 1, 0, 4, 0, 3, 1, 0, 255];
}

// A result buffer before a call.
pub fn result() -> [u8; 12]
    ensures { result ≡ replicate 12 165 }
{
    [165; 12]
}

// A workspace before a call.
pub fn workspace() -> [u8; 15]
    ensures { result ≡ replicate 15 165 }
{
    [165; 15]
}

// How many bytes an entry of a table takes. Its last two are the length of its body.
#[derive(Clone, Copy)]
pub struct Width;

impl Width {
    // The count before a table.
    pub const COUNT: usize = 2;

    // The length of a body, at the end of its entry.
    pub const LENGTH: usize = 2;

    // A name of an entity type form.
    pub const NAME: usize = 2;

    // An attribute of a record or an action: name, required, length.
    pub const ATTRIBUTE: usize = 5;

    // A member of a set, an argument of a call, a type of a list: length.
    pub const MEMBER: usize = 2;

    // A pair of a record value: name, length.
    pub const PAIR: usize = 4;

    // An entity type of a schema: name, kind, length.
    pub const ENTITY: usize = 5;

    // An action of a schema: type, id, length.
    pub const ACTION: usize = 6;

    // A function of a schema: name, returns, extension, length.
    pub const FUNCTION: usize = 7;

    // An argument of a function: kind, extension.
    pub const ARGUMENT: usize = 3;
}

// The first byte of a form says its kind; two other bytes say yes or no.
ghost use Rattle.std.specs.Prelude.{◌≡◌, ◌<◌, ◌≤◌, length};
ghost use Rattle.cedar.specs.Bytes.{flag};
ghost use Rattle.forms.specs.Parts.{kind};
ghost use Rattle.forms.specs.Kinds.{last_kind, kind_number, IsKind, last_value_kind, value_kind_number, IsValueKind, IsEntityKind, last_argument_kind, argument_kind_number, IsArgumentKind};

// Kinds of type forms, in the order of their numbers.
#[derive(Clone, Copy, Debug, PartialEq, Eq)]
pub enum Kind {
    Never,
    True,
    False,
    Bool,
    Long,
    String,
    AnySet,
    Set,
    Record,
    AnyEntity,
    Entity,
    Action,
    Extension,
}

// A first byte that is no kind's.
#[derive(Clone, Copy, Debug, PartialEq, Eq)]
pub struct UnknownKind;

impl TryFrom<u8> for Kind {
    type Error = UnknownKind;

    ghost try_from_gives = { IsKind };

    fn try_from(number: u8) -> Result<Kind, UnknownKind> {
        match number {
            0 => Ok(Kind::Never),
            1 => Ok(Kind::True),
            2 => Ok(Kind::False),
            3 => Ok(Kind::Bool),
            4 => Ok(Kind::Long),
            5 => Ok(Kind::String),
            6 => Ok(Kind::AnySet),
            7 => Ok(Kind::Set),
            8 => Ok(Kind::Record),
            9 => Ok(Kind::AnyEntity),
            10 => Ok(Kind::Entity),
            11 => Ok(Kind::Action),
            12 => Ok(Kind::Extension),
            _ => Err(UnknownKind),
        }
    }
}

impl Kind {
    // The kind of a whole form.
    #[inline]
    pub fn of(t: &[u8]) -> Kind
        requires { (0 < length t.now) × (kind t.now ≤ last_kind) }
        ensures { kind_number result ≡ kind t.now }
    {
        Kind::try_from(t[0]).unwrap()
    }
}

// Kinds of value forms, in the order of their numbers.
#[derive(Clone, Copy, Debug, PartialEq, Eq)]
pub enum ValueKind {
    False,
    True,
    Long,
    String,
    Uid,
    Set,
    Record,
    Call,
}

impl TryFrom<u8> for ValueKind {
    type Error = UnknownKind;

    ghost try_from_gives = { IsValueKind };

    fn try_from(number: u8) -> Result<ValueKind, UnknownKind> {
        match number {
            0 => Ok(ValueKind::False),
            1 => Ok(ValueKind::True),
            2 => Ok(ValueKind::Long),
            3 => Ok(ValueKind::String),
            4 => Ok(ValueKind::Uid),
            5 => Ok(ValueKind::Set),
            6 => Ok(ValueKind::Record),
            7 => Ok(ValueKind::Call),
            _ => Err(UnknownKind),
        }
    }
}

impl ValueKind {
    // The kind of a whole form.
    #[inline]
    pub fn of(v: &[u8]) -> ValueKind
        requires { (0 < length v.now) × (kind v.now ≤ last_value_kind) }
        ensures { value_kind_number result ≡ kind v.now }
    {
        ValueKind::try_from(v[0]).unwrap()
    }
}

// Kinds of entity types in a schema, in the order of their numbers.
#[derive(Clone, Copy, Debug, PartialEq, Eq)]
pub enum EntityKind {
    Standard,
    Enumerated,
}

impl TryFrom<u8> for EntityKind {
    type Error = UnknownKind;

    ghost try_from_gives = { IsEntityKind };

    fn try_from(number: u8) -> Result<EntityKind, UnknownKind> {
        match number {
            0 => Ok(EntityKind::Standard),
            1 => Ok(EntityKind::Enumerated),
            _ => Err(UnknownKind),
        }
    }
}

// Kinds of a function's arguments, in the order of their numbers.
#[derive(Clone, Copy, Debug, PartialEq, Eq)]
pub enum ArgumentKind {
    Bool,
    Long,
    String,
    Extension,
}

impl TryFrom<u8> for ArgumentKind {
    type Error = UnknownKind;

    ghost try_from_gives = { IsArgumentKind };

    fn try_from(number: u8) -> Result<ArgumentKind, UnknownKind> {
        match number {
            1 => Ok(ArgumentKind::Bool),
            2 => Ok(ArgumentKind::Long),
            3 => Ok(ArgumentKind::String),
            4 => Ok(ArgumentKind::Extension),
            _ => Err(UnknownKind),
        }
    }
}

impl ArgumentKind {
    // The kind of a whole argument.
    #[inline]
    pub fn of(a: &[u8]) -> ArgumentKind
        requires { (0 < length a.now) × ((0 < kind a.now) × (kind a.now ≤ last_argument_kind)) }
        ensures { argument_kind_number result ≡ kind a.now }
    {
        ArgumentKind::try_from(a[0]).unwrap()
    }
}

// The open byte of a record form.
#[derive(Clone, Copy)]
pub struct Openness;

impl Openness {
    pub const CLOSED: u8 = 0;

    pub const OPEN: u8 = 1;

    // The byte of a record that is open, or is not.
    pub fn of(is_open: bool) -> u8
        ensures { result ≡ flag is_open }
    {
        if is_open {
            return Openness::OPEN;
        }
        Openness::CLOSED
    }
}

// The required byte of an attribute's entry.
#[derive(Clone, Copy)]
pub struct Requirement;

impl Requirement {
    pub const OPTIONAL: u8 = 0;

    pub const REQUIRED: u8 = 1;

    // The byte of an attribute that is required, or is not.
    pub fn of(required: bool) -> u8
        ensures { result ≡ flag required }
    {
        if required {
            return Requirement::REQUIRED;
        }
        Requirement::OPTIONAL
    }
}

// Why a call has no answer.
ghost use Rattle.std.specs.Prelude.{◌≡◌};
ghost use Rattle.forms.specs.Refusals.{number_of};

// The question of a call that has a no, or what a bound, a conversion or a conformance walk met.
#[derive(Clone, Copy, Debug, PartialEq, Eq)]
pub enum Refusal {
    Mode,
    Schema,
    First,
    Second,
    Value,
    NotPlain,
    Function,
    Conversion,
    Workspace,
    Answer,
    AttributeQualifier,
    RecordWidth,
    EntityType,
    EntityRecord,
    NoBound,
    Job,
    Text,
    Limits,
}

// A refusal's number.
impl From<Refusal> for u8 {
    ghost from_gives = { λ refusal number. number ≡ number_of refusal };

    fn from(refusal: Refusal) -> u8 {
        match refusal {
            Refusal::Mode => 1,
            Refusal::Schema => 2,
            Refusal::First => 3,
            Refusal::Second => 4,
            Refusal::Value => 5,
            Refusal::NotPlain => 6,
            Refusal::Function => 7,
            Refusal::Conversion => 8,
            Refusal::Workspace => 9,
            Refusal::Answer => 10,
            Refusal::AttributeQualifier => 11,
            Refusal::RecordWidth => 12,
            Refusal::EntityType => 13,
            Refusal::EntityRecord => 14,
            Refusal::NoBound => 15,
            Refusal::Job => 16,
            Refusal::Text => 17,
            Refusal::Limits => 20,
        }
    }
}

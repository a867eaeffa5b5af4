// Two types of which no part is joined: their bound goes by their kinds.
ghost use Rattle.std.specs.Prelude.{◌≡◌};
ghost use Rattle.forms.specs.Kinds.{kind_number};
ghost use Rattle.forms.specs.Modes.{as_mode};
ghost use Rattle.bound_lengths.specs.Kinds.{is_in, unlike, seen_kind, joined_of};

use forms::kinds::Kind;
use forms::modes::Mode;
use forms::refusals::Refusal;

fn is_boolean(kind: Kind) -> bool
    ensures { result ≡ is_in 1 3 (kind_number kind) }
{
    matches!(kind, Kind::True | Kind::False | Kind::Bool)
}

fn is_set(kind: Kind) -> bool
    ensures { result ≡ is_in 6 7 (kind_number kind) }
{
    matches!(kind, Kind::AnySet | Kind::Set)
}

fn is_entity(kind: Kind) -> bool
    ensures { result ≡ is_in 9 11 (kind_number kind) }
{
    matches!(kind, Kind::AnyEntity | Kind::Entity | Kind::Action)
}

fn is_record_or_entity(kind: Kind) -> bool
    ensures { result ≡ is_in 8 11 (kind_number kind) }
{
    kind == Kind::Record || is_entity(kind)
}

// The kind of the bound of two unlike kinds, neither of them Never.
pub fn unlike_kinds(mode: Mode, j: Kind, k: Kind) -> Result<Kind, Refusal>
    ensures { seen_kind result ≡ joined_of (unlike (as_mode mode) (kind_number j) (kind_number k)) }
{
    if is_boolean(j) && is_boolean(k) {
        return Ok(Kind::Bool);
    }
    if is_set(j) && is_set(k) {
        return Ok(Kind::AnySet);
    }
    if is_entity(j) && is_entity(k) {
        if mode.is_permissive() {
            return Ok(Kind::AnyEntity);
        }
        return Err(Refusal::EntityType);
    }
    if is_record_or_entity(j) && is_record_or_entity(k) {
        return Err(Refusal::EntityRecord);
    }
    Err(Refusal::NoBound)
}

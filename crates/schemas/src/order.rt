// Whether an entry of a section may follow the one before.
ghost use Rattle.std.specs.Prelude.{◌≡◌, ◌+◌, ◌<◌, ◌≤◌, eqb, length};
ghost use Rattle.cedar.specs.Types.{is_action};
ghost use Rattle.forms.specs.Parts.{rd};
ghost use Rattle.schemas.specs.Returns.{IsReturns};
ghost use Rattle.schemas.specs.SchemaBytes.{entity_row, action_row, function_row};

use forms::kinds::{EntityKind, UnknownKind};
use forms::numbers::u16_at;
use forms::offsets::SchemaOffset;

// What a function's entry says that it returns, in the order of their numbers.
#[derive(Clone, Copy, Debug, PartialEq, Eq)]
pub enum Returns {
    Nothing,
    Extension,
}

impl TryFrom<u8> for Returns {
    type Error = UnknownKind;

    ghost try_from_gives = { IsReturns };

    fn try_from(number: u8) -> Result<Returns, UnknownKind> {
        match number {
            0 => Ok(Returns::Nothing),
            1 => Ok(Returns::Extension),
            _ => Err(UnknownKind),
        }
    }
}

// Whether the place of an extension is blank: 0 stands where there is none.
pub fn is_blank(b: &[u8], at: usize) -> bool
    requires { at + 1 < length b.now }
    ensures { result ≡ eqb (rd b.now at) 0 }
{
    u16_at(b, at) == 0
}

// What the next entry of a section may be called at least: a name; for an action a type and an id.
#[derive(Clone, Copy)]
pub struct Low {
    pub name: usize,
    pub id: usize,
}

impl Low {
    // The first entry's.
    pub const FIRST: Low = Low { name: 0, id: 0 };
}

// Whether an entity type is an action type.
pub fn is_action(name: usize) -> bool
    ensures { result ≡ is_action name }
{
    name % 2 == 1
}

// Whether an entity entry is of a known kind and has an even name of at least low.
pub fn entity_follows(e: &[u8], low: usize) -> bool
    requires { 5 ≤ length e.now }
    ensures { result ≡ entity_row.ok low e.now }
{
    let name = u16_at(e, 0);
    !is_action(name) && EntityKind::try_from(e[SchemaOffset::ENTITY_KIND]).is_ok() && low <= name
}

// Whether an action entry has an odd type above low, or low itself and an id of at least id.
pub fn action_follows(e: &[u8], low: usize, id: usize) -> bool
    requires { 6 ≤ length e.now }
    ensures { result ≡ action_row.ok (low, id) e.now }
{
    let name = u16_at(e, 0);
    is_action(name) && (low < name || low == name && id <= u16_at(e, SchemaOffset::ACTION_ID))
}

// Whether a function entry names an extension only where it returns one, and has a name of at least low.
pub fn function_follows(e: &[u8], low: usize) -> bool
    requires { 7 ≤ length e.now }
    ensures { result ≡ function_row.ok low e.now }
{
    let names_only_its_own = match Returns::try_from(e[SchemaOffset::RETURNS]) {
        Ok(Returns::Extension) => true,
        Ok(Returns::Nothing) => is_blank(e, SchemaOffset::EXTENSION),
        Err(_) => false,
    };
    names_only_its_own && low <= u16_at(e, 0)
}

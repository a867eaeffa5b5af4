// One number for the outcome of a schema's check.
ghost use Rattle.std.specs.Prelude.{◌≡◌};
ghost use Rattle.schemas.specs.SchemaBytes.{checked};
ghost use Rattle.schemas.specs.Offsets.{offsets_of};
ghost use Rattle.exports.specs.Checks.{packed_of, check_number, limits_in, Near};

use forms::limits::Limits;
use schemas::checked::Checked;
use schemas::offsets::Offsets;
use schemas::sections::entries_end;

// What the second of two offsets is multiplied by, and the bytes of the limits above the levels.
#[derive(Clone, Copy)]
pub struct Packed;

impl Packed {
    pub const STEP: usize = 65536;

    pub const LEVELS: usize = 64;

    // The number where the limits are out of their ranges.
    pub const REFUSED: u64 = 0;
}

// The limits and the offsets as one number. The first offset is not in it: it is read from the schema's counts.
fn pack(limits: Limits, offsets: Option<Offsets>) -> u64
    requires { Near limits offsets }
    ensures { result ≡ packed_of limits offsets }
{
    let above = limits.levels + Packed::LEVELS * limits.bytes;
    let Some(at) = offsets else {
        return (Packed::STEP * (Packed::STEP * above)) as u64;
    };
    (at.actions + Packed::STEP * (at.functions + Packed::STEP * above)) as u64
}

// The limits from a number.
fn limits_from(number: u64) -> Limits
    ensures { result ≡ limits_in number }
{
    let above = number as usize / Packed::STEP / Packed::STEP;
    Limits {
        levels: above % Packed::LEVELS,
        bytes: above / Packed::LEVELS,
    }
}

// The offsets of a schema from their number.
fn unpack(schema: &[u8], number: u64) -> Option<Offsets>
    requires { number ≡ check_number (limits_in number) schema.now }
    ensures { result ≡ offsets_of (checked (limits_in number) schema.now) }
{
    let packed = number as usize;
    let actions = packed % Packed::STEP;
    if actions == 0 {
        return None;
    }
    Some(Offsets {
        entities: entries_end(schema),
        actions,
        functions: packed / Packed::STEP % Packed::STEP,
    })
}

// Checks a schema under limits.
#[unsafe(no_mangle)]
pub extern "C" fn tirncheav_check_schema(levels: usize, bytes: usize, schema: &[u8]) -> u64
    ensures { result ≡ check_number (record { levels = levels; bytes = bytes }) schema.now }
{
    let limits = Limits { levels, bytes };
    if !limits.are_allowed() {
        return Packed::REFUSED;
    }
    pack(limits, Checked::new(limits, schema).offsets())
}

// The check of a schema, from its number.
pub fn check_again(schema: &[u8], number: u64) -> Checked<'_>
    requires { number ≡ check_number (limits_in number) schema.now }
    ensures { (result.bytes ≡ schema.entry) × (result.limits ≡ limits_in number) }
{
    Checked::again(limits_from(number), schema, unpack(schema, number))
}

// The form of a call.
ghost use Rattle.std.specs.Prelude.{◌≡◌, ◌≤◌};
ghost use Rattle.forms.specs.Parts.{rd};
ghost use Rattle.rooms.specs.CallBytes.{wide_of, call_of};

use forms::limits::Limits;

// What an entry is asked: the operation, its mode and attribute, the lengths of the result buffer and the workspace, the lengths of the
// schema and the two bodies, and the limits.
#[derive(Clone, Copy)]
pub struct Call {
    pub operation: u8,
    pub mode: u8,
    pub attribute: u16,
    pub room: u16,
    pub workspace: u16,
    pub schema: u16,
    pub first: u16,
    pub second: u16,
    pub limits: Limits,
}

impl Call {
    // How many bytes its numbers take.
    pub const BYTES: usize = 22;
}

// The most bytes that a body, a result buffer or a workspace has.
pub const LARGEST: usize = 65535;

// What a call is given: a schema and two bodies.
#[derive(Clone, Copy)]
pub struct Bodies<'a> {
    pub schema: &'a [u8],
    pub first: &'a [u8],
    pub second: &'a [u8],
}

// A number of two bytes, the low one first.
fn u16_at(head: &[u8; Call::BYTES], at: usize) -> u16
    requires { «at» ≤ 20 }
    ensures { result ≡ rd head.now «at» }
{
    u16::from_le_bytes([head[at], head[at + 1]])
}

// A number of four bytes, the low one first.
fn u32_at(head: &[u8; Call::BYTES], at: usize) -> usize
    requires { «at» ≤ 18 }
    ensures { result ≡ wide_of «at» head.now }
{
    u32::from_le_bytes([head[at], head[at + 1], head[at + 2], head[at + 3]]) as usize
}

// The call that a head says.
pub fn call_of(head: &[u8; Call::BYTES]) -> Call
    ensures { result ≡ call_of head.now }
{
    Call {
        operation: head[0],
        mode: head[1],
        attribute: u16_at(head, 2),
        room: u16_at(head, 4),
        workspace: u16_at(head, 6),
        schema: u16_at(head, 8),
        first: u16_at(head, 10),
        second: u16_at(head, 12),
        limits: Limits {
            levels: u32_at(head, 14),
            bytes: u32_at(head, 18),
        },
    }
}

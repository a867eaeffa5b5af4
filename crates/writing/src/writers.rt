// Writers: each fills the first bytes of a buffer and no others.
ghost use Rattle.std.specs.Prelude.{◌≡◌, ◌∷◌, [], ◌++◌, ◌<◌, ◌≤◌, length};
ghost use Rattle.cedar.specs.Bytes.{u16, flag};
ghost use Rattle.cedar.specs.Outcome.{over};
ghost use Rattle.forms.specs.Kinds.{kind_number};
ghost use Rattle.writing.specs.Written.{Written};

use forms::kinds::Kind;

// All bytes of a slice.
pub fn copy(src: &[u8], out: &mut [u8])
    requires { length src.now ≤ length out.old }
    ensures { out.new ≡ over src.now out.old }
{
    for i in 0..src.len() {
        out[i] = src[i];
    }
}

// All bytes of a slice; says how many they are.
pub fn put_bytes(src: &[u8], out: &mut [u8]) -> usize
    requires { length src.now ≤ length out.old }
    ensures { Written src.now out.old out.new result }
{
    copy(src, out);
    src.len()
}

// One byte.
pub fn put_one(out: &mut [u8], a: u8)
    requires { 1 ≤ length out.old }
    ensures { out.new ≡ over (a ∷ []) out.old }
{
    out[0] = a;
}

// A name or a count: a u16, low byte first.
pub fn put_name(out: &mut [u8], n: usize)
    requires { (2 ≤ length out.old) × (n < 65536) }
    ensures { out.new ≡ over (u16 n) out.old }
{
    copy(&(n as u16).to_le_bytes(), out);
}

// A kind: a form of one byte, or what a set has before its element.
pub fn put_first(out: &mut [u8], kind: Kind)
    requires { 1 ≤ length out.old }
    ensures { out.new ≡ over (kind_number kind ∷ []) out.old }
{
    put_one(out, kind as u8);
}

// A kind, with a name or a count: an extension, or what an entity has before its names.
pub fn put_kind(out: &mut [u8], kind: Kind, n: usize)
    requires { (3 ≤ length out.old) × (n < 65536) }
    ensures { out.new ≡ over (kind_number kind ∷ u16 n) out.old }
{
    put_first(out, kind);
    put_name(&mut out[1..], n);
}

// An entity of one name.
pub fn put_entity(out: &mut [u8], name: usize)
    requires { (5 ≤ length out.old) × (name < 65536) }
    ensures { out.new ≡ over (10 ∷ u16 1 ++ u16 name) out.old }
{
    put_kind(out, Kind::Entity, 1);
    put_name(&mut out[3..], name);
}

// What a record has before its entries.
pub fn put_record(out: &mut [u8], is_open: bool, n: usize)
    requires { (4 ≤ length out.old) × (n < 65536) }
    ensures { out.new ≡ over (8 ∷ flag is_open ∷ u16 n) out.old }
{
    put_first(out, Kind::Record);
    put_one(&mut out[1..], u8::from(is_open));
    put_name(&mut out[2..], n);
}

// An attribute's entry.
pub fn put_attribute(out: &mut [u8], name: usize, required: bool, len: usize)
    requires { (5 ≤ length out.old) × ((name < 65536) × (len < 65536)) }
    ensures { out.new ≡ over (u16 name ++ (flag required ∷ u16 len)) out.old }
{
    put_name(out, name);
    put_one(&mut out[2..], u8::from(required));
    put_name(&mut out[3..], len);
}

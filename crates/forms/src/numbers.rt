// Numbers in byte forms.
ghost use Rattle.std.specs.Prelude.{◌≡◌, ◌+◌, ◌<◌, length};
ghost use Rattle.forms.specs.Parts.{rd};

// A byte as a count.
pub fn wide(x: u8) -> usize
    ensures { (result ≡ x) × (result < 256) }
{
    x as usize
}

// The u16 at i, low byte first.
pub fn u16_at(b: &[u8], i: usize) -> usize
    requires { i + 1 < length b.now }
    ensures { (result ≡ rd b.now i) × (result < 65536) }
{
    wide(b[i]) + 256 * wide(b[i + 1])
}

// The workspace, all zero after every call.
ghost use Rattle.std.specs.Prelude.{◌≡◌, length, replicate};

// Sets every byte to 0.
pub fn clear(work: &mut [u8])
    ensures { work.new ≡ replicate (length work.old) 0 }
{
    work.fill(0);
}

// What the benchmark measures alone: whether bytes are text.
#![tactic(auto)]

ghost use Rattle.std.specs.Prelude.{◌≡◌};
ghost use Rattle.cedar.specs.Bytes.{flag};
ghost use Rattle.cedar.specs.Text.{is_text};

use strings::text::is_text;

// 1 where b is text, else 0.
#[unsafe(no_mangle)]
pub extern "C" fn tirncheav_measured_is_text(b: &[u8]) -> u64
    ensures { result ≡ flag (is_text b.now) }
{
    if is_text(b) {
        return 1;
    }
    0
}

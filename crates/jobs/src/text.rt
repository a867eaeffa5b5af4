// Numbers and bytes as text, in ASCII.
ghost use Rattle.std.specs.Prelude.{◌≡◌, ◌∷◌, [], ◌≤◌, ◌<◌, length};
ghost use Rattle.cedar.specs.Lines.{digit as digit_of, decimal, hex};
ghost use Rattle.writing.specs.Written.{Written};

use writing::writers::put_one;

// A digit of base 16 at most.
fn digit(d: usize) -> u8
    requires { d < 16 }
    ensures { result ≡ digit_of d }
{
    if d < 10 {
        b'0' + d as u8
    } else {
        b'a' - 10 + d as u8
    }
}

// Writes n in decimal, and returns how many digits it has.
pub fn put_decimal(n: usize, out: &mut [u8]) -> usize
    requires { length (decimal n) ≤ length out.old }
    ensures { Written (decimal n) out.old out.new result }
{
    if n < 10 {
        put_one(out, digit(n));
        return 1;
    }
    let at = put_decimal(n / 10, out);
    put_one(&mut out[at..], digit(n % 10));
    at + 1
}

// Writes a byte as two hex digits.
fn put_byte(x: u8, out: &mut [u8])
    requires { 2 ≤ length out.old }
    ensures { Written (hex (x ∷ [])) out.old out.new 2 }
{
    let d = x as usize;
    put_one(out, digit(d / 16));
    put_one(&mut out[1..], digit(d % 16));
}

// Writes b in lower-case hex, and returns how many digits that takes.
pub fn put_hex(b: &[u8], out: &mut [u8]) -> usize
    requires { length (hex b.now) ≤ length out.old }
    ensures { Written (hex b.now) out.old out.new result }
{
    let mut at = 0;
    for x in b {
        put_byte(*x, &mut out[at..]);
        at += 2;
    }
    at
}

// Whether bytes are text: UTF-8 as in RFC 3629.
ghost use Rattle.std.specs.Prelude.{◌≡◌, true, ◌+◌, ◌-◌, ◌%◌, ◌<◌, ◌≤◌, length, get_or};
ghost use Rattle.cedar.specs.Text.{tail, is_text};
ghost use Rattle.strings.specs.Steps.{is_in, second_range, Width, Plain, Passes, PassesWide};

// How many bytes below 128 are passed by one test: first many, then a few.
#[derive(Clone, Copy)]
struct Block;

impl Block {
    const LONG: usize = 64;

    const SHORT: usize = 8;
}

// Is x from low to high?
fn within(low: u8, high: u8, x: u8) -> bool
    ensures { result ≡ is_in (low, high) x }
{
    (low..=high).contains(&x)
}

// Is x a tail: a byte after the second, or the second of two?
fn is_tail(x: u8) -> bool
    ensures { result ≡ is_in tail x }
{
    within(0x80, 0xBF, x)
}

// May y follow the first byte x of three or four?
fn is_second(x: u8, y: u8) -> bool
    ensures { result ≡ is_in (second_range x) y }
{
    match x {
        0xE0 => within(0xA0, 0xBF, y),
        0xED => within(0x80, 0x9F, y),
        0xF0 => within(0x90, 0xBF, y),
        0xF4 => within(0x80, 0x8F, y),
        _ => is_tail(y),
    }
}

// Two where a character of two bytes stands at `at`, whose first byte begins one.
fn width_two(b: &[u8], at: usize) -> Option<usize>
    requires { (at < length b.now) × (0xC2 ≤ get_or b.now at 0) × (get_or b.now at 0 < 0xE0) }
    ensures { Width b.now at result }
{
    if b.len() - at < 2 {
        return None;
    }
    is_tail(b[at + 1]).then_some(2)
}

// The same of three.
fn width_three(b: &[u8], at: usize) -> Option<usize>
    requires { (at < length b.now) × (0xE0 ≤ get_or b.now at 0) × (get_or b.now at 0 < 0xF0) }
    ensures { Width b.now at result }
{
    if b.len() - at < 3 {
        return None;
    }
    if !is_second(b[at], b[at + 1]) {
        return None;
    }
    is_tail(b[at + 2]).then_some(3)
}

// The same of four.
fn width_four(b: &[u8], at: usize) -> Option<usize>
    requires { (at < length b.now) × (0xF0 ≤ get_or b.now at 0) × (get_or b.now at 0 < 0xF5) }
    ensures { Width b.now at result }
{
    if b.len() - at < 4 {
        return None;
    }
    if !is_second(b[at], b[at + 1]) {
        return None;
    }
    if !is_tail(b[at + 2]) {
        return None;
    }
    is_tail(b[at + 3]).then_some(4)
}

// How many bytes the character at `at` has.
fn width(b: &[u8], at: usize) -> Option<usize>
    requires { at < length b.now }
    ensures { Width b.now at result }
{
    match b[at] {
        0..=0x7F => Some(1),
        0xC2..=0xDF => width_two(b, at),
        0xE0..=0xEF => width_three(b, at),
        0xF0..=0xF4 => width_four(b, at),
        _ => None,
    }
}

// Of an odd number of bytes the last one, which is in no pair; else 0.
fn odd_byte(b: &[u8], at: usize, n: usize) -> u16
    requires { at + n ≤ length b.now }
    ensures { n % 2 ≡ 1 → result ≡ get_or b.now (at + n - 1) 0 }
{
    if n % 2 == 0 {
        return 0;
    }
    u16::from(b[at + n - 1])
}

// Are the n bytes at `at` all below 128? They are taken in pairs, and both bytes of all pairs together are tested.
pub(crate) fn plain(b: &[u8], at: usize, n: usize) -> bool
    requires { at + n ≤ length b.now }
    ensures { result ≡ true → Plain b.now at n }
{
    let mut all = odd_byte(b, at, n);
    for j in 0..n / 2 {
        let i = at + 2 * j;
        all |= u16::from_le_bytes([b[i], b[i + 1]]);
    }
    let [first, second] = all.to_le_bytes();
    first < 128 && second < 128
}

// Past the blocks of n bytes from `at` on that are all below 128.
fn pass_blocks(b: &[u8], at: usize, n: usize) -> usize
    requires { (at ≤ length b.now) × (0 < n) }
    ensures { Passes b.now at result }
{
    let mut i = at;
    while n <= b.len() - i {
        if !plain(b, i, n) {
            return i;
        }
        i += n;
    }
    i
}

// Past the bytes from `at` on that are below 128.
fn pass_plain(b: &[u8], at: usize) -> usize
    requires { at ≤ length b.now }
    ensures { Passes b.now at result × (result < length b.now → 128 ≤ get_or b.now result 0) }
{
    for i in at..b.len() {
        if 128 <= b[i] {
            return i;
        }
    }
    b.len()
}

// Do bytes below 128 go on from `at`: two of them, or the last one?
fn plain_goes_on(b: &[u8], at: usize) -> bool
    requires { at < length b.now }
    ensures { result ≡ true → get_or b.now at 0 < 128 }
{
    b[at] < 128 && (b.len() - at < 2 || b[at + 1] < 128)
}

// Past the characters from `at` on up to where plain bytes go on, if there are only characters in between. A single byte below 128, as a
// space between words, is passed with the others.
fn pass_wide(b: &[u8], at: usize) -> Option<usize>
    requires { (at < length b.now) × (128 ≤ get_or b.now at 0) }
    ensures { PassesWide b.now at result }
{
    let mut i = at;
    while i < b.len() {
        if plain_goes_on(b, i) {
            return Some(i);
        }
        let w = width(b, i)?;
        i += w;
    }
    Some(i)
}

// Whether b is text.
pub fn is_text(b: &[u8]) -> bool
    ensures { result ≡ is_text b.now }
{
    let mut i = 0;
    while i < b.len() {
        let long = pass_blocks(b, i, Block::LONG);
        let short = pass_blocks(b, long, Block::SHORT);
        let j = pass_plain(b, short);
        if j == b.len() {
            return true;
        }
        let Some(k) = pass_wide(b, j) else {
            return false;
        };
        i = k;
    }
    true
}

// White space at the ends of a text.
ghost use Rattle.std.specs.Prelude.{◌≡◌, ◌+◌, ◌≤◌, length, drop};
ghost use Rattle.text.specs.Trim as trims;

// Whether a byte is a white space character.
fn is_one(a: usize) -> bool
    ensures { result ≡ trims.one_byte a }
{
    0x09 <= a && a <= 0x0D || a == 0x20
}

// Whether two bytes are.
fn is_two(a: usize, b: usize) -> bool
    ensures { result ≡ trims.two_bytes a b }
{
    a == 0xC2 && (b == 0x85 || b == 0xA0)
}

// Whether a third byte makes one of U+2000 to U+200A, U+2028, U+2029 and U+202F.
fn ends_2000(c: usize) -> bool
    ensures { result ≡ trims.ends2000 c }
{
    0x80 <= c && c <= 0x8A || c == 0xA8 || c == 0xA9 || c == 0xAF
}

// Whether the second and third byte make one, after 0xE2.
fn ends_e2(b: usize, c: usize) -> bool
    ensures { result ≡ trims.after_e2 b c }
{
    b == 0x80 && ends_2000(c) || b == 0x81 && c == 0x9F
}

// Whether three bytes are.
fn is_three(a: usize, b: usize, c: usize) -> bool
    ensures { result ≡ trims.three_bytes a b c }
{
    a == 0xE1 && b == 0x9A && c == 0x80
        || a == 0xE2 && ends_e2(b, c)
        || a == 0xE3 && b == 0x80 && c == 0x80
}

// How many bytes the white space character at a place has, 0 where there is none.
fn space_at(s: &[u8], at: usize) -> usize
    requires { at ≤ length s.now }
    ensures { (result ≡ trims.space_at (drop at s.now)) × (at + result ≤ length s.now) }
{
    let a = base::bytes::byte_at(s, at);
    if is_one(a) {
        return 1;
    }
    let b = base::bytes::byte_at(s, at + 1);
    if is_two(a, b) {
        return 2;
    }
    if is_three(a, b, base::bytes::byte_at(s, at + 2)) {
        return 3;
    }
    0
}

// Where the white space that begins at a place ends.
pub fn skip(s: &[u8], from: usize) -> usize
    requires { from ≤ length s.now }
    ensures { (drop result s.now ≡ trims.trim_start (drop from s.now)) × (result ≤ length s.now) }
{
    let mut at = from;
    let mut n = space_at(s, at);
    while n > 0 {
        at += n;
        n = space_at(s, at);
    }
    at
}

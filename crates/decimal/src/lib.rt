// Times typed as text: the f32 that a short text stands for.
#![tactic(auto)]

ghost use Rattle.std.specs.Prelude.{◌≡◌, ◌&&◌, ◌*◌, ◌^◌, ◌≤◌, ◌<◌, length, take, drop};
ghost use Rattle.std.specs.Float.{binary32};
ghost use Rattle.std.specs.Float.Ieee.{round};
ghost use Rattle.std.specs.Float.Ieee.Nearest.{closest};
ghost use Rattle.decimal.specs.Decimal.{begins, after_sign, text_value};
ghost use Rattle.decimal.specs.Reading.{DigitAt, DigitsRead, Nearest};

// Digits that were read: the place after them, the number so far, and ten to the power of how many they are.
#[derive(Clone, Copy)]
struct Digits {
    end: usize,
    number: u64,
    power: u64,
}

// Whether this byte stands at a place.
fn has(text: &[u8], at: usize, byte: u8) -> bool
    ensures { result ≡ begins byte (drop at text.now) }
{
    at < text.len() && text[at] == byte
}

// How many bytes a sign in front takes.
fn sign_length(text: &[u8]) -> usize
    ensures { (drop result text.now ≡ after_sign text.now) × (result ≤ length text.now) }
{
    if has(text, 0, b'+') || has(text, 0, b'-') {
        1
    } else {
        0
    }
}

// The digit at a place, if one stands there.
fn digit_at(text: &[u8], at: usize) -> Option<u64>
    ensures { DigitAt text.now at result }
{
    let byte = *text.get(at)?;
    if byte.is_ascii_digit() {
        Some(u64::from(byte - b'0'))
    } else {
        None
    }
}

// The digits from a place on, read on from a number.
fn read_digits(text: &[u8], at: usize, before: u64) -> Digits
    requires { (at ≤ length text.now) × (length text.now ≤ 12) × (before < 10 ^ at) }
    ensures { DigitsRead text.now at before result }
{
    let mut end = at;
    let mut number = before;
    let mut power: u64 = 1;
    while let Some(digit) = digit_at(text, end) {
        number = number * 10 + digit;
        power *= 10;
        end += 1;
    }
    Digits { end, number, power }
}

// n / u to the nearest whole number, a tie to the even one.
fn nearest_quotient(n: u64, u: u64) -> u64
    requires { (0 < u) × (u < 2 ^ 62) × (n < 2 ^ 24 * u) }
    ensures { (result ≡ closest n u) × (result ≤ 2 ^ 24) }
{
    let quotient = n / u;
    let twice = n % u * 2;
    // more than a half goes up, and a half where the quotient is odd
    quotient + ((u < twice + quotient % 2) as u64)
}

// The pattern of the f32 nearest to num / den, a tie to the even one.
fn nearest_pattern(num: u64, den: u64) -> u32
    requires { (num < 2 ^ 40) × (0 < den) × (den < 2 ^ 37) }
    ensures { Nearest num den result }
{
    if num == 0 {
        return 0;
    }
    // num / den is n / u * 2^(k - 149); n / u is brought to 24 binary digits
    let mut n = num;
    let mut u = den;
    let mut k: u32 = 149;
    while n < u * 8388608 {
        n *= 2;
        k -= 1;
    }
    while u * 16777216 <= n {
        u *= 2;
        k += 1;
    }
    k * 8388608 + nearest_quotient(n, u) as u32
}

// num / den, or minus that, to the nearest f32, a tie to the even one.
fn nearest_f32(negative: bool, num: u64, den: u64) -> f32
    requires { (num < 2 ^ 40) × (0 < den) × (den < 2 ^ 37) }
    ensures { result ≡ round binary32 negative num den }
{
    let pattern = nearest_pattern(num, den);
    if negative {
        return f32::from_bits(2147483648 + pattern);
    }
    f32::from_bits(pattern)
}

// The f32 that a text of up to 12 bytes stands for.
fn short_to_f32(text: &[u8]) -> f32
    requires { length text.now ≤ 12 }
    ensures { result ≡ text_value text.now }
{
    let minus = has(text, 0, b'-');
    let start = sign_length(text);
    let whole = read_digits(text, start, 0);
    let end = whole.end;
    let number = whole.number;
    if has(text, end, b'.') {
        let all = read_digits(text, end + 1, number);
        let last = all.end;
        return nearest_f32(minus && start + 1 < last, all.number, all.power);
    }
    nearest_f32(minus && start < end, number, 1)
}

// The f32 that a text stands for, as the Rust's `parse_leading_f32` reads it; of a longer one its first 12 bytes. It is not put in line
// where a value is read, which would make sheets without texts slower (docs/SPEED.md).
#[inline(never)]
pub fn text_to_f32(text: &[u8]) -> f32
    ensures { result ≡ text_value (take 12 text.now) }
{
    let few = text.len().min(12);
    short_to_f32(&text[..few])
}

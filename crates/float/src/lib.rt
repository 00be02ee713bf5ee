// Casts between floats and integers as Rust's `as` has them, an f32 to the nearest integer and by its bit
// pattern, and which of two floats is nearer. Each public function takes every value.
#![tactic(auto)]

ghost use Rattle.std.specs.Prelude.{◌≡◌, ◌*◌, ◌^◌, ◌<◌, ◌≤◌, pos, from_bits, to_bits};
ghost use Rattle.std.specs.Float.{binary32, binary64};
ghost use Rattle.std.specs.Float.Ieee.{of_int, to_signed, to_unsigned};
ghost use Rattle.std.specs.Float.Ieee.Nearest.{closest};
ghost use Rattle.float.specs.Casts.{narrow};
ghost use Rattle.float.specs.Distance.{abs, nearer};
ghost use Rattle.float.specs.Nearest.{to_nearest};

// q / 2^n to the nearest whole number, a tie to the even one.
fn rounded_shift(q: u64, n: u64) -> u64
    requires { (q < 2 ^ 53) × (29 ≤ n) × (n < 63) }
    ensures { (result ≡ closest q (2 ^ n)) × (result ≤ 2 ^ 24) }
{
    let kept = q >> n;
    let unit: u64 = 1 << n;
    let twice = q % unit * 2;
    // more than a half goes up, and a half where `kept` is odd
    kept + ((unit < twice + kept % 2) as u64)
}

// The f32 pattern for the f64 pattern `bits`, from +0 up to the infinity.
fn narrowed(bits: u64) -> u32
    requires { bits ≤ 2047 * 2 ^ 52 }
    ensures { (result ≤ 255 * 2 ^ 23) × (from_bits binary32 result ≡ narrow (from_bits binary64 bits)) }
{
    let exponent = bits / 4503599627370496;
    let digits = 4503599627370496 + bits % 4503599627370496;
    // below 2^-151, which is less than half the smallest f32
    if exponent < 872 {
        return 0;
    }
    // below 2^-126, where an f32 has fewer digits
    if exponent < 897 {
        return rounded_shift(digits, 926 - exponent) as u32;
    }
    // a carry out of the digits adds one to the exponent
    let pattern = (exponent - 897) * 8388608 + rounded_shift(digits, 29);
    if pattern < 2139095040 {
        return pattern as u32;
    }
    2139095040
}

// x as f32: the nearest, a tie to the even one, an infinity where x is too large.
pub fn f64_to_f32(x: f64) -> f32
    ensures { result ≡ narrow x }
{
    if x != x {
        return 0.0 / 0.0;
    }
    let bits = f64::to_bits(x);
    let pattern = narrowed(bits % 9223372036854775808);
    if bits < 9223372036854775808 {
        return f32::from_bits(pattern);
    }
    f32::from_bits(2147483648 + pattern)
}

// x as i32: truncated toward zero, saturated, 0 at a NaN.
pub fn f32_to_i32(x: f32) -> i32
    ensures { result ≡ to_signed 31 x }
{
    std::num::saturating_f32_to_i32(x)
}

// x as i16: truncated toward zero, saturated, 0 at a NaN.
pub fn f32_to_i16(x: f32) -> i16
    ensures { result ≡ to_signed 15 x }
{
    std::num::saturating_f32_to_i16(x)
}

// x as usize: truncated toward zero, saturated, 0 below zero and at a NaN.
pub fn f64_to_usize(x: f64) -> usize
    ensures { result ≡ to_unsigned 64 x }
{
    std::num::saturating_f64_to_usize(x)
}

// x as usize.
pub fn f32_to_usize(x: f32) -> usize
    ensures { result ≡ to_unsigned 64 x }
{
    std::num::saturating_f32_to_usize(x)
}

// x to the nearest whole number, an exact half going up; saturated, 0 below zero and at a NaN.
pub fn f32_to_nearest(x: f32) -> usize
    ensures { result ≡ to_nearest 64 x }
{
    // from 2^23 on every f32 is a whole number
    if x >= 8388608.0 {
        return f32_to_usize(x);
    }
    // below it twice x is exact in f64
    let halves = f64_to_usize(2.0 * std::num::f32_to_f64_with_nan(x));
    (halves + 1) / 2
}

// n as f32: n itself up to 2^24, and the nearest above, a tie to the even one.
pub fn u32_to_f32(n: u32) -> f32
    ensures { result ≡ of_int binary32 (pos n) }
{
    if n <= 16777216 {
        return n as f32;
    }
    std::num::nearest_u32_to_f32(n)
}

// The float of a bit pattern. Every NaN's pattern is the NaN.
pub fn f32_from_word(word: u32) -> f32
    ensures { result ≡ from_bits binary32 word }
{
    std::num::f32_from_bits_with_nan(word)
}

// The bit pattern of x, 0x7FC00000 for the NaN.
pub fn f32_to_word(x: f32) -> u32
    ensures { result ≡ to_bits binary32 x }
{
    std::num::f32_to_bits_with_nan(x)
}

// x.abs(): x with its sign cleared.
pub fn f32_abs(x: f32) -> f32
    ensures { result ≡ abs x }
{
    if x != x {
        return x;
    }
    f32::from_bits(f32::to_bits(x) % 2147483648)
}

// Whether a is nearer to p than b is.
pub fn is_nearer(p: f32, a: f32, b: f32) -> bool
    ensures { result ≡ nearer p a b }
{
    f32_abs(p - a) < f32_abs(p - b)
}

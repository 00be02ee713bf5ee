// The lines that a program prints of a call, as bytes in a lent buffer.
#![tactic(auto)]

ghost use Rattle.std.specs.Prelude.{◌≡◌, [], ◌∷◌, ◌+◌, ◌*◌, ◌/◌, ◌<◌, ◌≤◌, length};
ghost use Rattle.base.specs.Bytes.{elements};
ghost use Rattle.lines.specs.Lines as lines;

// One byte at place `at`. Returns the place after it, as all here do.
fn put_byte(byte: u8, out: &mut [u8], at: usize) -> usize
    requires { at < length out.old }
    ensures puts { lines.Puts out.old at (byte ∷ []) out.new result }
    ensures upper_bound { result ≤ at + 1 }
{
    out[at] = byte;
    at + 1
}

// The digit of n that stands for `unit`, where n is not below that.
fn put_digit(n: u32, unit: u32, out: &mut [u8], at: usize) -> usize
    requires { (0 < unit) × (at < length out.old) }
    ensures puts { lines.Puts out.old at (lines.digit n unit) out.new result }
    ensures upper_bound { result ≤ at + 1 }
{
    if n < unit {
        at
    } else {
        put_byte((n / unit % 10) as u8 + b'0', out, at)
    }
}

// A number in decimal.
fn put_number(n: u32, out: &mut [u8], at: usize) -> usize
    requires { (n < 100000) × (at + 5 ≤ length out.old) }
    ensures puts { lines.Puts out.old at (lines.decimal n) out.new result }
    ensures upper_bound { result ≤ at + 5 }
{
    let a = put_digit(n, 10000, out, at);
    let b = put_digit(n, 1000, out, a);
    let c = put_digit(n, 100, out, b);
    let d = put_digit(n, 10, out, c);
    put_byte((n % 10) as u8 + b'0', out, d)
}

// A blank and a number.
fn put_field(n: u32, out: &mut [u8], at: usize) -> usize
    requires { (n < 100000) × (at + 6 ≤ length out.old) }
    ensures puts { lines.Puts out.old at (32 ∷ lines.decimal n) out.new result }
    ensures upper_bound { result ≤ at + 6 }
{
    let next = put_byte(b' ', out, at);
    put_number(n, out, next)
}

// A sample, given as its word.
fn put_sample(word: u16, out: &mut [u8], at: usize) -> usize
    requires { at + 6 ≤ length out.old }
    ensures puts { lines.Puts out.old at (lines.sample word) out.new result }
    ensures upper_bound { result ≤ at + 6 }
{
    let sample = word.cast_signed();
    if sample < 0 {
        let next = put_byte(b'-', out, at);
        put_number(u32::from(sample.unsigned_abs()), out, next)
    } else {
        put_number(u32::from(word), out, at)
    }
}

// A blank and a sample.
fn put_next(word: u16, out: &mut [u8], at: usize) -> usize
    requires { at + 7 ≤ length out.old }
    ensures puts { lines.Puts out.old at (lines.next word) out.new result }
    ensures upper_bound { result ≤ at + 7 }
{
    let next = put_byte(b' ', out, at);
    put_sample(word, out, next)
}

// Samples of two bytes each, a blank before each.
fn put_samples(samples: &[u8], out: &mut [u8], at: usize) -> usize
    requires { at + 7 * (length samples.now / 2) ≤ length out.old }
    ensures puts { lines.Puts out.old at (lines.samples (elements 2 samples.now)) out.new result }
    ensures upper_bound { result ≤ at + 7 * (length samples.now / 2) }
{
    let mut end = at;
    for i in 0..samples.len() / 2 {
        end = put_next(base::bytes::u16_at(samples, i), out, end);
    }
    end
}

// The line of a period: its number, its size, its samples.
pub fn put_period(number: u32, samples: &[u8], out: &mut [u8], at: usize) -> usize
    requires { (number < 100000) × ((length samples.now ≤ 8192) ×
        (at + (7 * (length samples.now / 2) + 12) ≤ length out.old)) }
    ensures puts { lines.Puts out.old at (lines.period number (elements 2 samples.now)) out.new result }
    ensures upper_bound { result ≤ at + (7 * (length samples.now / 2) + 12) }
{
    let a = put_number(number, out, at);
    let b = put_field((samples.len() / 2) as u32, out, a);
    let c = put_samples(samples, out, b);
    put_byte(b'\n', out, c)
}

// The first line: rate, periods, samples.
pub fn put_summary(rate: u32, periods: u32, samples: u32, out: &mut [u8]) -> usize
    requires { ((rate < 100000) × ((periods < 100000) × (samples < 100000))) × (18 ≤ length out.old) }
    ensures puts { lines.Puts out.old 0 (lines.summary rate periods samples) out.new result }
    ensures upper_bound { result ≤ 18 }
{
    let a = put_number(rate, out, 0);
    let b = put_field(periods, out, a);
    let c = put_field(samples, out, b);
    put_byte(b'\n', out, c)
}

// The line of a period in a report: its number, its pair, its half, its first sample, its size.
pub fn put_report_line(
    number: u32,
    pair: u32,
    half: u32,
    first: u32,
    size: u32,
    out: &mut [u8],
    at: usize,
) -> usize
    requires { ((number < 100000) × ((pair < 100000) × ((half < 100000) × ((first < 100000) × (size < 100000))))) ×
        (at + 30 ≤ length out.old) }
    ensures puts { lines.Puts out.old at (lines.report_line number pair half first size) out.new result }
    ensures upper_bound { result ≤ at + 30 }
{
    let a = put_number(number, out, at);
    let b = put_field(pair, out, a);
    let c = put_field(half, out, b);
    let d = put_field(first, out, c);
    let e = put_field(size, out, d);
    put_byte(b'\n', out, e)
}

// The line of a refusal: its number.
pub fn put_refused(number: u32, out: &mut [u8]) -> usize
    requires { (number < 100000) × (14 ≤ length out.old) }
    ensures puts { lines.Puts out.old 0 (lines.refused number) out.new result }
    ensures upper_bound { result ≤ 14 }
{
    base::bytes::copy(b"refused ", out);
    let end = put_number(number, out, 8);
    put_byte(b'\n', out, end)
}

// Leaf functions, exported so that the comparison with the Rust can call them.
#![tactic(auto)]

ghost use Rattle.std.specs.Prelude.{◌≡◌, ◌*◌, ◌/◌, ◌%◌, ◌^◌, leb, pos, length, take};
ghost use Rattle.std.specs.Float.{binary32};
ghost use Rattle.std.specs.Float.Ieee.{of_bits, to_bits, of_int, to_signed, to_unsigned};
ghost use Rattle.std.specs.Int.Signed.{quot_z};
ghost use Rattle.adpcm.specs.Decoder.{decoded};
ghost use Rattle.adpcm_float.specs.Powers.{powers_not_above};
ghost use Rattle.base.specs.Buffers.{over, flat};
ghost use Rattle.base.specs.Bytes.{bytes_of};
ghost use Rattle.base.specs.Choice.{pick};
ghost use Rattle.base.specs.Words.{low, signed32};
ghost use Rattle.decimal.specs.Decimal.{text_value};
ghost use Rattle.float.specs.Casts.{narrow};
ghost use Rattle.float.specs.Distance.{nearer};
ghost use Rattle.float.specs.Nearest.{to_nearest};
ghost use Rattle.probe.specs.Filters.{filter_of, two_periods, Lent, fits};
ghost use Rattle.ulaw.specs.Ulaw.{sample_of, ulaw_of};

use lpc::{FilterState, ResynthType};

// Rust's `x as f32`.
#[unsafe(no_mangle)]
pub extern "C" fn probe_f64_to_f32(x: f64) -> f32
    ensures { result ≡ narrow x }
{
    float::f64_to_f32(x)
}

// Rust's `x as i16`.
#[unsafe(no_mangle)]
pub extern "C" fn probe_f32_to_i16(x: f32) -> i16
    ensures { result ≡ to_signed 15 x }
{
    float::f32_to_i16(x)
}

// Rust's `x as i32`.
#[unsafe(no_mangle)]
pub extern "C" fn probe_f32_to_i32(x: f32) -> i32
    ensures { result ≡ to_signed 31 x }
{
    float::f32_to_i32(x)
}

// Rust's `x as usize`.
#[unsafe(no_mangle)]
pub extern "C" fn probe_f32_to_usize(x: f32) -> usize
    ensures { result ≡ to_unsigned 64 x }
{
    float::f32_to_usize(x)
}

// The nearest whole number, an exact half going up.
#[unsafe(no_mangle)]
pub extern "C" fn probe_f32_to_nearest(x: f32) -> usize
    ensures { result ≡ to_nearest 64 x }
{
    float::f32_to_nearest(x)
}

// Rust's `x as usize`.
#[unsafe(no_mangle)]
pub extern "C" fn probe_f64_to_usize(x: f64) -> usize
    ensures { result ≡ to_unsigned 64 x }
{
    float::f64_to_usize(x)
}

// Rust's `f32::from_bits(word)`.
#[unsafe(no_mangle)]
pub extern "C" fn probe_f32_from_word(word: u32) -> f32
    ensures { result ≡ of_bits binary32 word }
{
    float::f32_from_word(word)
}

// Rust's `x.to_bits()`.
#[unsafe(no_mangle)]
pub extern "C" fn probe_f32_to_word(x: f32) -> u32
    ensures { result ≡ to_bits binary32 x }
{
    float::f32_to_word(x)
}

// Rust's `n as f32`.
#[unsafe(no_mangle)]
pub extern "C" fn probe_u32_to_f32(n: u32) -> f32
    ensures { result ≡ of_int binary32 (pos n) }
{
    float::u32_to_f32(n)
}

// Rust's `(p - a).abs() < (p - b).abs()`.
#[unsafe(no_mangle)]
pub extern "C" fn probe_is_nearer(p: f32, a: f32, b: f32) -> bool
    ensures { result ≡ nearer p a b }
{
    float::is_nearer(p, a, b)
}

// Rust's `parse_leading_f32` of the first 12 bytes.
#[unsafe(no_mangle)]
pub extern "C" fn probe_text_to_f32(text: &[u8]) -> f32
    ensures { result ≡ text_value (take 12 text.now) }
{
    decimal::text_to_f32(text)
}

// Rust's `a.wrapping_mul(b)`.
#[unsafe(no_mangle)]
pub extern "C" fn probe_wrapping_mul(a: u32, b: u32) -> u32
    ensures { result ≡ (a * b) % 2 ^ 32 }
{
    base::words::wrapping_mul(a, b)
}

// Rust's `(word as i32 / 16384) as u32`.
#[unsafe(no_mangle)]
pub extern "C" fn probe_divide_by_16384(word: u32) -> u32
    ensures { result ≡ low 32 (quot_z (signed32 word) (pos 16384)) }
{
    base::words::divide_by_16384(word)
}

// Rust's `ulaw_to_i16`.
#[unsafe(no_mangle)]
pub extern "C" fn probe_ulaw_to_i16(byte: u8) -> i16
    ensures { result ≡ sample_of byte }
{
    ulaw::ulaw_to_i16(byte)
}

// Rust's `i16_to_ulaw`.
#[unsafe(no_mangle)]
pub extern "C" fn probe_i16_to_ulaw(sample: i16) -> u8
    ensures { result ≡ ulaw_of sample }
{
    ulaw::i16_to_ulaw(sample)
}

// Rust's `quan` over its table of powers.
#[unsafe(no_mangle)]
pub extern "C" fn probe_quan(val: i32) -> u32
    ensures { result ≡ powers_not_above val }
{
    adpcm_float::quan(val)
}

// Rust's `decode_adpcm`, into a lent buffer: where it is too short, nothing is written.
#[unsafe(no_mangle)]
pub extern "C" fn probe_decode_adpcm(packed: &[u8], out: &mut [u8])
    ensures { out.new ≡
        pick (leb (length packed.now) (length out.old / 2))
        (over (decoded packed.now) out.old)
        out.old }
{
    if packed.len() <= out.len() / 2 {
        adpcm::decode_adpcm(packed, out);
    }
}

// The filter that a number stands for.
fn filter_of(filter: u32) -> ResynthType
    ensures { result ≡ filter_of filter }
{
    if filter == 0 {
        ResynthType::Fixed
    } else {
        ResynthType::Float
    }
}

// The samples of two periods from a fresh state.
fn two_periods(
    filter: u32,
    order: usize,
    coeff_min: f32,
    coeff_range: f32,
    rows: &[u8],
    first: usize,
    excitation: &[u8],
    samples: &mut [u8],
)
    requires { Lent order rows.now first excitation.now samples.old }
    ensures { samples.new ≡ over (flat (bytes_of 2)
        (two_periods filter order coeff_min coeff_range rows.now first excitation.now))
        samples.old }
{
    let state = FilterState::fresh(filter_of(filter), order, coeff_min, coeff_range);
    let middle = 2 * order;
    let after = lpc_period::resynthesise_period(
        state,
        &rows[..middle],
        &excitation[..first],
        samples,
    );
    let at = 2 * first;
    lpc_period::resynthesise_period(
        after,
        &rows[middle..],
        &excitation[first..],
        &mut samples[at..],
    );
}

// The samples of two periods from a fresh state: the first has `first` bytes of the excitation. Where
// what is lent does not fit, nothing is written.
#[unsafe(no_mangle)]
pub extern "C" fn probe_resynthesise(
    filter: u32,
    order: usize,
    coeff_min: f32,
    coeff_range: f32,
    rows: &[u8],
    first: usize,
    excitation: &[u8],
    samples: &mut [u8],
)
    ensures { samples.new ≡
        pick (fits order rows.now first excitation.now samples.old)
        (over (flat (bytes_of 2) (two_periods filter order coeff_min coeff_range rows.now first
        excitation.now)) samples.old)
        samples.old }
{
    if 32 < order {
        return;
    }
    if rows.len() != 4 * order {
        return;
    }
    if excitation.len() < first {
        return;
    }
    if samples.len() / 2 < excitation.len() {
        return;
    }
    two_periods(
        filter,
        order,
        coeff_min,
        coeff_range,
        rows,
        first,
        excitation,
        samples,
    );
}

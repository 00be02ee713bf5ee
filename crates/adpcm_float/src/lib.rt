// G.726's floating format: FLOATA, FLOATB, FMULT; and the count of powers of two that its exponents
// are. A `requires` here is a word length that the caller's own bounds give.
#![tactic(auto)]

ghost use Rattle.std.specs.Prelude.{◌≡◌, ◌+◌, ◌*◌, ◌<◌, ◌≤◌};
ghost use Rattle.adpcm_float.specs.Floating as block;
ghost use Rattle.adpcm_float.specs.Powers.{powers_not_above};

// EXP of a magnitude: how many bits it has. Twice it and 1 has one more, and is never 0.
fn exponent(mag: u32) -> u32
    requires { mag < 32768 }
    ensures { (result ≡ block.exponent mag) × (result ≤ 15) }
{
    31 - u32::leading_zeros(2 * mag + 1)
}

// How many of the fifteen powers of two are not above a number, from its bits: the Rust's `quan`. The
// decoder's magnitudes have 15 bits, so `exponent` serves them without these tests.
pub fn quan(val: i32) -> u32
    ensures { (result ≡ powers_not_above val) × (result ≤ 15) }
{
    if val < 1 {
        return 0;
    }
    if 0x4000 <= val {
        return 15;
    }
    exponent(val as u32)
}

// MANT of a magnitude: its six highest bits. The first of them is set, and for 0 it alone.
fn mantissa(mag: u32) -> u32
    requires { mag < 32768 }
    ensures { (result ≡ block.mantissa mag) × (result < 64) }
{
    (mag * 64 >> exponent(mag)) | 32
}

// A sign bit and a magnitude in floating format.
fn floating(sign: u32, mag: u32) -> u16
    requires { (sign < 2) × (mag < 32768) }
    ensures { result ≡ sign * 1024 + block.exponent mag * 64 + block.mantissa mag }
{
    (sign * 1024 + exponent(mag) * 64 + mantissa(mag)) as u16
}

// FLOATA: a difference, in signed magnitude.
pub fn floata(dq: u16) -> u16
    ensures { result ≡ block.floata dq }
{
    let word = dq as u32;
    floating(word / 32768, word % 32768)
}

// The magnitude of a reconstructed signal.
fn sr_mag(sr: u16) -> u32
    ensures { (result ≡ block.sr_mag sr) × (result < 32768) }
{
    let word = sr as u32;
    if word < 32768 {
        word
    } else {
        (65536 - word) % 32768
    }
}

// FLOATB: a reconstructed signal, in two's complement.
pub fn floatb(sr: u16) -> u16
    ensures { result ≡ block.floatb sr }
{
    let sign = (sr as u32) / 32768;
    floating(sign, sr_mag(sr))
}

// FMULT: the magnitude of a coefficient, in 13 bits.
fn an_mag(an: u16) -> u32
    ensures { (result ≡ block.an_mag an) × (result < 8192) }
{
    let word = an as u32;
    if word < 32768 {
        word / 4
    } else {
        (16384 - word / 4) % 8192
    }
}

// FMULT: the magnitude of the product, in 15 bits. A shift up and one down, so that none depends
// on a test.
fn wan_mag(mant: u32, exp: u32) -> u32
    requires { (mant < 256) × (exp < 32) }
    ensures { (result ≡ block.wan_mag mant exp) × (result < 32768) }
{
    let wide = (mant * 128) as u64;
    (((wide << exp) >> 26) % 32768) as u32
}

// A magnitude with a sign bit, in two's complement: twice what is to be negative is taken off, so
// that nothing depends on a test.
fn signed(sign: u32, mag: u32) -> u32
    requires { (sign < 2) × (mag < 32768) }
    ensures { (result ≡ block.signed sign mag) × (result < 65536) }
{
    (mag + 65536 - 2 * (mag * sign)) % 65536
}

// FMULT: a coefficient times a signal in floating format.
pub fn fmult(an: u16, srn: u16) -> u32
    ensures { (result ≡ block.fmult an srn) × (result < 65536) }
{
    let signal = srn as u32;
    let mag = an_mag(an);
    let mant = (signal % 64 * mantissa(mag) + 48) / 16;
    let exp = signal / 64 % 16 + exponent(mag);
    let sign = ((an as u32) / 32768 + signal / 1024) % 2;
    signed(sign, wan_mag(mant, exp))
}

// The mu-law of ITU-T G.711 on 16-bit samples.
#![tactic(auto)]

ghost use Rattle.std.specs.Prelude.{◌≡◌, ◌≤◌};
ghost use Rattle.ulaw.specs.Ulaw.{sample_of, ulaw_of, last_interval};

// The 16-bit sample of a mu-law byte.
pub fn ulaw_to_i16(byte: u8) -> i16
    ensures { result ≡ sample_of byte }
{
    let code = !byte;
    let interval = code % 128;
    let biased = (33 + 2 * ((interval % 16) as u32)) << ((interval / 16) as u32);
    let magnitude = (4 * (biased - 33)) as i16;
    if code < 128 { magnitude } else { -magnitude }
}

// From this magnitude on, a sample is in the last interval.
const CLIP: u32 = 32635;

// The bias that makes the segments start at powers of two.
const BIAS: u32 = 132;

// The interval of a magnitude. Its segment is the position of the highest set bit of the biased
// magnitude, less 7.
fn interval_of(magnitude: u32) -> u8
    ensures { (result ≡ last_interval 127 magnitude) × (result ≤ 127) }
{
    if magnitude < CLIP {
        let biased = magnitude + BIAS;
        let segment = 24 - biased.leading_zeros();
        let step = (biased >> (segment + 3)) % 16;
        (16 * segment + step) as u8
    } else {
        127
    }
}

// The mu-law byte of a 16-bit sample.
pub fn i16_to_ulaw(sample: i16) -> u8
    ensures { result ≡ ulaw_of sample }
{
    let interval = interval_of(u32::from(sample.unsigned_abs()));
    if sample < 0 {
        127 - interval
    } else {
        255 - interval
    }
}

// `sts.header` and its limits.
ghost use Rattle.std.specs.Prelude.{◌≡◌, ◌+◌, ◌*◌, ◌≤◌, length};
ghost use Rattle.voice.specs.Header as headers;

use super::VoiceHeader;

// The f32 whose bits stand at a place.
fn read_f32(bytes: &[u8], i: usize) -> f32
    requires { 4 * i + 4 ≤ length bytes.now }
    ensures { result ≡ headers.f32_at bytes.now i }
{
    float::f32_from_word(base::bytes::u32_at(bytes, i))
}

// The header in a section's bytes.
pub fn header_of(bytes: &[u8]) -> VoiceHeader
    requires { 40 ≤ length bytes.now }
    ensures { result ≡ headers.header_of bytes.now }
{
    VoiceHeader {
        frames: base::bytes::u32_at(bytes, 0),
        order: base::bytes::u32_at(bytes, 1),
        rate: base::bytes::u32_at(bytes, 2),
        coeff_min: read_f32(bytes, 3),
        coeff_range: read_f32(bytes, 4),
        codec: base::bytes::u32_at(bytes, 5),
        stretch: read_f32(bytes, 6),
        f0_mean: read_f32(bytes, 7),
        f0_deviation: read_f32(bytes, 8),
        fold: base::bytes::u32_at(bytes, 9),
    }
}

// Whether a scale is finite, from -16 to 16.
pub fn in_scale(x: f32) -> bool
    ensures { result ≡ headers.in_scale x }
{
    -16.0 <= x && x <= 16.0
}

// Whether the whole numbers of a header are within their limits.
fn has_good_numbers(h: VoiceHeader) -> bool
    ensures { result ≡ headers.good_numbers h }
{
    if h.frames < 1 {
        return false;
    }
    if h.order > 32 {
        return false;
    }
    if h.rate < 1 {
        return false;
    }
    if h.rate > 48000 {
        return false;
    }
    h.codec <= 1
}

// Whether its scales are.
fn has_good_scales(h: VoiceHeader) -> bool
    ensures { result ≡ headers.good_scales h }
{
    in_scale(h.coeff_min) && in_scale(h.coeff_range)
}

// Whether a section's bytes are a header: not cut short, and within the limits.
pub fn is_good(bytes: &[u8]) -> bool
    ensures { result ≡ headers.good_header bytes.now }
{
    if bytes.len() < 40 {
        return false;
    }
    let h = header_of(bytes);
    has_good_numbers(h) && has_good_scales(h)
}

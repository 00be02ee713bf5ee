// The voice's tables: lengths and offsets.
ghost use Rattle.std.specs.Prelude.{◌≡◌, true, ◌+◌, ◌*◌, ◌≤◌, length};
ghost use Rattle.voice.specs.Header.{good_numbers};
ghost use Rattle.voice.specs.Voice.{places_of, voice_of};
ghost use Rattle.voice.specs.Opening as opening;

use super::DiphoneVoice;
use base::Span;

// The greatest length of `sts.res`.
const RESIDUAL_LIMIT: usize = 16777215;

// Whether the first n + 1 offsets do not fall.
fn is_rising(offsets: &[u8], n: usize) -> bool
    requires { 4 * n + 4 ≤ length offsets.now }
    ensures { result ≡ opening.rising_in offsets.now n }
{
    let mut last = base::bytes::u32_at(offsets, 0);
    for i in 0..n {
        let next = base::bytes::u32_at(offsets, i + 1);
        if next < last {
            return false;
        }
        last = next;
    }
    true
}

// Whether the optional sizes are missing, or at least n.
fn has_sizes(sizes: Option<Span>, n: usize) -> bool
    ensures { result ≡ opening.has_sizes sizes n }
{
    match sizes {
        Some(span) => n <= span.len,
        None => true,
    }
}

// Whether the tables fit the header and each other.
pub fn is_good(file: &[u8], d: DiphoneVoice) -> bool
    requires { (d ≡ places_of file.now) × (good_numbers d.header ≡ true) }
    ensures { result ≡ opening.good_tables (voice_of file.now) }
{
    let frames = d.header.frames as usize;
    if d.residual.len > RESIDUAL_LIMIT {
        return false;
    }
    if d.lpc.len < frames * (d.header.order as usize) * 2 {
        return false;
    }
    if !has_sizes(d.sizes, frames) {
        return false;
    }
    if d.offsets.len < (frames + 1) * 4 {
        return false;
    }
    let offsets = super::sections::bytes_at(file, d.offsets);
    is_rising(offsets, frames) && base::bytes::u32_at(offsets, frames) as usize <= d.residual.len
}

// The pitch periods of an open voice: samples, residual and row of each.
ghost use Rattle.std.specs.Prelude.{◌≡◌, max, ◌+◌, ◌*◌, ◌≤◌, ◌<◌};
ghost use Rattle.base.specs.Buffers.{flat};
ghost use Rattle.base.specs.Bytes.{bytes_of};
ghost use Rattle.voice.specs.Voice.{voice_of};
ghost use Rattle.voice.specs.Periods as periods;
ghost use Rattle.voice.specs.Opening.{IsOpen, residual_limit};

use super::DiphoneVoice;
use base::Span;

// Where period i begins in the residual.
fn offset(file: &[u8], d: DiphoneVoice, i: usize) -> usize
    requires { IsOpen file.now d × (i ≤ d.header.frames) }
    ensures { (result ≡ periods.offset (voice_of file.now) i) × (result ≤ d.residual.len) }
{
    base::bytes::read_u32(file, d.offsets.at + 4 * i) as usize
}

// How many bytes period p has.
pub fn gap(file: &[u8], d: DiphoneVoice, p: usize) -> usize
    requires { IsOpen file.now d × (p < d.header.frames) }
    ensures { (result ≡ periods.gap (voice_of file.now) p) × (result ≤ residual_limit) }
{
    offset(file, d, p + 1) - offset(file, d, p)
}

// How many samples period p has.
pub fn period_samples(file: &[u8], d: DiphoneVoice, p: usize) -> usize
    requires { IsOpen file.now d × (p < d.header.frames) }
    ensures { (result ≡ periods.samples_of (voice_of file.now) p) × (result ≤ residual_limit) }
{
    match d.sizes {
        Some(span) => file[span.at + p] as usize,
        None => gap(file, d, p),
    }
}

// The residual of period p.
pub fn residual<'a>(file: &'a [u8], d: DiphoneVoice, p: usize) -> &'a [u8]
    requires { IsOpen file.now d × (p < d.header.frames) }
    ensures { result.now ≡ periods.residual_of (voice_of file.now) p }
{
    let part = Span {
        at: d.residual.at + offset(file, d, p),
        len: gap(file, d, p),
    };
    super::sections::bytes_at(file, part)
}

// The row of period p, its values of two bytes each as stored.
pub fn row<'a>(file: &'a [u8], d: DiphoneVoice, p: usize) -> &'a [u8]
    requires { IsOpen file.now d × (p < d.header.frames) }
    ensures { result.now ≡ flat (bytes_of 2) (periods.row_of (voice_of file.now) p) }
{
    let width = 2 * (d.header.order as usize);
    let part = Span {
        at: d.lpc.at + p * width,
        len: width,
    };
    super::sections::bytes_at(file, part)
}

// The first period from `from` on that is longer than `most`, the longest before; the count of frames where
// none is. A walk that ends there needs no maximum at each step.
fn next_longer(file: &[u8], d: DiphoneVoice, from: usize, most: usize) -> usize
    requires { IsOpen file.now d ×
        ((from ≤ d.header.frames) × (most ≡ periods.longest (voice_of file.now) from)) }
    ensures { (periods.longest (voice_of file.now) result ≡ most) × ((from ≤ result) × (result ≤ d.header.frames)) }
{
    let frames = d.header.frames as usize;
    let mut begin = offset(file, d, from);
    for p in from..frames {
        let end = offset(file, d, p + 1);
        if most < end - begin {
            return p;
        }
        begin = end;
    }
    frames
}

// The bytes of the longest period.
fn longest(file: &[u8], d: DiphoneVoice) -> usize
    requires { IsOpen file.now d }
    ensures { (result ≡ periods.longest (voice_of file.now) d.header.frames) × (result ≤ residual_limit) }
{
    let frames = d.header.frames as usize;
    let mut most = 0;
    let mut p = next_longer(file, d, 0, 0);
    while p < frames {
        most = gap(file, d, p).max(most);
        p = next_longer(file, d, p + 1, most);
    }
    most
}

// How many bytes a call's decode buffer needs.
pub fn decode_room(file: &[u8], d: DiphoneVoice) -> usize
    requires { IsOpen file.now d }
    ensures { (result ≡ periods.decode_room (voice_of file.now)) × (result ≤ 33554430) }
{
    if d.header.codec == 0 {
        0
    } else {
        2 * longest(file, d)
    }
}

// What a unit takes: for each of its marks a pitch period, with its size, its row and its window of
// the excitation.
#![tactic(auto)]

ghost use Rattle.std.specs.Prelude.{◌≡◌, min, max, ◌+◌, ◌-◌, ◌*◌, ◌/◌, ◌≤◌, ◌<◌, length, take, drop};
ghost use Rattle.std.proofs.lemmas.List.Edits.{sets};
ghost use Rattle.base.specs.Buffers.{over, flat};
ghost use Rattle.base.specs.Bytes.{bytes_of, elements};
ghost use Rattle.voice.specs.Header.{codec_of};
ghost use Rattle.voice.specs.Voice.{voice_of};
ghost use Rattle.voice.specs.Periods.{row_of, decode_room};
ghost use Rattle.voice.specs.Opening.{IsOpen};
ghost use Rattle.marks.specs.NaturalMarks.{period_count};
ghost use Rattle.excitation.specs.Source.{source_of, centred};
ghost use Rattle.excitation.specs.Shares.{up_to_end, share_count};
ghost use Rattle.taking.specs.Taking.{decoded_of, HasDecoded, Held, CanTakeSamples, TakesSamples, CanTakePeriod, TakesPeriod, CanTake, Takes};

use units::Unit;
use voice::{Codec, DiphoneVoice};

// How far the periods of a call are taken: how many, the last mark taken (0 before the first), and
// the period whose decoded bytes the decode buffer's front holds, the voice's frames where none.
#[derive(Clone, Copy)]
pub struct Progress {
    pub taken: usize,
    pub mark: usize,
    pub front: usize,
}

// The codec of a voice.
fn codec_of(d: DiphoneVoice) -> Codec
    ensures { result ≡ codec_of d.header }
{
    match d.header.codec {
        0 => Codec::Ulaw,
        _ => Codec::G721,
    }
}

// At most n bytes of a slice, from the front.
fn front_of<'a>(s: &'a [u8], n: usize) -> &'a [u8]
    ensures { result.now ≡ take n s.now }
{
    &s[..n.min(s.len())]
}

// Decodes period p to the front of the buffer, where it is not there already.
fn decode_period(file: &[u8], d: DiphoneVoice, p: usize, front: usize, decoded: &mut [u8])
    requires { IsOpen file.now d ×
        ((p < d.header.frames) ×
        ((decode_room (voice_of file.now) ≤ length decoded.old) × Held (voice_of file.now) decoded.old front)) }
    ensures { decoded.new ≡ over (decoded_of (voice_of file.now) p) decoded.old }
{
    if front == p {
        return;
    }
    match codec_of(d) {
        Codec::Ulaw => {}
        Codec::G721 => adpcm::decode_adpcm(voice::periods::residual(file, d, p), decoded),
    }
}

// Writes the row of period p as element `taken` of the rows.
fn write_row(file: &[u8], d: DiphoneVoice, p: usize, taken: usize, rows: &mut [u8])
    requires { IsOpen file.now d ×
        ((p < d.header.frames) ×
        (2 * (d.header.order * taken) + 2 * d.header.order ≤ length rows.old)) }
    ensures { rows.new ≡
        sets rows.old (2 * (d.header.order * taken))
        (flat (bytes_of 2) (row_of (voice_of file.now) p)) }
{
    let at = 2 * (d.header.order as usize * taken);
    excitation::copy_at(voice::periods::row(file, d, p), rows, at);
}

// Puts period p, which the decode buffer's front has if it is decoded, into its window of the
// excitation.
fn write_period<'a>(
    file: &'a [u8],
    d: DiphoneVoice,
    p: usize,
    size: usize,
    at: usize,
    decoded: &'a [u8],
    excitation: &mut [u8],
)
    requires { IsOpen file.now d ×
        ((p < d.header.frames) ×
        (HasDecoded (voice_of file.now) decoded.now p × (at + size ≤ length excitation.old))) }
    ensures { excitation.new ≡
        sets excitation.old at (centred size (source_of (voice_of file.now) p)) }
{
    let samples = voice::periods::period_samples(file, d, p);
    let codec = codec_of(d);
    let source = excitation::source(decoded, voice::periods::residual(file, d, p), codec);
    excitation::write_window(front_of(source, samples), excitation, at, size);
}

// Decodes period p and puts it into its window of the excitation, where its size is above 0. Answers
// the period that the decode buffer's front has then.
pub fn take_samples(
    file: &[u8],
    d: DiphoneVoice,
    p: usize,
    size: usize,
    at: Progress,
    excitation: &mut [u8],
    decoded: &mut [u8],
) -> usize
    requires { CanTakeSamples file.now d p size at (length excitation.old) decoded.old }
    ensures { TakesSamples
        file.now p size at result
        excitation.old excitation.new decoded.old decoded.new }
{
    if size == 0 {
        return at.front;
    }
    decode_period(file, d, p, at.front, decoded);
    write_period(file, d, p, size, at.mark, decoded, excitation);
    p
}

// Takes period p with a size.
fn take_period(
    file: &[u8],
    d: DiphoneVoice,
    p: usize,
    size: usize,
    at: Progress,
    sizes: &mut [u8],
    rows: &mut [u8],
    excitation: &mut [u8],
    decoded: &mut [u8],
) -> usize
    requires { CanTakePeriod
        file.now d p size at (length sizes.old) (length rows.old) (length excitation.old) decoded.old }
    ensures { TakesPeriod
        file.now d p size at result
        sizes.old sizes.new rows.old rows.new
        excitation.old excitation.new decoded.old decoded.new }
{
    base::bytes::put_u32(sizes, at.taken, size as u32);
    write_row(file, d, p, at.taken, rows);
    take_samples(file, d, p, size, at, excitation, decoded)
}

// Of marks of which so many are taken: the end of those that are not above the unit's target end.
fn marks_up_to_end(unit: Unit, marks: &[u8], taken: usize) -> usize
    ensures { (result ≡ taken + up_to_end unit (drop taken (elements 4 marks.now))) ×
        (result ≤ max taken (length marks.now / 4)) }
{
    let count = marks.len() / 4;
    for end in taken..count {
        if unit.target_end < base::bytes::u32_at(marks, end) as usize {
            return end;
        }
    }
    taken.max(count)
}

// Of `count` marks of which so many are taken: the end of the unit's own, one for each of its periods.
fn own_end(unit: Unit, count: usize, taken: usize) -> usize
    requires { unit.first_period ≤ unit.last_period }
    ensures { (result ≡ taken + min (period_count unit) (count - taken)) × (result ≤ max taken count) }
{
    let own = unit.last_period - unit.first_period;
    taken + own.min(count.saturating_sub(taken))
}

// The end of a unit's share of the marks, of which so many are taken: in the simple join it takes as
// many as it has periods, else those that are not above its target end.
pub fn share_end(natural: bool, unit: Unit, marks: &[u8], taken: usize) -> usize
    requires { unit.first_period ≤ unit.last_period }
    ensures { (result ≡ taken + share_count natural unit (drop taken (elements 4 marks.now))) ×
        (result ≤ max taken (length marks.now / 4)) }
{
    if natural {
        return own_end(unit, marks.len() / 4, taken);
    }
    marks_up_to_end(unit, marks, taken)
}

// Takes the unit's share of the marks, a period for each.
pub fn take_unit(
    natural: bool,
    file: &[u8],
    d: DiphoneVoice,
    unit: Unit,
    end_before: usize,
    marks: &[u8],
    at: Progress,
    sizes: &mut [u8],
    rows: &mut [u8],
    excitation: &mut [u8],
    decoded: &mut [u8],
) -> Progress
    requires { CanTake natural
        file.now d unit end_before marks.now at
        (length sizes.old) (length rows.old) (length excitation.old) decoded.old }
    ensures { Takes natural
        file.now d unit end_before marks.now at result
        sizes.old sizes.new rows.old rows.new
        excitation.old excitation.new decoded.old decoded.new }
{
    let pace = excitation::pace_of(file, d, unit, end_before);
    let end = share_end(natural, unit, marks, at.taken);
    let mut to = at;
    let mut place = 0.0;
    while to.taken < end {
        let mark = base::bytes::u32_at(marks, to.taken) as usize;
        let size = mark - to.mark;
        let p = excitation::nearest_period(file, d, unit, place);
        let front = take_period(file, d, p, size, to, sizes, rows, excitation, decoded);
        to = Progress {
            taken: to.taken + 1,
            mark,
            front,
        };
        place = excitation::place_after(place, pace, size);
    }
    to
}

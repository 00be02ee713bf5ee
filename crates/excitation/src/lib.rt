// The excitation: which pitch period each output period takes, and the window it is put into.
#![tactic(auto)]

ghost use Rattle.std.specs.Prelude.{◌≡◌, min, max, ◌+◌, ◌-◌, ◌*◌, ◌^◌, ◌≤◌, ◌<◌, length, replicate};
ghost use Rattle.std.proofs.lemmas.List.Edits.{sets};
ghost use Rattle.voice.specs.Voice.{voice_of};
ghost use Rattle.voice.specs.Periods.{samples_from};
ghost use Rattle.voice.specs.Opening.{IsOpen};
ghost use Rattle.excitation.specs.Source as sources;
ghost use Rattle.excitation.specs.Nearest as places;

use units::Unit;
use voice::{Codec, DiphoneVoice};

// How many of n decoded samples are lead-in: eight, or all if they are fewer.
fn lead_in(n: usize) -> usize
    ensures { (result ≤ n) × (result ≡ min 8 n) }
{
    n.min(8)
}

// The source of a period: a part of the decoded buffer, whose front holds the period, or the
// voice's residual of it. A caller that has no sample to fill decodes nothing and does not ask; to
// count at most the period's samples of it is the caller's.
pub fn source<'a>(decoded: &'a [u8], residual: &'a [u8], codec: Codec) -> &'a [u8]
    requires { sources.Holds codec decoded.now residual.now }
    ensures { result.now ≡ sources.source_by codec residual.now }
{
    match codec {
        Codec::Ulaw => residual,
        Codec::G721 => {
            let n = 2 * residual.len();
            let from = lead_in(n);
            &decoded[from..n]
        }
    }
}

// Writes n bytes of 255.
fn fill_at(buf: &mut [u8], at: usize, n: usize)
    requires { at + n ≤ length buf.old }
    ensures { buf.new ≡ sets buf.old at (replicate n 255) }
{
    buf[at..at + n].fill(255);
}

// Writes bytes at a place, one by one: the windows are short, and an engine in C needs no memmove.
pub fn copy_at(from: &[u8], buf: &mut [u8], at: usize)
    requires { at + length from.now ≤ length buf.old }
    ensures { buf.new ≡ sets buf.old at from.now }
{
    for i in 0..from.len() {
        buf[at + i] = from[i];
    }
}

// Puts a source into the window of so many samples at a place: the shorter of the two is centred in
// the other, with 255 elsewhere.
pub fn write_window(source: &[u8], buf: &mut [u8], at: usize, size: usize)
    requires { at + size ≤ length buf.old }
    ensures { buf.new ≡ sets buf.old at (sources.centred size source.now) }
{
    let n = source.len();
    if n < size {
        let before = (size - n) / 2;
        fill_at(buf, at, before);
        copy_at(source, buf, at + before);
        fill_at(buf, at + before + n, size - n - before);
    } else {
        let from = (n - size) / 2;
        copy_at(&source[from..from + size], buf, at);
    }
}

// The period of a unit that is nearest to a place in it.
pub fn nearest_period(file: &[u8], d: DiphoneVoice, unit: Unit, place: f32) -> usize
    requires { IsOpen file.now d ×
        ((unit.first_period ≤ unit.last_period) × (unit.last_period ≤ d.header.frames)) }
    ensures { (result ≡ places.nearest_period (voice_of file.now) unit place) × (result < d.header.frames) }
{
    let mut start = 0.0;
    for p in unit.first_period..unit.last_period {
        let end = start + float::u32_to_f32(voice::periods::period_samples(file, d, p) as u32);
        if float::is_nearer(place, start, end) {
            return p;
        }
        start = end;
    }
    unit.last_period.saturating_sub(1)
}

// The samples of the periods from `from` on and before `to`, at most 255 of them.
pub fn samples_from(file: &[u8], d: DiphoneVoice, from: usize, to: usize) -> usize
    requires { IsOpen file.now d × ((from ≤ to) × ((to ≤ d.header.frames) × (to ≤ from + 255))) }
    ensures { (result ≡ samples_from (voice_of file.now) from (to - from)) ×
        (result ≤ 16777215 * (to - from)) }
{
    let mut sum = 0;
    for p in (from..to).rev() {
        sum += voice::periods::period_samples(file, d, p);
    }
    sum
}

// How many of a unit's samples pass with each output sample.
pub fn pace_of(file: &[u8], d: DiphoneVoice, unit: Unit, end_before: usize) -> f32
    requires { IsOpen file.now d ×
        ((unit.first_period ≤ unit.last_period) ×
        ((unit.last_period ≤ d.header.frames) ×
        ((unit.last_period ≤ unit.first_period + 255) × (unit.target_end ≤ 16777215)))) }
    ensures { result ≡ places.pace_of (voice_of file.now) unit end_before }
{
    let samples = samples_from(file, d, unit.first_period, unit.last_period);
    float::u32_to_f32(samples as u32) / float::u32_to_f32(span(unit.target_end, end_before) as u32)
}

// The place in a unit after a taken size.
pub fn place_after(place: f32, pace: f32, size: usize) -> f32
    requires { size < 2 ^ 32 }
    ensures { result ≡ places.place_after_size place pace size }
{
    place + float::u32_to_f32(size as u32) * pace
}

// A target end less the one before it, at least 1.
fn span(end: usize, before: usize) -> usize
    requires { end ≤ 16777215 }
    ensures { (result ≡ max (end - before) 1) × (result ≤ 16777215) }
{
    end.saturating_sub(before).max(1)
}

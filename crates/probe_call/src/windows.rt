// The window of a period, and the period nearest to a place, exported so that the comparison with
// the Rust can read them.
ghost use Rattle.voice.specs.Opening.{IsOpen};

use taking::Progress;
use units::Unit;
use voice::DiphoneVoice;

// Fills the window twice: the second time the decode buffer's front has the period.
fn window_of(file: &[u8], d: DiphoneVoice, p: usize, window: &mut [u8], decoded: &mut [u8]) -> u32
    requires { IsOpen file.now d }
{
    let frames = d.header.frames as usize;
    if frames <= p || decoded.len() < voice::periods::decode_room(file, d) {
        return 0;
    }
    let size = window.len();
    let none = Progress {
        taken: 0,
        mark: 0,
        front: frames,
    };
    let front = taking::take_samples(file, d, p, size, none, window, decoded);
    let held = Progress { front, ..none };
    taking::take_samples(file, d, p, size, held, window, decoded);
    1
}

// Puts period p into a window, and decodes it to the front of a buffer. 0 where the voice does not
// open or has no such period, or the buffer is too short, else 1.
#[unsafe(no_mangle)]
pub extern "C" fn probe_window(
    file: &[u8],
    p: usize,
    window: &mut [u8],
    decoded: &mut [u8],
) -> u32 {
    let Ok(d) = opening::check(file) else {
        return 0;
    };
    window_of(file, d, p, window, decoded)
}

fn nearest_of(file: &[u8], d: DiphoneVoice, first: usize, last: usize, place: f32) -> usize
    requires { IsOpen file.now d }
{
    let frames = d.header.frames as usize;
    if last < first || frames < last {
        return frames;
    }
    let unit = Unit {
        first_period: first,
        last_period: last,
        target_end: 0,
        pair: 0,
        half: 0,
    };
    excitation::nearest_period(file, d, unit, place)
}

// The period nearest to a place, given as the bits of an f32, of those from `first` on and before
// `last`; the voice's frames where it has no such periods, 0 where it does not open.
#[unsafe(no_mangle)]
pub extern "C" fn probe_nearest_period(
    file: &[u8],
    first: usize,
    last: usize,
    place: u32,
) -> usize {
    let Ok(d) = opening::check(file) else {
        return 0;
    };
    nearest_of(file, d, first, last, float::f32_from_word(place))
}

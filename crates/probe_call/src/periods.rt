// The periods of a voice, exported so that the comparison with the Rust can read them.
ghost use Rattle.voice.specs.Opening.{IsOpen};

use voice::DiphoneVoice;

fn samples_of(file: &[u8], d: DiphoneVoice, p: usize) -> usize
    requires { IsOpen file.now d }
{
    if p < d.header.frames as usize {
        voice::periods::period_samples(file, d, p)
    } else {
        0
    }
}

// How many samples period p has; 0 where the voice does not open or has no such period.
#[unsafe(no_mangle)]
pub extern "C" fn probe_period_samples(file: &[u8], p: usize) -> usize {
    let Ok(d) = opening::check(file) else {
        return 0;
    };
    samples_of(file, d, p)
}

// Copies bytes to a buffer where they fit; how many they are.
fn hand_out(bytes: &[u8], out: &mut [u8]) -> usize {
    if bytes.len() <= out.len() {
        excitation::copy_at(bytes, out, 0);
    }
    bytes.len()
}

fn residual_of(file: &[u8], d: DiphoneVoice, p: usize, out: &mut [u8]) -> usize
    requires { IsOpen file.now d }
{
    if p < d.header.frames as usize {
        hand_out(voice::periods::residual(file, d, p), out)
    } else {
        0
    }
}

// Copies the residual of period p.
#[unsafe(no_mangle)]
pub extern "C" fn probe_residual(file: &[u8], p: usize, out: &mut [u8]) -> usize {
    let Ok(d) = opening::check(file) else {
        return 0;
    };
    residual_of(file, d, p, out)
}

fn row_of(file: &[u8], d: DiphoneVoice, p: usize, out: &mut [u8]) -> usize
    requires { IsOpen file.now d }
{
    if p < d.header.frames as usize {
        hand_out(voice::periods::row(file, d, p), out)
    } else {
        0
    }
}

// Copies the row of period p, as stored.
#[unsafe(no_mangle)]
pub extern "C" fn probe_row(file: &[u8], p: usize, out: &mut [u8]) -> usize {
    let Ok(d) = opening::check(file) else {
        return 0;
    };
    row_of(file, d, p, out)
}

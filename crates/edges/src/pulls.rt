// Pulls at the edges of what document 01 admits.
use crate::answers;
use lpc::{FilterState, ResynthType};
use std::io;

// The first n bytes of a buffer, or all where it has fewer.
pub(super) fn front(buf: &mut [u8], n: usize) -> &mut [u8] {
    let end = n.min(buf.len());
    &mut buf[..end]
}

// Makes a pull that is lent the front of a slice, so many bytes long, and prints its answer.
pub fn make<R: Print>(
    rt: &R,
    state: FilterState,
    sizes: &[u8],
    rows: &[u8],
    excitation: &[u8],
    samples: &mut [u8],
    samples_len: usize,
) -> io::Result<FilterState> {
    let samples = front(samples, samples_len);
    let pulled = diphone::pull(state, sizes, rows, excitation, samples);
    answers::pulled(rt, pulled.answer)?;
    Ok(pulled.state)
}

// Pulls a period of 32 samples into slices that are too short, then into one that is just long enough.
fn pull_again<R: Print>(
    rt: &R,
    number: usize,
    state: FilterState,
    sizes: &[u8],
    rows: &[u8],
    excitation: &[u8],
    samples: &mut [u8],
) -> io::Result<FilterState> {
    print!(rt; "period {number}, slice one sample short: ")?;
    let kept = make(rt, state, sizes, rows, excitation, samples, 62)?;
    print!(rt; "period {number}, slice one byte short: ")?;
    let left = make(rt, kept, sizes, rows, excitation, samples, 63)?;
    print!(rt; "period {number}, slice just long enough: ")?;
    make(rt, left, sizes, rows, excitation, samples, 64)
}

fn print_same<R: Print>(rt: &R, a: &[u8; 64], b: &[u8; 64]) -> io::Result<()> {
    if a == b {
        println!(rt; "the same samples")
    } else {
        println!(rt; "other samples")
    }
}

// Pulls a period of 32 samples after refusals, and without them.
fn try_period<R: Print>(
    rt: &R,
    number: usize,
    state: FilterState,
    sizes: &[u8],
    rows: &[u8],
    excitation: &[u8],
) -> io::Result<FilterState> {
    let mut samples = [0u8; 64];
    let mut others = [255u8; 64];
    let after = pull_again(rt, number, state, sizes, rows, excitation, &mut samples)?;
    print!(rt; "period {number}, without the refusals: ")?;
    make(rt, state, sizes, rows, excitation, &mut others, 64)?;
    print!(rt; "period {number}, both times: ")?;
    print_same(rt, &samples, &others)?;
    Ok(after)
}

// The periods of the call have 32, 0 and 32 samples.
fn try_periods<R: Print>(
    rt: &R,
    state: FilterState,
    sizes: &[u8],
    rows: &[u8],
    excitation: &[u8],
) -> io::Result<()> {
    let mut samples = [0u8; 64];
    let second = try_period(rt, 1, state, sizes, rows, excitation)?;
    print!(rt; "period 2, no slice: ")?;
    let third = make(rt, second, sizes, rows, excitation, &mut samples, 0)?;
    let last = try_period(rt, 3, third, sizes, rows, excitation)?;
    print!(rt; "after all periods, no slice: ")?;
    let done = make(rt, last, sizes, rows, excitation, &mut samples, 0)?;
    print!(rt; "after all periods, again: ")?;
    make(rt, done, sizes, rows, excitation, &mut samples, 64)?;
    Ok(())
}

// The order of the call is 32.
fn try_rings<R: Print>(
    rt: &R,
    state: FilterState,
    sizes: &[u8],
    rows: &[u8],
    excitation: &[u8],
) -> io::Result<()> {
    let mut samples = [0u8; 64];
    let mut s = state;
    s.ring_place = 33;
    print!(rt; "state with order 32, ring place 33: ")?;
    make(rt, s, sizes, rows, excitation, &mut samples, 64)?;
    s.order = 33;
    print!(rt; "state with order 33, ring place 33: ")?;
    make(rt, s, sizes, rows, excitation, &mut samples, 64)?;
    Ok(())
}

// The call has 3 sizes and 64 samples.
fn try_places<R: Print>(
    rt: &R,
    state: FilterState,
    sizes: &[u8],
    rows: &[u8],
    excitation: &[u8],
) -> io::Result<()> {
    let mut samples = [0u8; 64];
    let mut s = state;
    s.sample_place = 64;
    print!(rt; "state with sample place 64: ")?;
    make(rt, s, sizes, rows, excitation, &mut samples, 0)?;
    s.sample_place = 65;
    print!(rt; "state with sample place 65: ")?;
    make(rt, s, sizes, rows, excitation, &mut samples, 64)?;
    s.sample_place = 64;
    s.period = 3;
    print!(rt; "state with period 3: ")?;
    make(rt, s, sizes, rows, excitation, &mut samples, 64)?;
    s.period = 4;
    print!(rt; "state with period 4: ")?;
    make(rt, s, sizes, rows, excitation, &mut samples, 64)?;
    Ok(())
}

// Pulls from a call's fresh state.
fn try_pulls<R: Print>(
    rt: &R,
    state: FilterState,
    sizes: &[u8],
    rows: &[u8],
    excitation: &[u8],
) -> io::Result<()> {
    try_periods(rt, state, sizes, rows, excitation)?;
    try_rings(rt, state, sizes, rows, excitation)?;
    try_places(rt, state, sizes, rows, excitation)
}

// Pulls from the fresh state of a call of order 32 that has filled three sizes, three rows and 64 bytes of
// excitation.
pub fn try_all<R: Print>(rt: &R) -> io::Result<()> {
    let mut sizes = [0u8; 12];
    sizes[0] = 32;
    sizes[8] = 32;
    let rows = [129u8; 192];
    let excitation = [159u8; 64];
    let state = FilterState::fresh(ResynthType::Fixed, 32, -1.0, 2.0);
    try_pulls(rt, state, &sizes, &rows, &excitation)
}

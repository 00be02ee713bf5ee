// The G.721 decoder's delays, exported so that the comparison with the Rust can read them. They are
// not in `probe`: a second caller of the decoder's steps would keep them from being inlined there.
#![tactic(auto)]

ghost use Rattle.std.specs.Prelude.{◌≡◌, ◌*◌, ◌≤◌, length};
ghost use Rattle.adpcm.specs.Decoder.{codes_of, state_at};

// The decoder's delays after the first `count` codes of packed bytes.
fn state_after(packed: &[u8], count: usize) -> adpcm::AdpcmState
    requires { count ≤ 2 * length packed.now }
    ensures { result ≡ state_at (codes_of packed.now) count }
{
    let mut state = adpcm::AdpcmState::fresh();
    for k in 0..count {
        let code = adpcm::code_at(packed, k);
        let g = state.signals_of(code);
        state = state.next_of(code, g);
    }
    state
}

// A number of the delays: yl, yu, dms, dml, ap, a1, a2, pk1, pk2, sr1, sr2, td.
fn number_of(s: adpcm::AdpcmState, i: usize) -> u32 {
    match i {
        0 => s.yl,
        1 => s.yu as u32,
        2 => s.dms as u32,
        3 => s.dml as u32,
        4 => s.ap as u32,
        5 => s.a1 as u32,
        6 => s.a2 as u32,
        7 => s.pk1 as u32,
        8 => s.pk2 as u32,
        9 => s.sr1 as u32,
        10 => s.sr2 as u32,
        _ => s.td as u32,
    }
}

// A word of the delays: the twelve numbers, then the six of b and the six of dq; 0 past them.
fn word_of(s: adpcm::AdpcmState, i: usize) -> u32 {
    let b = s.b;
    let dq = s.dq;
    if i < 12 {
        return number_of(s, i);
    }
    if i < 18 {
        return wide(b[i - 12]);
    }
    if i < 24 {
        return wide(dq[i - 18]);
    }
    0
}

fn wide(word: u16) -> u32 {
    word as u32
}

// A word of the Rust's `AdpcmState` after the first `count` codes; 0 where there are fewer.
#[unsafe(no_mangle)]
pub extern "C" fn probe_adpcm_word(packed: &[u8], count: usize, i: usize) -> u32 {
    if count <= 2 * packed.len() {
        return word_of(state_after(packed, count), i);
    }
    0
}

// A filter state in bytes, as a program in C keeps it.
#![tactic(auto)]

ghost use Rattle.std.specs.Prelude.{◌≡◌, ◌≤◌, length, get_or};
ghost use Rattle.std.specs.Float.{nan, binary32};
ghost use Rattle.std.specs.Float.Ieee.{of_bits, to_bits};
ghost use Rattle.base.specs.Buffers.{over, upto};
ghost use Rattle.c_state.specs.State as states;

use lpc::{FilterState, ResynthType};

// The history's words.
fn load_words(buf: &[u8]) -> [u32; 33]
    requires { 168 ≤ length buf.now }
    ensures { result ≡ upto (states.history_at buf.now) 33 }
{
    let mut history = [0; 33];
    for i in 0..33 {
        history[i] = base::bytes::read_u32(buf, 36 + 4 * i);
    }
    history
}

// The history's floats.
fn load_floats(buf: &[u8]) -> [f32; 33]
    requires { 168 ≤ length buf.now }
    ensures { result ≡ upto (λ i. of_bits binary32 (states.history_at buf.now i)) 33 }
{
    let mut history = [0.0; 33];
    for i in 0..33 {
        history[i] = float::f32_from_word(base::bytes::read_u32(buf, 36 + 4 * i));
    }
    history
}

// The state, its histories 0.
fn load_head(buf: &[u8], filter: ResynthType) -> FilterState
    requires { 168 ≤ length buf.now }
    ensures { result ≡ states.head_of filter buf.now }
{
    let order = base::bytes::read_u32(buf, 4) as usize;
    let coeff_min = float::f32_from_word(base::bytes::read_u32(buf, 12));
    let coeff_range = float::f32_from_word(base::bytes::read_u32(buf, 16));
    FilterState {
        ring_place: base::bytes::read_u32(buf, 8) as usize,
        period: base::bytes::read_u64(buf, 20) as usize,
        sample_place: base::bytes::read_u64(buf, 28) as usize,
        ..FilterState::fresh(filter, order, coeff_min, coeff_range)
    }
}

// The state that bytes say.
pub fn load(buf: &[u8]) -> FilterState
    requires { 168 ≤ length buf.now }
    ensures { result ≡ states.state_of buf.now }
{
    if base::bytes::read_u32(buf, 0) == 0 {
        FilterState {
            fixed: load_words(buf),
            ..load_head(buf, ResynthType::Fixed)
        }
    } else {
        FilterState {
            float: load_floats(buf),
            ..load_head(buf, ResynthType::Float)
        }
    }
}

// The bits of a history's floats.
fn float_words(history: &[f32; 33]) -> [u32; 33]
    ensures { result ≡ upto (λ i. to_bits binary32 (get_or history.now i nan)) 33 }
{
    let mut words = [0; 33];
    for i in 0..33 {
        words[i] = float::f32_to_word(history[i]);
    }
    words
}

// The history of the state's filter, as words.
fn words_of(state: FilterState) -> [u32; 33]
    ensures { result ≡ upto (states.word_of state) 33 }
{
    match state.filter {
        ResynthType::Fixed => state.fixed,
        ResynthType::Float => float_words(&state.float),
    }
}

// All but the history, to the front of a buffer.
fn store_head(state: FilterState, buf: &mut [u8])
    requires { 36 ≤ length buf.old }
    ensures { buf.new ≡ over (states.head_bytes state) buf.old }
{
    base::bytes::write_u32(buf, 0, state.filter as u32);
    base::bytes::write_u32(buf, 4, base::words::low32(state.order as u64));
    base::bytes::write_u32(buf, 8, base::words::low32(state.ring_place as u64));
    base::bytes::write_u32(buf, 12, float::f32_to_word(state.coeff_min));
    base::bytes::write_u32(buf, 16, float::f32_to_word(state.coeff_range));
    base::bytes::write_u64(buf, 20, state.period as u64);
    base::bytes::write_u64(buf, 28, state.sample_place as u64);
}

// The history, to the front of a buffer.
fn store_history(state: FilterState, buf: &mut [u8])
    requires { 132 ≤ length buf.old }
    ensures { buf.new ≡ over (states.history_bytes state) buf.old }
{
    let words = words_of(state);
    for i in 0..33 {
        base::bytes::put_u32(buf, i, words[i]);
    }
}

// The bytes of a state, to the front of a buffer.
pub fn store(state: FilterState, buf: &mut [u8])
    requires { 168 ≤ length buf.old }
    ensures { buf.new ≡ over (states.bytes_of_state state) buf.old }
{
    store_head(state, buf);
    store_history(state, &mut buf[36..168]);
}

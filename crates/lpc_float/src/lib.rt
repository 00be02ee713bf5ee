// The float filter: f32, one rounding for each product and each sum.
#![tactic(auto)]

ghost use Rattle.std.specs.Prelude.{◌≡◌, ◌/◌, ◌≤◌, length, get_or, replicate, slice_index_or};
ghost use Rattle.std.specs.Float.{nan, binary32};
ghost use Rattle.std.specs.Float.Ieee.{of_int, to_signed};
ghost use Rattle.base.specs.Buffers.{over, flat, upto};
ghost use Rattle.base.specs.Bytes.{bytes_of, u16_at};
ghost use Rattle.base.specs.Words.{low};
ghost use Rattle.ulaw.specs.Ulaw.{sample_of};
ghost use Rattle.lpc.specs.Floating.{float_value};
ghost use Rattle.lpc.specs.Ready.{Ready, part_of};
ghost use Rattle.lpc.specs.Ring.{place_before, tap};
ghost use Rattle.lpc.specs.State.{advanced, spoken};
ghost use Rattle.lpc.specs.Sums.{summed, float_step};
ghost use Rattle.lpc_float.specs.Values.{zero32};

use lpc::{FilterState, ResynthType};

// The row value of q.
fn row_value(coeff_min: f32, coeff_range: f32, q: u16) -> f32
    ensures { result ≡ float_value coeff_min coeff_range q }
{
    let share = q as f64 / 65535.0;
    let range = std::num::f32_to_f64_with_nan(coeff_range);
    float::f64_to_f32(share * range) + coeff_min
}

// The accumulator `start` with the `order` products added: value k times the output k + 1 back.
// `last` is the newest output, at hand before it can be read back from the ring.
fn sum(
    start: f32,
    last: f32,
    values: &[f32; 32],
    history: &[f32; 33],
    order: usize,
    place: usize,
) -> f32
    requires { (order ≤ 32) × (place ≤ order) × (last ≡ slice_index_or history.now (place_before order place) nan) }
    ensures { result ≡ summed float_step start (upto (λ k. get_or values.now k nan) order)
        (λ k. get_or history.now (tap order place k) nan) 0 }
{
    let newest = lpc::place_before(order, place);
    if order == 0 {
        return start;
    }
    let mut acc = start + values[0] * last;
    let mut at = lpc::place_before(order, newest);
    for k in 1..order {
        acc += values[k] * history[at];
        at = lpc::place_before(order, at);
    }
    acc
}

// The values of a row; zeros after them.
fn row_values(coeff_min: f32, coeff_range: f32, row: &[u8]) -> [f32; 32]
    requires { length row.now ≤ 64 }
    ensures { result ≡ over (upto (λ k. float_value coeff_min coeff_range (u16_at row.now k))
        (length row.now / 2)) (replicate 32 zero32) }
{
    let mut values = [0.0f32; 32];
    for k in 0..row.len() / 2 {
        values[k] = row_value(coeff_min, coeff_range, base::bytes::u16_at(row, k));
    }
    values
}

// The output for a byte of the excitation.
fn next(
    byte: u8,
    last: f32,
    values: &[f32; 32],
    history: &[f32; 33],
    order: usize,
    place: usize,
) -> f32
    requires { (order ≤ 32) × (place ≤ order) × (last ≡ slice_index_or history.now (place_before order place) nan) }
    ensures { result ≡ summed float_step (of_int binary32 (sample_of byte)) (upto (λ k. get_or values.now k nan) order)
        (λ k. get_or history.now (tap order place k) nan) 0 }
{
    sum(
        ulaw::ulaw_to_i16(byte) as f32,
        last,
        values,
        history,
        order,
        place,
    )
}

// The sample of an output, as a word. From 2^-40 up to 2^15 in magnitude it is the pattern's digits,
// shifted, and neither the sign nor a sample of 0 costs a branch.
fn sample(y: f32) -> u16
    ensures { result ≡ low 16 (to_signed 15 y) }
{
    let pattern = float::f32_to_word(y);
    let exponent = pattern % 2147483648 / 8388608;
    if 87 <= exponent && exponent < 142 {
        let digits = (8388608 + pattern % 8388608) as u64;
        let whole = (digits >> (150 - exponent)) as u32;
        let negative = pattern / 2147483648;
        base::words::low16(whole + negative * (65536 - 2 * whole))
    } else {
        base::words::i16_to_word(float::f32_to_i16(y))
    }
}

// The next period by the float filter: its samples go to the front of `samples`.
pub fn resynthesise_period(
    state: FilterState,
    row: &[u8],
    excitation: &[u8],
    samples: &mut [u8],
) -> FilterState
    requires { Ready state row.now excitation.now samples.old × (state.filter ≡ ResynthType.Float) }
    ensures value { result ≡ advanced state (part_of row.now excitation.now) }
    ensures samples_after { samples.new ≡ over (flat (bytes_of 2)
        (spoken state (part_of row.now excitation.now))) samples.old }
{
    let order = state.order;
    let values = row_values(state.coeff_min, state.coeff_range, row);
    let mut history = state.float;
    let mut place = state.ring_place;
    let mut last = history[lpc::place_before(order, place)];
    for (i, byte) in excitation.iter().enumerate() {
        let y = next(*byte, last, &values, &history, order, place);
        base::bytes::put_u16(samples, i, sample(y));
        history[place] = y;
        last = y;
        place = lpc::place_after(order, place);
    }
    FilterState {
        ring_place: place,
        period: state.period + 1,
        sample_place: state.sample_place + excitation.len(),
        float: history,
        ..state
    }
}

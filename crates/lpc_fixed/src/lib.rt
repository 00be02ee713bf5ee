// The fixed filter: words of 32 bits in two's complement.
#![tactic(auto)]

ghost use Rattle.std.specs.Prelude.{◌≡◌, ◌+◌, ◌-◌, ◌/◌, ◌≤◌, length, replicate, pos, ◌*ℤ◌, slice_index};
ghost use Rattle.base.specs.Buffers.{over, flat, upto};
ghost use Rattle.base.specs.Bytes.{bytes_of};
ghost use Rattle.base.specs.Words.{low};
ghost use Rattle.ulaw.specs.Ulaw.{sample_of};
ghost use Rattle.lpc.specs.Fixed.{scaled_by, row_value, divided};
ghost use Rattle.lpc.specs.Ready.{Ready, part_of};
ghost use Rattle.lpc.specs.State.{advanced, spoken};
ghost use Rattle.lpc.specs.Sums.{summed, fixed_step};
ghost use Rattle.lpc_fixed.specs.Values.{value_at};
ghost use Rattle.lpc_fixed.specs.Window.{Doubled};

use lpc::{FilterState, ResynthType};

// The row value of q, as a word. In i64 no scale overflows.
fn row_value(min_q: i32, range_q: i32, q: u16) -> u32
    ensures { result ≡ low 32 (row_value min_q range_q q) }
{
    let half = (q / 2) as i64;
    let value = (half * (range_q as i64) / 2048 + (min_q as i64)) / 2;
    base::words::low32(value.cast_unsigned())
}

// The accumulator `start` with the `order` products added: value k times the output k + 1 back, which
// the window has at place + order - k. Sums wrap, so their order is free: the newest output comes
// last, as `last`, at hand before it can be read back.
fn sum(
    start: u32,
    last: u32,
    values: &[u32; 32],
    window: &[u32; 66],
    order: usize,
    place: usize,
) -> u32
    requires { (order ≤ 32) × (place ≤ order) × (last ≡ slice_index window.now (place + order)) }
    ensures { result ≡ summed fixed_step start (upto (λ k. slice_index values.now k) order)
        (λ k. slice_index window.now (place + order - k)) 0 }
{
    if order == 0 {
        return start;
    }
    let mut acc = start;
    for k in (1..order).rev() {
        acc = acc.wrapping_add(base::words::wrapping_mul(values[k], window[place + order - k]));
    }
    acc.wrapping_add(base::words::wrapping_mul(values[0], last))
}

// A coefficient, scaled.
fn scaled(coeff: f32, by: u16) -> i32
    ensures { result ≡ scaled_by by coeff }
{
    float::f32_to_i32(coeff * f32::from(by))
}

// The values of a row, as words; zeros after them.
fn row_values(min_q: i32, range_q: i32, row: &[u8]) -> [u32; 32]
    requires { length row.now ≤ 64 }
    ensures { result ≡ over (upto (value_at min_q range_q row.now) (length row.now / 2))
        (replicate 32 0) }
{
    let mut values = [0u32; 32];
    for k in 0..row.len() / 2 {
        values[k] = row_value(min_q, range_q, base::bytes::u16_at(row, k));
    }
    values
}

// Q14: the fixed filter's scale.
const LPC_SCALE: u32 = 16384;

// The output for a byte of the excitation.
fn next(
    byte: u8,
    last: u32,
    values: &[u32; 32],
    window: &[u32; 66],
    order: usize,
    place: usize,
) -> u32
    requires { (order ≤ 32) × (place ≤ order) × (last ≡ slice_index window.now (place + order)) }
    ensures { result ≡ divided (summed fixed_step (low 32 (sample_of byte *ℤ pos 16384))
        (upto (λ k. slice_index values.now k) order) (λ k. slice_index window.now (place + order - k)) 0) }
{
    let sample = base::words::i32_to_word(ulaw::ulaw_to_i16(byte) as i32);
    let start = base::words::wrapping_mul(sample, LPC_SCALE);
    base::words::divide_by_16384(sum(start, last, values, window, order, place))
}

// The ring twice, so that no walk over `order` places of it wraps.
fn doubled(history: &[u32; 33], order: usize) -> [u32; 66]
    requires { order ≤ 32 }
    ensures { Doubled order (order + 1) history.now result × (length result ≡ 66) }
{
    let mut window = [0u32; 66];
    window[..order + 1].copy_from_slice(&history[..order + 1]);
    window[order + 1..2 * order + 2].copy_from_slice(&history[..order + 1]);
    window
}

// The next period by the fixed filter: its samples go to the front of `samples`.
pub fn resynthesise_period(
    state: FilterState,
    row: &[u8],
    excitation: &[u8],
    samples: &mut [u8],
) -> FilterState
    requires { Ready state row.now excitation.now samples.old × (state.filter ≡ ResynthType.Fixed) }
    ensures value { result ≡ advanced state (part_of row.now excitation.now) }
    ensures samples_after { samples.new ≡ over (flat (bytes_of 2)
        (spoken state (part_of row.now excitation.now))) samples.old }
{
    let order = state.order;
    let min_q = scaled(state.coeff_min, 32768);
    let range_q = scaled(state.coeff_range, 2048);
    let values = row_values(min_q, range_q, row);
    let mut history = state.fixed;
    let mut window = doubled(&history, order);
    let mut place = state.ring_place;
    let mut last = window[place + order];
    for (i, byte) in excitation.iter().enumerate() {
        let y = next(*byte, last, &values, &window, order, place);
        base::bytes::put_u16(samples, i, base::words::low16(y));
        history[place] = y;
        window[place] = y;
        window[place + order + 1] = y;
        last = y;
        place = lpc::place_after(order, place);
    }
    FilterState {
        ring_place: place,
        period: state.period + 1,
        sample_place: state.sample_place + excitation.len(),
        fixed: history,
        ..state
    }
}

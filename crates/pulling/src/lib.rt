// The steps of a pull.
#![tactic(auto)]

ghost use Rattle.std.specs.Prelude.{◌≡◌, ◌+◌, ◌*◌, ◌≤◌, leb, length, get_or, take, drop};
ghost use Rattle.base.specs.Buffers.{over, flat};
ghost use Rattle.base.specs.Bytes.{bytes_of, elements};
ghost use Rattle.lpc.specs.State.{advanced, spoken};
ghost use Rattle.call.specs.Pull.{lent_of, possible};
ghost use Rattle.pulling.specs.Pulling.{Takes, next_of};

use lpc::FilterState;

// Whether `count` rows of `order` elements each are there.
fn has_rows(count: usize, order: usize, elements: usize) -> bool
    ensures { result ≡ leb (count * order) elements }
{
    order == 0 || count <= elements / order
}

// Whether a state is possible, and the next row is there where there is a next period.
pub fn is_possible(state: FilterState, sizes: &[u8], rows: &[u8], excitation: &[u8]) -> bool
    ensures { result ≡ possible state (lent_of sizes.now rows.now excitation.now) }
{
    state.order <= 32
        && state.ring_place <= state.order
        && state.period <= sizes.len() / 4
        && state.sample_place <= excitation.len()
        && voice::header::in_scale(state.coeff_min)
        && voice::header::in_scale(state.coeff_range)
        && (state.period == sizes.len() / 4
            || has_rows(state.period + 1, state.order, rows.len() / 2))
}

// How many samples the next period has: its size, cut to what is left of the excitation.
pub fn next_len(state: FilterState, sizes: &[u8], excitation: &[u8]) -> usize
    requires { (4 * state.period + 4 ≤ length sizes.now) × (state.sample_place ≤ length excitation.now) }
    ensures { (result ≡ length (take (get_or (elements 4 sizes.now) state.period 0)
        (drop state.sample_place excitation.now))) ×
        (state.sample_place + result ≤ length excitation.now) }
{
    let size = base::bytes::u32_at(sizes, state.period) as usize;
    let left = excitation.len() - state.sample_place;
    size.min(left)
}

// The next period, of n samples: they go to the front of `samples`. Returns the state after it.
pub fn resynthesise_next(
    state: FilterState,
    n: usize,
    rows: &[u8],
    excitation: &[u8],
    samples: &mut [u8],
) -> FilterState
    requires { Takes state n (length rows.now) (length excitation.now) (length samples.old) }
    ensures value { result ≡ advanced state (next_of state n rows.now excitation.now) }
    ensures samples_after { samples.new ≡
        over (flat (bytes_of 2) (spoken state (next_of state n rows.now excitation.now)))
        samples.old }
{
    let order = state.order;
    let row_start = 2 * (state.period * order);
    let row_end = row_start + 2 * order;
    let start = state.sample_place;
    let end = start + n;
    let row = &rows[row_start..row_end];
    let residual = &excitation[start..end];
    lpc_period::resynthesise_period(state, row, residual, samples)
}

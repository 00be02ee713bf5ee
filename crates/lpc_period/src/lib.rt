// One period by the filter of the state.
#![tactic(auto)]

ghost use Rattle.std.specs.Prelude.{◌≡◌};
ghost use Rattle.base.specs.Buffers.{over, flat};
ghost use Rattle.base.specs.Bytes.{bytes_of};
ghost use Rattle.lpc.specs.Ready.{Ready, part_of};
ghost use Rattle.lpc.specs.State.{advanced, spoken};

use lpc::{FilterState, ResynthType};

// The next period: its samples go to the front of `samples`, two bytes each. Returns the state
// after it.
pub fn resynthesise_period(
    state: FilterState,
    row: &[u8],
    excitation: &[u8],
    samples: &mut [u8],
) -> FilterState
    requires { Ready state row.now excitation.now samples.old }
    ensures value { result ≡ advanced state (part_of row.now excitation.now) }
    ensures samples_after { samples.new ≡ over (flat (bytes_of 2)
        (spoken state (part_of row.now excitation.now))) samples.old }
{
    match state.filter {
        ResynthType::Fixed => lpc_fixed::resynthesise_period(state, row, excitation, samples),
        ResynthType::Float => lpc_float::resynthesise_period(state, row, excitation, samples),
    }
}

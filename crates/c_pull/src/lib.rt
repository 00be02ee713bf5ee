// A pull from C: numbers and byte slices alone.
#![tactic(auto)]

ghost use Rattle.std.specs.Prelude.{◌≡◌};
ghost use Rattle.call.specs.Pull.{lent_of};
ghost use Rattle.c_pull.specs.Pull as pulls;

use refusal::Refusal;

// Minus the number of a refusal.
fn minus_number(cause: Refusal) -> i64
    ensures { result ≡ pulls.refused_number cause }
{
    0 - (u32::from(cause) as i64)
}

// Pulls the next period: how many samples it gave, -1 for done, or minus the number of the refusal.
pub fn pull_in_c(
    state: &mut [u8],
    sizes: &[u8],
    rows: &[u8],
    excitation: &[u8],
    samples: &mut [u8],
) -> i64
    ensures value { result ≡
        pulls.number_for state.old (lent_of sizes.now rows.now excitation.now)
        samples.old }
    ensures state_after { state.new ≡
        pulls.state_left state.old (lent_of sizes.now rows.now excitation.now)
        samples.old }
    ensures samples_after { samples.new ≡
        pulls.slice_left state.old (lent_of sizes.now rows.now excitation.now)
        samples.old }
{
    if state.len() < 168 {
        return minus_number(Refusal::BadState);
    }
    if base::bytes::read_u32(state, 0) > 1 {
        return minus_number(Refusal::BadState);
    }
    let pulled = diphone::pull(c_state::load(state), sizes, rows, excitation, samples);
    let answer = pulled.answer;
    let after = pulled.state;
    match answer {
        Ok(Some(n)) => {
            c_state::store(after, state);
            n as i64
        }
        Ok(None) => -1,
        Err(cause) => minus_number(cause),
    }
}

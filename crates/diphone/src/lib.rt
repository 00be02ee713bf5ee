// A call, and its pulls: one pitch period of samples at a time.
#![tactic(auto)]

ghost use Rattle.std.specs.Prelude.{◌≡◌};
ghost use Rattle.refusal.specs.Number.{answer_of};
ghost use Rattle.call.specs.Buffers as calls;
ghost use Rattle.call.specs.Pull.{lent_of, pull_of};

use call::{Planned, Pulled, Settings};
use lpc::FilterState;
use refusal::Refusal;

// A call: opens the voice, reads the sheet, makes the marks, then fills the buffers. A refused call
// leaves them as they were.
pub fn plan(
    voice: &[u8],
    sheet: &[u8],
    settings: Settings,
    index: &mut [u8],
    marks: &mut [u8],
    sizes: &mut [u8],
    rows: &mut [u8],
    excitation: &mut [u8],
    decoded: &mut [u8],
) -> Planned
    ensures { (result ≡ calls.planned_of voice.now sheet.now settings
        (calls.lent index.old marks.old sizes.old rows.old
        excitation.old decoded.old)) ×
        (calls.lent index.new marks.new sizes.new rows.new
        excitation.new decoded.new ≡
        calls.buffers_after voice.now sheet.now settings
        (calls.lent index.old marks.old sizes.old rows.old
        excitation.old decoded.old)) ×
        (calls.called_number result.answer ≡ answer_of
        (calls.call_refusal voice.now sheet.now settings
        (calls.lent index.old marks.old sizes.old rows.old
        excitation.old decoded.old))) }
{
    match checking::check(voice, sheet, settings) {
        Err(cause) => planning::refused(cause),
        Ok(fit) => planning::plan_checked(
            voice, sheet, settings, fit, index, marks, sizes, rows, excitation, decoded,
        ),
    }
}

// The next period: its samples go to the front of `samples`, two bytes each. Lent are the sizes, rows
// and excitation that the call filled.
pub fn pull(
    state: FilterState,
    sizes: &[u8],
    rows: &[u8],
    excitation: &[u8],
    samples: &mut [u8],
) -> Pulled
    ensures value { result ≡ (pull_of state (lent_of sizes.now rows.now excitation.now)
        samples.old).pulled }
    ensures samples_after { samples.new ≡
        (pull_of state (lent_of sizes.now rows.now excitation.now)
        samples.old).slice }
{
    if !pulling::is_possible(state, sizes, rows, excitation) {
        return Pulled {
            answer: Err(Refusal::BadState),
            state,
        };
    }
    if state.period == sizes.len() / 4 {
        return Pulled {
            answer: Ok(None),
            state,
        };
    }
    let n = pulling::next_len(state, sizes, excitation);
    if samples.len() / 2 < n {
        return Pulled {
            answer: Err(Refusal::ShortSlice),
            state,
        };
    }
    let after = pulling::resynthesise_next(state, n, rows, excitation, samples);
    Pulled {
        answer: Ok(Some(n)),
        state: after,
    }
}

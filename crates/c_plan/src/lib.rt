// A call from C: what its buffers need, and the call itself; numbers and byte slices alone.
#![tactic(auto)]

mod planned;
mod reports;

ghost use Rattle.std.specs.Prelude.{◌≡◌, length};
ghost use Rattle.call.specs.Numbers as numbers;
ghost use Rattle.refusal.specs.Number.{answer_of};
ghost use Rattle.c_plan.specs.Plan as plans;

// How long each buffer of a call must be: 0, or the number of the refusal.
pub fn need_in_c(voice: &[u8], sheet: &[u8], settings: u32, need: &mut [u8]) -> u32
    ensures value { result ≡ answer_of
        (plans.refusal_of_need voice.now sheet.now (numbers.settings_of settings)
        (length need.old)) }
    ensures need_after { need.new ≡
        plans.need_left voice.now sheet.now (numbers.settings_of settings) need.old }
{
    match checking::check(voice, sheet, call::settings_of(settings)) {
        Err(cause) => u32::from(cause),
        Ok(fit) => planned::report_need(fit.need, need),
    }
}

// Makes a call: 0, or the number of the refusal.
pub fn plan_in_c(
    voice: &[u8],
    sheet: &[u8],
    settings: u32,
    index: &mut [u8],
    marks: &mut [u8],
    sizes: &mut [u8],
    rows: &mut [u8],
    excitation: &mut [u8],
    decoded: &mut [u8],
    state: &mut [u8],
    summary: &mut [u8],
) -> u32
    ensures value { result ≡ answer_of
        (plans.refusal_of_plan voice.now sheet.now (numbers.settings_of settings)
        (plans.handed index.old marks.old sizes.old rows.old
        excitation.old decoded.old state.old summary.old)) }
    ensures summary_after { plans.handed index.new marks.new sizes.new rows.new
        excitation.new decoded.new state.new summary.new ≡
        plans.handed_after voice.now sheet.now (numbers.settings_of settings)
        (plans.handed index.old marks.old sizes.old rows.old
        excitation.old decoded.old state.old summary.old) }
{
    let chosen = call::settings_of(settings);
    match checking::check(voice, sheet, chosen) {
        Err(cause) => u32::from(cause),
        Ok(fit) => planned::plan_handed(
            voice, sheet, chosen, fit, index, marks, sizes, rows, excitation, decoded, state,
            summary,
        ),
    }
}

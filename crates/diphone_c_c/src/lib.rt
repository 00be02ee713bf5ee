// The archive that a program in C links: the functions of `diphone_c`, with their clauses, under the C header's names.
// `report` is the C header's `record`, which is a word of the logic.
#![tactic(auto)]

ghost use Rattle.std.specs.Prelude.{◌≡◌, length};
ghost use Rattle.refusal.specs.Number.{answer_of};
ghost use Rattle.call.specs.Numbers as numbers;
ghost use Rattle.call.specs.Pull.{lent_of};
ghost use Rattle.reporting.specs.Report as reports;
ghost use Rattle.c_open.specs.Open as opens;
ghost use Rattle.c_plan.specs.Plan as plans;
ghost use Rattle.c_pull.specs.Pull as pulls;

// Opens a voice file: 0, or the number of the refusal.
#[unsafe(no_mangle)]
pub extern "C" fn diphone_open(voice: &[u8], index: &mut [u8], report: &mut [u8]) -> u32
    ensures { (result ≡ answer_of
        (opens.refusal_of_open voice.now (length index.old) (length report.old))) ×
        ((index.new ≡ opens.index_left voice.now index.old
        (length report.old)) ×
        (report.new ≡
        opens.record_left voice.now (length index.old) report.old)) }
{
    diphone_c::diphone_open(voice, index, report)
}

// How long each buffer of a call must be: 0, or the number of the refusal.
#[unsafe(no_mangle)]
pub extern "C" fn diphone_need(voice: &[u8], sheet: &[u8], settings: u32, need: &mut [u8]) -> u32
    ensures value { result ≡ answer_of
        (plans.refusal_of_need voice.now sheet.now (numbers.settings_of settings)
        (length need.old)) }
    ensures need_after { need.new ≡
        plans.need_left voice.now sheet.now (numbers.settings_of settings) need.old }
{
    diphone_c::diphone_need(voice, sheet, settings, need)
}

// Makes a call: 0, or the number of the refusal.
#[unsafe(no_mangle)]
pub extern "C" fn diphone_plan(
    voice: &[u8],
    sheet: &[u8],
    settings: u32,
    index: &mut [u8],
    marks: &mut [u8],
    sizes: &mut [u8],
    rows: &mut [u8],
    excitation: &mut [u8],
    decoded: &mut [u8],
    state: &mut [u8],
    summary: &mut [u8],
) -> u32
    ensures value { result ≡ answer_of
        (plans.refusal_of_plan voice.now sheet.now (numbers.settings_of settings)
        (plans.handed index.old marks.old sizes.old rows.old
        excitation.old decoded.old state.old summary.old)) }
    ensures summary_after { plans.handed index.new marks.new sizes.new rows.new
        excitation.new decoded.new state.new summary.new ≡
        plans.handed_after voice.now sheet.now (numbers.settings_of settings)
        (plans.handed index.old marks.old sizes.old rows.old
        excitation.old decoded.old state.old summary.old) }
{
    diphone_c::diphone_plan(
        voice, sheet, settings, index, marks, sizes, rows, excitation, decoded, state, summary,
    )
}

// Makes the report of a call: 0, or the number of the refusal.
#[unsafe(no_mangle)]
pub extern "C" fn diphone_report(voice: &[u8], sheet: &[u8], settings: u32, lines: &mut [u8]) -> u32
    ensures value { result ≡ answer_of
        (reports.refusal_of_report voice.now sheet.now (numbers.settings_of settings)
        (length lines.old)) }
    ensures lines_after { lines.new ≡
        reports.lines_left voice.now sheet.now (numbers.settings_of settings) lines.old }
{
    diphone_c::diphone_report(voice, sheet, settings, lines)
}

// Pulls the next period: how many samples it gave, -1 for done, or minus the number of the refusal.
#[unsafe(no_mangle)]
pub extern "C" fn diphone_pull(
    state: &mut [u8],
    sizes: &[u8],
    rows: &[u8],
    excitation: &[u8],
    samples: &mut [u8],
) -> i64
    ensures value { result ≡
        pulls.number_for state.old (lent_of sizes.now rows.now excitation.now)
        samples.old }
    ensures state_after { state.new ≡
        pulls.state_left state.old (lent_of sizes.now rows.now excitation.now)
        samples.old }
    ensures samples_after { samples.new ≡
        pulls.slice_left state.old (lent_of sizes.now rows.now excitation.now)
        samples.old }
{
    diphone_c::diphone_pull(state, sizes, rows, excitation, samples)
}

// The steps of `diphone_need` and `diphone_plan` after the check.
ghost use Rattle.std.specs.Prelude.{◌≡◌, ◌≤◌, length};
ghost use Rattle.base.specs.Buffers.{over};
ghost use Rattle.checking.specs.Checks.{Passes};
ghost use Rattle.call.specs.Buffers as calls;
ghost use Rattle.base.specs.Buffers.{unless_refused};
ghost use Rattle.refusal.specs.Number.{answer_of};
ghost use Rattle.c_plan.specs.Reports as reports;
ghost use Rattle.c_plan.specs.Plan as plans;

use call::{Need, Settings, Summary};
use checking::Fit;
use refusal::Refusal;

// 13 for the report of what a call needs, which is filled otherwise.
pub(super) fn report_need(need: Need, report: &mut [u8]) -> u32
    ensures { (result ≡ answer_of (plans.short_report (length report.old))) ×
        (report.new ≡
        unless_refused (plans.short_report (length report.old)) (reports.need_bytes need) report.old) }
{
    if report.len() < 48 {
        return u32::from(Refusal::ShortBuffer);
    }
    super::reports::write_six(
        report,
        [
            need.entries as u64,
            need.marks as u64,
            need.periods as u64,
            need.rows as u64,
            need.excitation as u64,
            need.decoded as u64,
        ],
    );
    0
}

// The summary of a call, to the front of a report.
fn write_summary(m: Summary, report: &mut [u8])
    requires { 48 ≤ length report.old }
    ensures { report.new ≡ over (reports.summary_bytes m) report.old }
{
    super::reports::write_six(
        report,
        [
            m.rate as u64,
            m.periods as u64,
            m.samples as u64,
            m.marks as u64,
            m.order as u64,
            m.entries as u64,
        ],
    );
}

// 13 for the buffers, the state and the summary of a call that its check passed; they are filled
// otherwise.
pub(super) fn plan_handed(
    voice: &[u8],
    sheet: &[u8],
    settings: Settings,
    fit: Fit,
    index: &mut [u8],
    marks: &mut [u8],
    sizes: &mut [u8],
    rows: &mut [u8],
    excitation: &mut [u8],
    decoded: &mut [u8],
    state: &mut [u8],
    summary: &mut [u8],
) -> u32
    requires { Passes voice.now sheet.now settings fit }
    ensures value { result ≡ answer_of
        (plans.refusal_of_plan voice.now sheet.now settings
        (plans.handed index.old marks.old sizes.old rows.old
        excitation.old decoded.old state.old summary.old)) }
    ensures summary_after { plans.handed index.new marks.new sizes.new rows.new
        excitation.new decoded.new state.new summary.new ≡
        plans.handed_after voice.now sheet.now settings
        (plans.handed index.old marks.old sizes.old rows.old
        excitation.old decoded.old state.old summary.old) }
{
    if state.len() < 168 {
        return u32::from(Refusal::ShortBuffer);
    }
    if summary.len() < 48 {
        return u32::from(Refusal::ShortBuffer);
    }
    let planned = planning::plan_checked(
        voice, sheet, settings, fit, index, marks, sizes, rows, excitation, decoded,
    );
    let answer = planned.answer;
    let after = planned.state;
    match answer {
        Err(cause) => u32::from(cause),
        Ok(m) => {
            c_state::store(after, state);
            write_summary(m, summary);
            0
        }
    }
}

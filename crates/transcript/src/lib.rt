// The text of a call, as document 01's program prints it: rate, periods and samples, then each period,
// or why the call is refused.
#![tactic(auto)]

ghost use Rattle.std.specs.Prelude.{◌≡◌, ◌+◌, ◌≤◌, length};
ghost use Rattle.lines.specs.Lines.{Puts};
ghost use Rattle.lines.specs.Lines as lines;
ghost use Rattle.call.specs.Buffers.{lent, buffers_after};
ghost use Rattle.call.specs.Pull.{lent_of};
ghost use Rattle.transcript.specs.CallText as text;
ghost use Rattle.transcript.specs.Program.{program_settings, too_long};

use call::{Settings, Summary};
use lpc::FilterState;
use refusal::Refusal;

// The limits of document 01's program: the bytes of its voice file and of its sheet.
pub const VOICE_LIMIT: usize = 32768;

pub const SHEET_LIMIT: usize = 4096;

// Whether one of the two is longer than its limit.
#[tactic(auto, unfolding(crate::specs::Program::too_long))]
pub fn is_too_long(voice: &[u8], sheet: &[u8]) -> bool
    ensures { result ≡ too_long voice.now sheet.now }
{
    voice.len() > VOICE_LIMIT || sheet.len() > SHEET_LIMIT
}

// The settings of document 01's program.
pub fn program_settings() -> Settings
    ensures { result ≡ program_settings }
{
    call::settings_of(call::JOIN_SIMPLE + call::FILTER_FIXED)
}

// How many samples a pull gave.
fn given(answer: Result<Option<usize>, Refusal>) -> usize
    ensures { result ≡ text.given_by answer }
{
    match answer {
        Ok(Some(n)) => n,
        Ok(None) | Err(_) => 0,
    }
}

// Pulls each period, and puts its line at place `at` on. Each of these pulls gives its period.
fn put_periods(
    state: FilterState,
    sizes: &[u8],
    rows: &[u8],
    excitation: &[u8],
    out: &mut [u8],
    at: usize,
) -> usize
    requires fresh { text.Fresh state (lent_of sizes.now rows.now excitation.now) }
    requires sizes_len_bound { (length sizes.now ≤ 4096) × ((length excitation.now ≤ 4096) × (at + 40960 ≤ length out.old)) }
    ensures puts { Puts out.old at (lines.periods
        (text.periods_for state (lent_of sizes.now rows.now excitation.now)))
        out.new result }
    ensures upper_bound { result ≤ at + 40960 }
{
    let mut samples = [0u8; 8192];
    let mut before = state;
    let mut end = at;
    for i in 0..sizes.len() / 4 {
        let pulled = diphone::pull(before, sizes, rows, excitation, &mut samples);
        let m = 2 * given(pulled.answer);
        end = lines::put_period(i as u32 + 1, &samples[..m], out, end);
        before = pulled.state;
    }
    end
}

// The text of a call that is not refused. Lent are the buffers that it filled.
fn put_spoken(
    m: Summary,
    state: FilterState,
    sizes: &[u8],
    rows: &[u8],
    excitation: &[u8],
    out: &mut [u8],
) -> usize
    requires spoke { text.Spoke m state sizes.now rows.now excitation.now }
    requires in_bounds { 41000 ≤ length out.old }
    ensures puts { Puts out.old 0 (text.spoken_by m state sizes.now rows.now
        excitation.now) out.new result }
    ensures upper_bound { result ≤ 41000 }
{
    let at = lines::put_summary(m.rate as u32, m.periods as u32, m.samples as u32, out);
    let a = 4 * m.periods;
    let b = 2 * (m.periods * m.order);
    let c = m.samples;
    put_periods(state, &sizes[..a], &rows[..b], &excitation[..c], out, at)
}

// Makes the call and puts its text to the front of `out`.
pub fn put_call(
    voice: &[u8],
    sheet: &[u8],
    settings: Settings,
    index: &mut [u8],
    marks: &mut [u8],
    sizes: &mut [u8],
    rows: &mut [u8],
    excitation: &mut [u8],
    decoded: &mut [u8],
    out: &mut [u8],
) -> usize
    requires { (length sizes.old ≤ 4096) × ((length excitation.old ≤ 4096) × (41000 ≤ length out.old)) }
    ensures puts { Puts out.old 0
        (text.call_text voice.now sheet.now settings
        (lent index.old marks.old sizes.old rows.old
        excitation.old decoded.old))
        out.new result }
    ensures upper_bound { result ≤ 41000 }
    ensures decoded_after { lent index.new marks.new sizes.new rows.new excitation.new
        decoded.new ≡
        buffers_after voice.now sheet.now settings
        (lent index.old marks.old sizes.old rows.old
        excitation.old decoded.old) }
{
    let planned = diphone::plan(
        voice, sheet, settings, index, marks, sizes, rows, excitation, decoded,
    );
    match planned.answer {
        Ok(m) => put_spoken(m, planned.state, sizes, rows, excitation, out),
        Err(cause) => lines::put_refused(u32::from(cause), out),
    }
}

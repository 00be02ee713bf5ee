// The second program: makes the call of the first, speak, with the same files, settings and lengths of
// buffers, and prints a line for each period, or why the call is refused.
#![tactic(auto)]

ghost use Rattle.std.specs.Prelude.{◌≡◌, ◌≤◌, length, None};
ghost use Rattle.io.specs.Counts.{IsPrefixLen};
ghost use Rattle.voice.specs.Voice.{voice_of};
ghost use Rattle.sheet.specs.Sheet.{sheet_of};
ghost use Rattle.call.specs.Buffers.{call_refusal, planned_of};
ghost use Rattle.lines.specs.Lines.{Puts};
ghost use Rattle.transcript.specs.Program.{program_settings, program_buffers};
ghost use Rattle.reporting.specs.Report.{report_of};
ghost use Rattle.report.specs.ReportText.{lines_text, text_of};
ghost use Rattle.report.specs.Packed.{lines_in, Printable};

use call::Summary;
use refusal::Refusal;
use std::io;

// What the first program's call answers.
fn called(voice: &[u8], sheet: &[u8]) -> Result<Summary, Refusal>
    ensures { result ≡ (planned_of voice.now sheet.now program_settings program_buffers).answer }
{
    let mut index = [0u8; 8192];
    let mut marks = [0u8; 4096];
    let mut sizes = [0u8; 4096];
    let mut rows = [0u8; 2048];
    let mut excitation = [255u8; 4096];
    let mut decoded = [0u8; 1024];
    let planned = diphone::plan(
        voice,
        sheet,
        transcript::program_settings(),
        &mut index,
        &mut marks,
        &mut sizes,
        &mut rows,
        &mut excitation,
        &mut decoded,
    );
    planned.answer
}

// Puts the lines of a report, 16 bytes each, to the front of `out`, numbered from 1 on.
fn put_lines(report: &[u8], out: &mut [u8]) -> usize
    requires { Printable report.now × (30720 ≤ length out.old) }
    ensures puts { Puts out.old 0 (lines_text 1 (lines_in report.now)) out.new result }
    ensures upper_bound { result ≤ 30720 }
{
    let mut end = 0;
    for i in 0..report.len() / 16 {
        let at = 4 * i;
        let pair = base::bytes::u32_at(report, at);
        let half = base::bytes::u32_at(report, at + 1);
        let first = base::bytes::u32_at(report, at + 2);
        let size = base::bytes::u32_at(report, at + 3);
        end = lines::put_report_line(i as u32 + 1, pair, half, first, size, out, end);
    }
    end
}

// The report of a call that is not refused, put to the front of `out`.
fn put_report(voice: &[u8], sheet: &[u8], out: &mut [u8]) -> usize
    requires { (call_refusal voice.now sheet.now program_settings program_buffers ≡ None) × (30720 ≤ length out.old) }
    ensures puts { Puts out.old 0
        (lines_text 1 (report_of (voice_of voice.now) (sheet_of sheet.now) program_settings))
        out.new result }
    ensures upper_bound { result ≤ 30720 }
{
    let mut report = [0u8; 16384];
    let settings = transcript::program_settings();
    let Ok(count) = reporting::report(voice, sheet, settings, &mut report) else {
        return 0;
    };
    let n = 16 * count;
    put_lines(&report[..n], out)
}

// The program's text for a voice file and a sheet, put to the front of `out`.
fn put_text(voice: &[u8], sheet: &[u8], out: &mut [u8]) -> usize
    requires { 30720 ≤ length out.old }
    ensures puts { Puts out.old 0 (text_of voice.now sheet.now) out.new result }
    ensures prefix_len { IsPrefixLen result out.new }
{
    if transcript::is_too_long(voice, sheet) {
        return lines::put_refused(u32::from(Refusal::ShortBuffer), out);
    }
    match called(voice, sheet) {
        Ok(_) => put_report(voice, sheet, out),
        Err(cause) => lines::put_refused(u32::from(cause), out),
    }
}

// A file is read one byte past its limit, so that a longer one is seen.
fn main(rt: HostRuntime) -> io::Result<()> {
    let mut voice = [0u8; 32769];
    let mut sheet = [0u8; 4097];
    let mut out = [0u8; 65536];
    let v = files::read_file(&rt, "voice.flv", &mut voice);
    let s = files::read_file(&rt, "call.sht", &mut sheet);
    let n = put_text(&voice[..v], &sheet[..s], &mut out);
    rt.write_all(&out[..n])
}

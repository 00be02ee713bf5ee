// Document 01's program: speaks the sheet call.sht with the voice voice.flv, by the simple join, the
// fixed filter and no fold, and prints rate, periods and samples, or why it is refused.
#![tactic(auto)]

ghost use Rattle.std.specs.Prelude.{◌≤◌, length};
ghost use Rattle.io.specs.Counts.{IsPrefixLen};
ghost use Rattle.lines.specs.Lines.{Puts};
ghost use Rattle.speak.specs.Speaking as speaks;

use refusal::Refusal;
use std::io;

// The program's text for a voice file and a sheet, put to the front of `out`.
fn put_text(voice: &[u8], sheet: &[u8], out: &mut [u8]) -> usize
    requires { 41000 ≤ length out.old }
    ensures puts { Puts out.old 0 (speaks.text_of voice.now sheet.now) out.new result }
    ensures prefix_len { IsPrefixLen result out.new }
{
    if transcript::is_too_long(voice, sheet) {
        return lines::put_refused(u32::from(Refusal::ShortBuffer), out);
    }
    let mut index = [0u8; 8192];
    let mut marks = [0u8; 4096];
    let mut sizes = [0u8; 4096];
    let mut rows = [0u8; 2048];
    let mut excitation = [255u8; 4096];
    let mut decoded = [0u8; 1024];
    transcript::put_call(
        voice,
        sheet,
        transcript::program_settings(),
        &mut index,
        &mut marks,
        &mut sizes,
        &mut rows,
        &mut excitation,
        &mut decoded,
        out,
    )
}

// A file is read one byte past its limit, so that a longer one is seen.
fn main(rt: HostRuntime) -> io::Result<()> {
    let mut voice = [0u8; 32769];
    let mut sheet = [0u8; 4097];
    let mut out = [0u8; 65536];
    let v = files::read_file(&rt, "voice.flv", &mut voice);
    let s = files::read_file(&rt, "call.sht", &mut sheet);
    let n = put_text(&voice[..v], &sheet[..s], &mut out);
    rt.write_all(&out[..n])
}

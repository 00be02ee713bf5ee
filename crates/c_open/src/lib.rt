// Opening a voice file from C: numbers and byte slices alone. `report` is the C header's `record`,
// which is a word of the logic.
#![tactic(auto)]

ghost use Rattle.std.specs.Prelude.{◌≡◌, ◌≤◌, length, Some};
ghost use Rattle.base.specs.Lists.{or_next};
ghost use Rattle.base.specs.Buffers.{over};
ghost use Rattle.refusal.specs.Number.{answer_of};
ghost use Rattle.voice.specs.Opening.{IsOpen, opening_refusal};
ghost use Rattle.c_open.specs.Open as opens;

use refusal::Refusal;
use voice::DiphoneVoice;

// Fills the front of a voice record: the header's 40 bytes, the number of entries, the decode buffer's room.
fn write_record(voice: &[u8], d: DiphoneVoice, report: &mut [u8])
    requires { IsOpen voice.now d × (56 ≤ length report.old) }
    ensures { report.new ≡ over (opens.record_of voice.now) report.old }
{
    let header = voice::sections::header_bytes(voice);
    base::bytes::copy(&header[..40], report);
    base::bytes::write_u64(report, 40, d.count as u64);
    base::bytes::write_u64(report, 48, voice::periods::decode_room(voice, d) as u64);
}

// The number where the record is too short: 1 to 7 for the voice file, else 13.
fn short_record(voice: &[u8]) -> u32
    ensures { result ≡ answer_of (or_next (opening_refusal voice.now) (Some Refusal.ShortBuffer)) }
{
    match opening::check(voice) {
        Ok(opened) => u32::from(Refusal::ShortBuffer),
        Err(cause) => u32::from(cause),
    }
}

// Opens a voice file: 0, or the number of the refusal.
pub fn open_in_c(voice: &[u8], index: &mut [u8], report: &mut [u8]) -> u32
    ensures { (result ≡ answer_of
        (opens.refusal_of_open voice.now (length index.old) (length report.old))) ×
        ((index.new ≡ opens.index_left voice.now index.old
        (length report.old)) ×
        (report.new ≡
        opens.record_left voice.now (length index.old) report.old)) }
{
    if report.len() < 56 {
        return short_record(voice);
    }
    match opening::open(voice, index) {
        Ok(d) => {
            write_record(voice, d, report);
            0
        }
        Err(cause) => u32::from(cause),
    }
}

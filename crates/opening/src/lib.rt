// Opening a voice file.
#![tactic(auto)]

ghost use Rattle.std.specs.Prelude.{◌≡◌, true, length};
ghost use Rattle.base.specs.Lists.{first_failing};
ghost use Rattle.base.specs.Buffers.{over};
ghost use Rattle.refusal.specs.Number.{answer_of};
ghost use Rattle.voice.specs.Voice.{places_of, voice_of};
ghost use Rattle.voice.specs.Opening as openings;

use refusal::Refusal;
use voice::DiphoneVoice;

// Whether the index is fit: not cut short, not empty, each name UTF-8 and none twice, no entry past
// the frames.
fn has_good_index(file: &[u8], d: DiphoneVoice) -> bool
    requires { d ≡ places_of file.now }
    ensures { result ≡ openings.good_index file.now }
{
    let section = container::span_of(container::find(file, b"dip.index"));
    if section.len < 4 {
        return false;
    }
    let entries = voice::sections::bytes_at(file, d.entries);
    let count = d.count;
    if !index::has_whole_entries(entries, count) {
        return false;
    }
    if count == 0 {
        return false;
    }
    if !distinct::has_distinct_names(entries, count) {
        return false;
    }
    index::ends_within(entries, count, d.header.frames as usize)
}

// Checks 5 to 7, and where the tables stand.
fn check_tables(file: &[u8]) -> Result<DiphoneVoice, Refusal>
    ensures { result ≡ openings.answer_opening (places_of file.now)
        (first_failing (openings.table_checks file.now)) }
{
    if !voice::header::is_good(voice::sections::header_bytes(file)) {
        return Err(Refusal::BadHeader);
    }
    let d = voice::sections::places_of(file);
    if !voice::tables::is_good(file, d) {
        return Err(Refusal::BadTables);
    }
    if !has_good_index(file, d) {
        return Err(Refusal::BadIndex);
    }
    Ok(d)
}

// Checks 1 to 7, and where the tables stand.
pub fn check(file: &[u8]) -> Result<DiphoneVoice, Refusal>
    ensures { result ≡ openings.answer_opening (places_of file.now) (openings.opening_refusal file.now) }
{
    if !container::has_magic(file) {
        return Err(Refusal::BadMagic);
    }
    if !container::has_whole_sections(file) {
        return Err(Refusal::SectionCut);
    }
    if !container::is_diphone(file) {
        return Err(Refusal::NotDiphone);
    }
    if !voice::sections::has_needed(file) {
        return Err(Refusal::MissingSection);
    }
    check_tables(file)
}

// Fills the sorted index of a voice that opens: file offsets of 8 bytes each.
pub fn fill_index(file: &[u8], d: DiphoneVoice, index: &mut [u8])
    requires { openings.IsOpen file.now d ×
        (openings.index_fits (voice_of file.now) (length index.old) ≡ true) }
    ensures { index.new ≡ over (openings.index_bytes (voice_of file.now)) index.old }
{
    let entries = voice::sections::bytes_at(file, d.entries);
    index::fill_index(entries, d.count, d.entries.at, index);
}

// 13 for the sorted index, which is filled otherwise.
fn open_index(file: &[u8], d: DiphoneVoice, index: &mut [u8]) -> Result<DiphoneVoice, Refusal>
    requires { openings.IsOpen file.now d }
    ensures { (result ≡ openings.open_of file.now (length index.old)) ×
        (index.new ≡ openings.index_after file.now index.old) }
{
    if index.len() / 8 < d.count {
        return Err(Refusal::ShortBuffer);
    }
    fill_index(file, d, index);
    Ok(d)
}

// Opens a voice file: checks 1 to 7, then 13; fills the sorted index.
pub fn open(file: &[u8], index: &mut [u8]) -> Result<DiphoneVoice, Refusal>
    ensures { (result ≡ openings.open_of file.now (length index.old)) ×
        (index.new ≡ openings.index_after file.now index.old) ×
        (openings.open_number result ≡ answer_of (openings.open_refusal file.now (length index.old))) }
{
    let d = check(file)?;
    open_index(file, d, index)
}

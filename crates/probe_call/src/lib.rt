// Units and pitch marks, exported so that the comparison with the Rust can read them. A refusal is
// answered by its number, anything else by 16 times a count.
#![tactic(auto)]

mod periods;
mod windows;

ghost use Rattle.std.specs.Prelude.{◌≡◌, ◌+◌, ◌*◌, ◌<◌, ◌≤◌, length, Ok};
ghost use Rattle.sheet.specs.Places.{sheet_places, answer_in};
ghost use Rattle.voice.specs.Opening.{IsOpen};
ghost use Rattle.units.specs.Asked.{Searchable};
ghost use Rattle.units.specs.Units.{Inside};
ghost use Rattle.probe_call.specs.Natural.{Goes};

use refusal::Refusal;
use sheet::Places;
use units::{Held, Selection, Unit};
use voice::DiphoneVoice;

fn store_pitch_marks(sheet: &[u8], places: Places, rate: u32, marks: &mut [u8]) -> u32
    requires { answer_in (sheet_places sheet.now) ≡ Ok places }
{
    match marks::check_marks(sheet, places, rate, 16777215) {
        Err(cause) => u32::from(cause),
        Ok(counts) => {
            let count = counts.marks;
            if marks.len() / 4 < count {
                return u32::from(Refusal::ShortBuffer);
            }
            marks::store_marks(sheet, places, rate, count, marks);
            16 * (count as u32)
        }
    }
}

// The pitch marks of a sheet at a rate, four bytes each.
#[unsafe(no_mangle)]
pub extern "C" fn probe_pitch_marks(sheet: &[u8], rate: u32, marks: &mut [u8]) -> u32 {
    match sheet::read_sheet(sheet) {
        Ok(places) => store_pitch_marks(sheet, places, rate, marks),
        Err(cause) => u32::from(cause),
    }
}

// Stores unit n: its first period, the period after its last, and its target end, 8 bytes each.
fn put_unit(out: &mut [u8], n: usize, unit: Unit)
    requires { 24 * n + 24 ≤ length out.old }
    ensures { length out.new ≡ length out.old }
{
    base::bytes::put_u64(out, 3 * n, unit.first_period as u64);
    base::bytes::put_u64(out, 3 * n + 1, unit.last_period as u64);
    base::bytes::put_u64(out, 3 * n + 2, unit.target_end as u64);
}

fn store_units(file: &[u8], index: &[u8], sheet: &[u8], by: Selection, out: &mut [u8]) -> usize
    requires { Searchable file.now index.now by ×
        (answer_in (sheet_places sheet.now) ≡ Ok by.places) }
{
    let places = by.places;
    let segments = places.segments;
    if segments.count == 0 {
        return 0;
    }
    let sampled = units::followers::sample(sheet, places);
    let mut walk = units::step::first_unit(sheet, places);
    let mut n = 0;
    while units::step::has_unit(walk) {
        if out.len() / 24 <= n {
            return 13;
        }
        let step = units::step::next_unit(file, index, sheet, by, &sampled, walk);
        put_unit(out, n, step.unit);
        walk = step.walk;
        n += 1;
    }
    16 * n
}

// By entries in file order: the way that needs no index.
fn units_of(
    file: &[u8],
    d: DiphoneVoice,
    sheet: &[u8],
    places: Places,
    fold: bool,
    out: &mut [u8],
) -> usize
    requires { IsOpen file.now d × (answer_in (sheet_places sheet.now) ≡ Ok places) }
{
    let by = Selection {
        voice: d,
        held: Held::Nothing,
        places,
        fold,
    };
    let none = [0u8; 1];
    store_units(file, &none, sheet, by, out)
}

// The units of a sheet on a voice; 0 where there is a refusal.
#[unsafe(no_mangle)]
pub extern "C" fn probe_units(file: &[u8], sheet: &[u8], fold: u32, out: &mut [u8]) -> usize {
    let Ok(d) = opening::check(file) else {
        return 0;
    };
    let Ok(places) = sheet::read_sheet(sheet) else {
        return 0;
    };
    units_of(file, d, sheet, places, fold != 0, out)
}

// The natural marks of one unit, stored after those of the units before it; `left` of 65,536 marks
// are still allowed.
fn store_natural(
    file: &[u8],
    d: DiphoneVoice,
    unit: Unit,
    place: usize,
    left: usize,
    marks: &mut [u8],
) -> Result<(usize, usize), Refusal>
    requires { IsOpen file.now d × (Inside d.header.frames unit × ((place ≤ 16777215) × (left ≤ 65536))) }
    ensures { (length marks.new ≡ length marks.old) × Goes left result }
{
    let first = unit.first_period;
    let last = unit.last_period;
    let (end, after) = marks::natural::check_unit_marks(file, d, place, first, last, left)?;
    let index = 65536 - left;
    if marks.len() / 4 < index + (last - first) {
        return Err(Refusal::ShortBuffer);
    }
    marks::natural::store_unit_marks(file, d, place, first, last, index, marks);
    Ok((end, after))
}

fn store_natural_marks(file: &[u8], sheet: &[u8], by: Selection, marks: &mut [u8]) -> u32
    requires { (IsOpen file.now by.voice × (by.held ≡ Held.Nothing)) ×
        (answer_in (sheet_places sheet.now) ≡ Ok by.places) }
{
    let places = by.places;
    let segments = places.segments;
    if segments.count == 0 {
        return 0;
    }
    let none = [0u8; 1];
    let sampled = units::followers::sample(sheet, places);
    let mut walk = units::step::first_unit(sheet, places);
    let mut place = 0;
    let mut left = 65536;
    while units::step::has_unit(walk) {
        let step = units::step::next_unit(file, &none, sheet, by, &sampled, walk);
        match store_natural(file, by.voice, step.unit, place, left, marks) {
            Err(cause) => return u32::from(cause),
            Ok((end, after)) => {
                place = end;
                left = after;
            }
        }
        walk = step.walk;
    }
    16 * ((65536 - left) as u32)
}

// The marks of the simple join, four bytes each; 0 where the voice or the sheet is refused.
#[unsafe(no_mangle)]
pub extern "C" fn probe_natural_marks(
    file: &[u8],
    sheet: &[u8],
    fold: u32,
    marks: &mut [u8],
) -> u32 {
    let Ok(voice) = opening::check(file) else {
        return 0;
    };
    let Ok(places) = sheet::read_sheet(sheet) else {
        return 0;
    };
    let by = Selection {
        voice,
        held: Held::Nothing,
        places,
        fold: fold != 0,
    };
    store_natural_marks(file, sheet, by, marks)
}

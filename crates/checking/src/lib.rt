// The check of a call, which writes nothing.
#![tactic(auto)]

ghost use Rattle.std.specs.Prelude.{◌≡◌, Bool, ◌≤◌, ◌<◌, length, None, Ok, Some};
ghost use Rattle.base.specs.Choice.{pick};
ghost use Rattle.voice.specs.Voice.{Voice, voice_of};
ghost use Rattle.voice.specs.Opening.{IsOpen};
ghost use Rattle.sheet.specs.Sheet.{sheet_of};
ghost use Rattle.sheet.specs.Places.{answer_in, sheet_places};
ghost use Rattle.units.specs.Asked.{Holds, Searchable};
ghost use Rattle.units.specs.Selecting.{folded};
ghost use Rattle.units.specs.Units.{units_of};
ghost use Rattle.marks.specs.PitchMarks.{most_marks};
ghost use Rattle.call.specs.Call.{simple_plan, modified_plan, empty_plan, plan_by, plan_of, missing_refusal};
ghost use Rattle.checking.specs.Joining.{Asks, Joins, need_by};
ghost use Rattle.checking.specs.Checks.{checked_of};

use call::{JoinType, Need, Settings};
use marks::Counts;
use refusal::Refusal;
use sheet::Places;
use units::{Held, Selection};
use voice::DiphoneVoice;

// A call that nothing refuses but, perhaps, its buffers: the open voice, where the sheet has its
// lists, and what the buffers need.
#[derive(Clone, Copy)]
pub struct Fit {
    pub voice: DiphoneVoice,
    pub places: Places,
    pub need: Need,
}

// Makes the marks of the simple join, unit by unit.
fn check_natural(file: &[u8], index: &[u8], sheet: &[u8], by: Selection) -> Result<Counts, Refusal>
    requires { Searchable file.now index.now by ×
        ((answer_in (sheet_places sheet.now) ≡ Ok by.places) × (0 < by.places.segments.count)) }
    ensures { Joins
        (simple_plan (voice_of file.now)
        (units_of (voice_of file.now) (folded by.fold (sheet_of sheet.now).segments)))
        result }
{
    let sampled = units::followers::sample(sheet, by.places);
    let mut walk = units::step::first_unit(sheet, by.places);
    let mut place = 0;
    let mut left = marks::MOST_MARKS;
    while units::step::has_unit(walk) {
        let step = units::step::next_unit(file, index, sheet, by, &sampled, walk);
        let unit = step.unit;
        let (end, after) = marks::natural::check_unit_marks(
            file,
            by.voice,
            place,
            unit.first_period,
            unit.last_period,
            left,
        )?;
        place = end;
        left = after;
        walk = step.walk;
    }
    let count = marks::MOST_MARKS - left;
    Ok(Counts {
        marks: count,
        taken: count,
        last: place,
    })
}

// Makes the target ends of the modified join, then its pitch marks, at a voice's rate.
fn check_modified(sheet: &[u8], places: Places, rate: u32) -> Result<Counts, Refusal>
    requires { answer_in (sheet_places sheet.now) ≡ Ok places }
    ensures { (v : Voice) (fold : Bool) →
        v.header.rate ≡ rate →
        Joins
        (modified_plan v (units_of v (folded fold (sheet_of sheet.now).segments))
        (sheet_of sheet.now).targets)
        result }
{
    let end = units::walk::check_ends(sheet, places, rate)?;
    marks::check_marks(sheet, places, rate, end)
}

// No mark is made.
fn no_marks() -> Result<Counts, Refusal>
    ensures { Joins empty_plan result }
{
    Ok(Counts {
        marks: 0,
        taken: 0,
        last: 0,
    })
}

// The marks of two segments or more.
fn check_join(
    file: &[u8],
    index: &[u8],
    sheet: &[u8],
    by: Selection,
    join: JoinType,
) -> Result<Counts, Refusal>
    requires { Searchable file.now index.now by ×
        ((answer_in (sheet_places sheet.now) ≡ Ok by.places) × (0 < by.places.segments.count)) }
    ensures { Joins
        (plan_by join (voice_of file.now)
        (folded by.fold (sheet_of sheet.now).segments) (sheet_of sheet.now).targets)
        result }
{
    match join {
        JoinType::None => no_marks(),
        JoinType::Simple => check_natural(file, index, sheet, by),
        JoinType::ModifiedLpc => check_modified(sheet, by.places, by.voice.header.rate),
    }
}

// The marks of a call: none where it has fewer than two segments.
fn check_plan(
    file: &[u8],
    index: &[u8],
    sheet: &[u8],
    by: Selection,
    settings: Settings,
) -> Result<Counts, Refusal>
    requires { Asks file.now index.now sheet.now by settings }
    ensures { Joins (plan_of (voice_of file.now) (sheet_of sheet.now) settings) result }
{
    if by.places.segments.count < 2 {
        return no_marks();
    }
    check_join(file, index, sheet, by, settings.join)
}

// Whether no pair is missed: the call is not strict, or each pair finds a name that it tries.
fn check_pairs(file: &[u8], index: &[u8], sheet: &[u8], by: Selection, settings: Settings) -> bool
    requires { Asks file.now index.now sheet.now by settings }
    ensures { missing_refusal (voice_of file.now) (sheet_of sheet.now) settings ≡
        pick result None (Some Refusal.MissingPair) }
{
    !settings.strict || pairs::all_found(file, index, sheet, by)
}

// What the buffers of a call with such marks need: fewer than two marks give no period.
fn need_of(file: &[u8], d: DiphoneVoice, counts: Counts) -> Need
    requires { IsOpen file.now d × (counts.taken ≤ most_marks) }
    ensures { result ≡ need_by (voice_of file.now) counts }
{
    let (periods, excitation) = if counts.marks < 2 {
        (0, 0)
    } else {
        (counts.taken, counts.last)
    };
    Need {
        entries: d.count,
        marks: counts.marks,
        periods,
        rows: (d.header.order as usize) * periods,
        excitation,
        decoded: voice::periods::decode_room(file, d),
    }
}

// Checks 16, then 10 to 12, of an open voice and a sheet that was read.
fn check_held(
    file: &[u8],
    index: &[u8],
    sheet: &[u8],
    by: Selection,
    settings: Settings,
) -> Result<Fit, Refusal>
    requires { Asks file.now index.now sheet.now by settings }
    ensures { result ≡ checked_of file.now sheet.now settings }
{
    if !check_pairs(file, index, sheet, by, settings) {
        return Err(Refusal::MissingPair);
    }
    let counts = check_plan(file, index, sheet, by, settings)?;
    Ok(Fit {
        voice: by.voice,
        places: by.places,
        need: need_of(file, by.voice, counts),
    })
}

// Whether the check looks names up: for the units of the simple join, and in a strict call.
fn looks_up(settings: Settings) -> bool {
    settings.strict || matches!(settings.join, JoinType::Simple)
}

// Fills a lent index buffer where names are looked up, since the call's own is not filled yet. Says
// what it holds then.
fn hold_for(
    file: &[u8],
    d: DiphoneVoice,
    places: Places,
    settings: Settings,
    index: &mut [u8],
) -> Held
    requires { IsOpen file.now d × (8 ≤ length index.old) }
    ensures { Holds file.now index.new d result }
{
    if places.segments.count < 2 || !looks_up(settings) {
        return Held::Nothing;
    }
    units::holding::hold(file, d, index)
}

// Checks 16, then 10 to 12, with room for names that are looked up in a lent buffer.
fn check_marks(
    file: &[u8],
    d: DiphoneVoice,
    sheet: &[u8],
    places: Places,
    settings: Settings,
    index: &mut [u8],
) -> Result<Fit, Refusal>
    requires { IsOpen file.now d ×
        ((answer_in (sheet_places sheet.now) ≡ Ok places) × (8 ≤ length index.old)) }
    ensures { result ≡ checked_of file.now sheet.now settings }
{
    let held = hold_for(file, d, places, settings, index);
    let by = Selection {
        voice: d,
        held,
        places,
        fold: settings.fold,
    };
    check_held(file, index, sheet, by, settings)
}

// Checks 8 to 12, 16 and 17, of an open voice.
fn check_sheet(
    file: &[u8],
    d: DiphoneVoice,
    sheet: &[u8],
    settings: Settings,
    index: &mut [u8],
) -> Result<Fit, Refusal>
    requires { IsOpen file.now d × (8 ≤ length index.old) }
    ensures { result ≡ checked_of file.now sheet.now settings }
{
    let places = sheet::read_sheet(sheet)?;
    check_marks(file, d, sheet, places, settings, index)
}

// Checks 1 to 12, 16 and 17, of any two files, with room for names that are looked up in a lent buffer.
#[tactic(auto, using(crate::proofs::CheckLaws::checked_by))]
pub fn check_in(
    file: &[u8],
    sheet: &[u8],
    settings: Settings,
    index: &mut [u8],
) -> Result<Fit, Refusal>
    requires { 8 ≤ length index.old }
    ensures { result ≡ checked_of file.now sheet.now settings }
{
    let d = opening::check(file)?;
    check_sheet(file, d, sheet, settings, index)
}

// Room for 4,096 places.
pub fn blank_index() -> [u8; 32768]
    ensures { length result ≡ 32768 }
{
    [0; 32768]
}

// The check with an index buffer of its own.
fn check_indexed(file: &[u8], sheet: &[u8], settings: Settings) -> Result<Fit, Refusal>
    ensures { result ≡ checked_of file.now sheet.now settings }
{
    let mut index = blank_index();
    check_in(file, sheet, settings, &mut index)
}

// The check with the least of room: where it looks up no name.
fn check_bare(file: &[u8], sheet: &[u8], settings: Settings) -> Result<Fit, Refusal>
    ensures { result ≡ checked_of file.now sheet.now settings }
{
    let mut index = [0u8; 8];
    check_in(file, sheet, settings, &mut index)
}

// Checks 1 to 12, 16 and 17, of any two files.
pub fn check(file: &[u8], sheet: &[u8], settings: Settings) -> Result<Fit, Refusal>
    ensures { result ≡ checked_of file.now sheet.now settings }
{
    if looks_up(settings) {
        return check_indexed(file, sheet, settings);
    }
    check_bare(file, sheet, settings)
}

// Fills the buffers of a call that was checked. A `requires` here is what the caller has tested.
#![tactic(auto)]

ghost use Rattle.std.specs.Prelude.{◌≡◌, ◌≤◌, length, take};
ghost use Rattle.base.specs.Buffers.{over, flat};
ghost use Rattle.base.specs.Bytes.{bytes_of};
ghost use Rattle.voice.specs.Voice.{voice_of};
ghost use Rattle.voice.specs.Opening.{IsOpen};
ghost use Rattle.sheet.specs.Sheet.{sheet_of};
ghost use Rattle.units.specs.Units.{Inside};
ghost use Rattle.call.specs.declared.JoinType.TheVariants as joins;
ghost use Rattle.call.specs.Call.{is_simple};
ghost use Rattle.call.specs.Buffers.{lent, filled, over_all};
ghost use Rattle.filling.specs.Filling.{planned, CanStoreMarks, CanMark, join_unit, lent_periods, fill_periods, units_take};
ghost use Rattle.filling.specs.Filling.{CanTakeUnits, join_takes, CanTakePeriods, CanJoin, CanFill};

use call::{JoinType, Need, Settings};
use sheet::Places;
use taking::Progress;
use units::{Held, Selection, Unit};
use voice::DiphoneVoice;

// Stores the marks of the simple join, four bytes each, at the front of a buffer.
fn store_natural_marks(file: &[u8], index: &[u8], sheet: &[u8], by: Selection, marks: &mut [u8])
    requires { CanMark joins.Simple file.now index.now sheet.now by (length marks.old) }
    ensures { marks.new ≡
        over (flat (bytes_of 4) (planned joins.Simple file.now sheet.now by).marks)
        marks.old }
{
    let sampled = units::followers::sample(sheet, by.places);
    let mut walk = units::step::first_unit(sheet, by.places);
    let mut place = 0;
    let mut i = 0;
    while units::step::has_unit(walk) {
        let step = units::step::next_unit(file, index, sheet, by, &sampled, walk);
        let unit = step.unit;
        let first = unit.first_period;
        let last = unit.last_period;
        place = marks::natural::store_unit_marks(file, by.voice, place, first, last, i, marks);
        i += last - first;
        walk = step.walk;
    }
}

// Stores the first `count` marks of a join, four bytes each, at the front of a buffer.
pub fn store_marks(
    join: JoinType,
    file: &[u8],
    index: &[u8],
    sheet: &[u8],
    by: Selection,
    count: usize,
    marks: &mut [u8],
)
    requires { CanStoreMarks join file.now index.now sheet.now by count (length marks.old) }
    ensures { marks.new ≡
        over (flat (bytes_of 4) (take count (planned join file.now sheet.now by).marks))
        marks.old }
{
    match join {
        JoinType::None => {}
        JoinType::Simple => store_natural_marks(file, index, sheet, by, marks),
        JoinType::ModifiedLpc => {
            marks::store_marks(sheet, by.places, by.voice.header.rate, count, marks)
        }
    }
}

// The unit with its target end in a join: in the simple one it is where the unit naturally ends.
pub fn join_unit(file: &[u8], d: DiphoneVoice, unit: Unit, natural: bool, end_before: usize) -> Unit
    requires { IsOpen file.now d × (Inside d.header.frames unit × (end_before ≤ 16777215)) }
    ensures { result ≡ join_unit natural (voice_of file.now) end_before unit }
{
    if natural {
        let samples = excitation::samples_from(file, d, unit.first_period, unit.last_period);
        return unit.ending_at(end_before + samples);
    }
    unit
}

// Takes the periods of all units, by stored marks of four bytes each; in the simple join by where
// the units naturally end.
fn take_units(
    natural: bool,
    file: &[u8],
    index: &[u8],
    sheet: &[u8],
    by: Selection,
    marks: &[u8],
    sizes: &mut [u8],
    rows: &mut [u8],
    excitation: &mut [u8],
    decoded: &mut [u8],
)
    requires { CanTakeUnits natural file.now index.now sheet.now by marks.now
        (lent_periods sizes.old rows.old excitation.old decoded.old) }
    ensures { lent_periods sizes.new rows.new excitation.new decoded.new ≡
        fill_periods (voice_of file.now) 0 0
        (units_take natural file.now sheet.now by marks.now)
        (lent_periods sizes.old rows.old excitation.old decoded.old) }
{
    let sampled = units::followers::sample(sheet, by.places);
    let mut walk = units::step::first_unit(sheet, by.places);
    let mut end = 0;
    let mut at = Progress {
        taken: 0,
        mark: 0,
        front: by.voice.header.frames as usize,
    };
    while units::step::has_unit(walk) {
        let step = units::step::next_unit(file, index, sheet, by, &sampled, walk);
        let unit = join_unit(file, by.voice, step.unit, natural, end);
        at = taking::take_unit(
            natural, file, by.voice, unit, end, marks, at, sizes, rows, excitation, decoded,
        );
        end = unit.target_end;
        walk = step.walk;
    }
}

// Whether the units of a join end where they naturally do.
pub fn is_simple(join: JoinType) -> bool
    ensures { result ≡ is_simple join }
{
    matches!(join, JoinType::Simple)
}

// Takes the periods of a join, by its `count` stored marks. Fewer than two marks give none.
fn take_periods(
    join: JoinType,
    file: &[u8],
    index: &[u8],
    sheet: &[u8],
    by: Selection,
    count: usize,
    marks: &[u8],
    sizes: &mut [u8],
    rows: &mut [u8],
    excitation: &mut [u8],
    decoded: &mut [u8],
)
    requires { CanTakePeriods join file.now index.now sheet.now by count marks.now
        (lent_periods sizes.old rows.old excitation.old decoded.old) }
    ensures { lent_periods sizes.new rows.new excitation.new decoded.new ≡
        fill_periods (voice_of file.now) 0 0
        (join_takes join file.now sheet.now by)
        (lent_periods sizes.old rows.old excitation.old decoded.old) }
{
    if count < 2 {
        return;
    }
    let natural = is_simple(join);
    let n = 4 * count;
    take_units(
        natural,
        file,
        index,
        sheet,
        by,
        &marks[..n],
        sizes,
        rows,
        excitation,
        decoded,
    )
}

// Fills all buffers but the index, of a sheet with two segments or more.
fn fill_joined(
    join: JoinType,
    file: &[u8],
    index: &[u8],
    sheet: &[u8],
    by: Selection,
    count: usize,
    marks: &mut [u8],
    sizes: &mut [u8],
    rows: &mut [u8],
    excitation: &mut [u8],
    decoded: &mut [u8],
)
    requires { CanJoin join file.now index.now sheet.now by count (length marks.old)
        (lent_periods sizes.old rows.old excitation.old decoded.old) }
    ensures { (marks.new ≡
        over (flat (bytes_of 4) (planned join file.now sheet.now by).marks)
        marks.old) ×
        (lent_periods sizes.new rows.new excitation.new decoded.new ≡
        fill_periods (voice_of file.now) 0 0
        (join_takes join file.now sheet.now by)
        (lent_periods sizes.old rows.old excitation.old decoded.old)) }
{
    store_marks(join, file, index, sheet, by, count, marks);
    take_periods(
        join, file, index, sheet, by, count, marks, sizes, rows, excitation, decoded,
    )
}

// Fills the buffers of a call: the sorted index, the marks, and for the taken periods sizes, rows and
// excitation; the decode buffer is left with what was decoded.
pub fn fill(
    file: &[u8],
    sheet: &[u8],
    settings: Settings,
    voice: DiphoneVoice,
    places: Places,
    need: Need,
    index: &mut [u8],
    marks: &mut [u8],
    sizes: &mut [u8],
    rows: &mut [u8],
    excitation: &mut [u8],
    decoded: &mut [u8],
)
    requires { CanFill file.now sheet.now settings voice places need
        (lent index.old marks.old sizes.old rows.old excitation.old decoded.old) }
    ensures { lent index.new marks.new sizes.new rows.new excitation.new
        decoded.new ≡
        over_all (filled (voice_of file.now) (sheet_of sheet.now) settings)
        (lent index.old marks.old sizes.old rows.old
        excitation.old decoded.old) }
{
    opening::fill_index(file, voice, index);
    if places.segments.count < 2 {
        return;
    }
    let join = settings.join;
    let by = Selection {
        voice,
        held: Held::Sorted,
        places,
        fold: settings.fold,
    };
    fill_joined(
        join, file, index, sheet, by, need.marks, marks, sizes, rows, excitation, decoded,
    )
}

// The period report of a call: for each taken period the pair and the half of the unit that took its
// mark, its first sample and its size.
#![tactic(auto)]

ghost use Rattle.std.specs.Prelude.{◌≡◌, ◌*◌, ◌+◌, ◌≤◌, length, Ok};
ghost use Rattle.std.proofs.lemmas.List.Edits.{sets};
ghost use Rattle.base.specs.Buffers.{over, flat};
ghost use Rattle.voice.specs.Voice.{voice_of};
ghost use Rattle.voice.specs.Opening.{IsOpen};
ghost use Rattle.sheet.specs.Sheet.{sheet_of};
ghost use Rattle.sheet.specs.Places.{answer_in, sheet_places};
ghost use Rattle.checking.specs.Checks.{Passes};
ghost use Rattle.filling.specs.Filling.{CanSelect};
ghost use Rattle.reporting.specs.Report.{line_bytes, report_bytes, reported_of, lines_left};
ghost use Rattle.reporting.specs.Reporting.{marks_ahead, CanReport, Reports, units_report, CanReportUnits, join_report, CanReportJoin};

use call::{JoinType, Settings};
use checking::Fit;
use refusal::Refusal;
use units::{Held, Selection, Unit};

// How far the marks of a call are reported: how many of them, and the last one, 0 before the first.
#[derive(Clone, Copy)]
struct Reached {
    taken: usize,
    mark: usize,
}

// Stores a line as number i: pair, half, first sample and size.
fn put_line(pair: u32, half: u32, first: u32, size: u32, i: usize, lines: &mut [u8])
    requires { 16 * i + 16 ≤ length lines.old }
    ensures { lines.new ≡
        sets lines.old (16 * i) (line_bytes (record { pair = pair; half = half; first = first; size = size })) }
{
    base::bytes::put_u32(lines, 4 * i, pair);
    base::bytes::put_u32(lines, 4 * i + 1, half);
    base::bytes::put_u32(lines, 4 * i + 2, first);
    base::bytes::put_u32(lines, 4 * i + 3, size);
}

// Stores the lines of a unit, one for each mark of its share. The marks stand at the end of the lines,
// four bytes each, and a line is stored over no mark that was not read.
fn report_unit(natural: bool, unit: Unit, count: usize, at: Reached, lines: &mut [u8]) -> Reached
    requires { CanReport unit count at lines.old }
    ensures { Reports natural unit count at result lines.old lines.new }
{
    let from = 12 * count;
    let end = taking::share_end(natural, unit, &lines[from..], at.taken);
    let mut mark = at.mark;
    for i in at.taken..end {
        let next = base::bytes::u32_at(lines, 3 * count + i);
        let first = mark as u32;
        put_line(
            unit.pair as u32,
            unit.half as u32,
            first,
            next - first,
            i,
            lines,
        );
        mark = next as usize;
    }
    Reached { taken: end, mark }
}

// Stores the lines of all units, by the marks at the end of the lines; in the simple join by where the
// units naturally end.
fn report_units(
    natural: bool,
    file: &[u8],
    index: &[u8],
    sheet: &[u8],
    by: Selection,
    count: usize,
    lines: &mut [u8],
)
    requires { CanReportUnits natural file.now index.now sheet.now by count lines.old }
    ensures { lines.new ≡
        sets lines.old 0
        (flat line_bytes
        (units_report natural file.now sheet.now by (marks_ahead count lines.old 0))) }
{
    let places = by.places;
    let voice = by.voice;
    let sampled = units::followers::sample(sheet, places);
    let mut walk = units::step::first_unit(sheet, places);
    let mut end = 0;
    let mut at = Reached { taken: 0, mark: 0 };
    while units::step::has_unit(walk) {
        let step = units::step::next_unit(file, index, sheet, by, &sampled, walk);
        let unit = filling::join_unit(file, voice, step.unit, natural, end);
        at = report_unit(natural, unit, count, at, lines);
        end = unit.target_end;
        walk = step.walk;
    }
}

// The report of a join with `count` lines, over all of `lines`: the marks taken are stored at the end
// first.
fn report_joined(
    join: JoinType,
    file: &[u8],
    index: &[u8],
    sheet: &[u8],
    by: Selection,
    count: usize,
    lines: &mut [u8],
)
    requires { CanSelect file.now index.now sheet.now by ×
        CanReportJoin join file.now sheet.now by count (length lines.old) }
    ensures { lines.new ≡ flat line_bytes (join_report join file.now sheet.now by) }
{
    let from = 12 * count;
    filling::store_marks(join, file, index, sheet, by, count, &mut lines[from..]);
    let natural = filling::is_simple(join);
    report_units(natural, file, index, sheet, by, count, lines)
}

// The same, with names looked up in a lent index buffer.
fn report_found(
    join: JoinType,
    file: &[u8],
    sheet: &[u8],
    by: Selection,
    count: usize,
    index: &mut [u8],
    lines: &mut [u8],
)
    requires { (IsOpen file.now by.voice × (8 ≤ length index.old)) ×
        ((answer_in (sheet_places sheet.now) ≡ Ok by.places) ×
        CanReportJoin join file.now sheet.now by count (length lines.old)) }
    ensures { lines.new ≡ flat line_bytes (join_report join file.now sheet.now by) }
{
    let held = units::holding::hold(file, by.voice, index);
    let found_by = Selection { held, ..by };
    report_joined(join, file, index, sheet, found_by, count, lines)
}

// The lines of a call that its check passed.
fn report_checked(
    file: &[u8],
    sheet: &[u8],
    settings: Settings,
    fit: Fit,
    index: &mut [u8],
    lines: &mut [u8],
)
    requires { Passes file.now sheet.now settings fit ×
        ((16 * fit.need.periods ≤ length lines.old) × (8 ≤ length index.old)) }
    ensures { lines.new ≡
        over (report_bytes (voice_of file.now) (sheet_of sheet.now) settings) lines.old }
{
    let count = fit.need.periods;
    if count == 0 {
        return;
    }
    let by = Selection {
        voice: fit.voice,
        held: Held::Nothing,
        places: fit.places,
        fold: settings.fold,
    };
    let n = 16 * count;
    report_found(
        settings.join,
        file,
        sheet,
        by,
        count,
        index,
        &mut lines[..n],
    )
}

// The report of a call, with a lent index buffer. Answers how many lines it has.
fn report_in(
    voice: &[u8],
    sheet: &[u8],
    settings: Settings,
    index: &mut [u8],
    lines: &mut [u8],
) -> Result<usize, Refusal>
    requires { 8 ≤ length index.old }
    ensures value { result ≡ reported_of voice.now sheet.now settings (length lines.old) }
    ensures lines_after { lines.new ≡ lines_left voice.now sheet.now settings lines.old }
{
    let fit = checking::check_in(voice, sheet, settings, index)?;
    let need = fit.need;
    if lines.len() / 16 < need.periods {
        return Err(Refusal::ShortBuffer);
    }
    report_checked(voice, sheet, settings, fit, index, lines);
    Ok(need.periods)
}

// The report of a call, 16 bytes a line at the front of `lines`: pair, half, first sample and size. Answers
// how many lines there are. A refusal leaves them as they were. The check and the report share one index buffer.
pub fn report(
    voice: &[u8],
    sheet: &[u8],
    settings: Settings,
    lines: &mut [u8],
) -> Result<usize, Refusal>
    ensures value { result ≡ reported_of voice.now sheet.now settings (length lines.old) }
    ensures lines_after { lines.new ≡ lines_left voice.now sheet.now settings lines.old }
{
    let mut index = checking::blank_index();
    report_in(voice, sheet, settings, &mut index, lines)
}

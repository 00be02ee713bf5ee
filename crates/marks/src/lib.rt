// Pitch marks: where each output period ends, in samples.
#![tactic(auto)]

pub mod natural;

ghost use Rattle.std.specs.Prelude.{◌≡◌, ◌+◌, ◌<◌, ◌≤◌, true, false, length, take, Ok};
ghost use Rattle.base.specs.Buffers.{over, flat};
ghost use Rattle.base.specs.Bytes.{bytes_of};
ghost use Rattle.sheet.specs.Sheet as sheets;
ghost use Rattle.sheet.specs.Places.{answer_in, sheet_places};
ghost use Rattle.marks.specs.PitchMarks as pitch;
ghost use Rattle.marks.specs.Walking as walking;
ghost use Rattle.marks.specs.Walking.{contour_of, stage_of, on_way, is_ahead, Reads};
ghost use Rattle.marks.specs.Checking as checking;
ghost use Rattle.marks.specs.Checking.{CanStore};

use refusal::Refusal;
use sheet::{Places, Value};

// How many marks a call has at most.
pub const MOST_MARKS: usize = 65536;

// How many marks there are, how many of them are taken, and the last one taken, 0 where there is none.
#[derive(Clone, Copy)]
pub struct Counts {
    pub marks: usize,
    pub taken: usize,
    pub last: usize,
}

// How many marks there are, how many of them are taken, and the last one taken; the next one may be
// taken while this is `taking`.
#[derive(Clone, Copy)]
struct Tally {
    taking: bool,
    count: usize,
    taken: usize,
    last: usize,
}

// Where the making of pitch marks stands. The pitch goes from `base` at the time `from` by `slope`,
// in Hz per second, to the target at `position`, which counts `f0`; marks are made on the way if
// `climbs`. `left` marks are still allowed; `targets` more targets stand in the sheet from `at` on.
#[derive(Clone, Copy)]
struct Walk {
    rate: f64,
    time: f64,
    from: f64,
    base: f64,
    slope: f64,
    position: f64,
    f0: f64,
    climbs: bool,
    left: usize,
    at: usize,
    targets: usize,
}

// The pitch at the walk's time.
fn f0_at(w: Walk) -> f64
    ensures { result ≡ pitch.f0_at (contour_of w) w.time }
{
    w.base + (w.time - w.from) * w.slope
}

// Whether the time is before the target, and the pitch above 0.
fn goes_on(w: Walk) -> bool
    ensures { result ≡ pitch.goes_on (contour_of w) w.time }
{
    w.time < w.position && 0.0 < f0_at(w)
}

// Whether the next mark is on the way to the target.
fn is_on_way(w: Walk) -> bool
    ensures { result ≡ on_way w }
{
    w.climbs && goes_on(w)
}

// The time one period later.
fn next_time(w: Walk) -> f64
    ensures { result ≡ pitch.next_time (contour_of w) w.time }
{
    w.time + 1.0 / f0_at(w)
}

// The mark at a time.
fn mark_at(w: Walk, time: f64) -> usize
    ensures { result ≡ pitch.mark_at (contour_of w) time }
{
    float::f64_to_usize(w.rate * time)
}

// The slope from the walk's target to the next, as f32.
fn slope_to(w: Walk, position: f64, f0: f64) -> f64
    ensures { result ≡ pitch.slope_of (stage_of w) position f0 }
{
    let rise = f0 - w.f0;
    let run = position - w.position;
    std::num::f32_to_f64_with_nan(float::f64_to_f32(rise / run))
}

// The walk on the way to a target, on which it climbs or not.
fn moved(w: Walk, position: f64, f0: f64, next: usize, climbs: bool, slope: f64) -> Walk
    requires { 0 < w.targets }
    ensures { result ≡ walking.moved w position f0 next climbs slope }
{
    Walk {
        from: w.position,
        base: w.f0,
        slope,
        position,
        f0,
        climbs,
        at: next,
        targets: w.targets - 1,
        ..w
    }
}

// Whether the walk climbs to a target at a position.
fn is_ahead(w: Walk, position: f64) -> bool
    ensures { result ≡ is_ahead w position }
{
    w.time != position && w.position < position
}

// On to a target, after which the sheet goes on at `next`.
fn aim(w: Walk, position: f64, f0: f64, next: usize) -> Result<Walk, Refusal>
    requires { 0 < w.targets }
    ensures { result ≡ walking.aimed w position f0 next }
{
    if is_ahead(w, position) {
        let slope = slope_to(w, position, f0);
        if slope.is_finite() {
            return Ok(moved(w, position, f0, next, true, slope));
        }
        return Err(Refusal::BadSlope);
    }
    Ok(moved(w, position, f0, next, false, 0.0))
}

// The pitch that a target counts: what it says, or where it says none the last one counted.
fn f0_counted(last: f64, f0: Value) -> f64
    ensures { result ≡ pitch.f0_counted last f0 }
{
    match f0 {
        Value::Absent => last,
        _ => std::num::f32_to_f64_with_nan(sheet::as_f32(f0)),
    }
}

// On to the next target of the sheet.
fn advance(sheet: &[u8], w: Walk) -> Result<Walk, Refusal>
    requires { Reads sheet.now w × (0 < w.targets) × (on_way w ≡ false) }
    ensures { walking.Advanced sheet.now w result }
{
    let read = sheet::target_at(sheet, w.at);
    let target = read.value;
    aim(
        w,
        std::num::f32_to_f64_with_nan(sheet::as_f32(target.pos)),
        f0_counted(w.f0, target.f0),
        read.next,
    )
}

// The walk on to the target on the way to which the next mark is, if there is one.
fn settle(sheet: &[u8], w: Walk) -> Result<Option<Walk>, Refusal>
    requires { Reads sheet.now w }
    ensures { walking.IsSettled sheet.now w result }
{
    let mut walk = w;
    while !is_on_way(walk) {
        if walk.targets == 0 {
            return Ok(None);
        }
        walk = advance(sheet, walk)?;
    }
    Ok(Some(walk))
}

// The walk at a later time, with one mark made.
fn later(w: Walk, time: f64) -> Walk
    requires { 0 < w.left }
    ensures { result ≡ walking.later w time }
{
    Walk {
        time,
        left: w.left - 1,
        ..w
    }
}

// One mark, on the way to the target, and the walk after it.
fn mark(w: Walk) -> Result<(usize, Walk), Refusal>
    ensures { result ≡ walking.marked w }
{
    if 0 < w.left {
        let time = next_time(w);
        let m = mark_at(w, time);
        if m <= units::LIMIT {
            return Ok((m, later(w, time)));
        }
        return Err(Refusal::PastLimit);
    }
    Err(Refusal::TooManyMarks)
}

// The next mark, if there is one, and the walk after it.
fn next(sheet: &[u8], w: Walk) -> Result<Option<(usize, Walk)>, Refusal>
    requires { Reads sheet.now w }
    ensures { walking.IsNext sheet.now w result }
{
    match settle(sheet, w)? {
        Some(on) => Ok(Some(mark(on)?)),
        None => Ok(None),
    }
}

// The walk before the first target, at a rate in samples per second: the first f0 is 120, and
// no mark was made yet.
fn fresh(places: Places, rate: u32) -> Walk
    ensures { result ≡ walking.fresh_walk places rate }
{
    Walk {
        rate: std::num::nearest_u64_to_f64(u64::from(rate)),
        time: 0.0,
        from: 0.0,
        base: 0.0,
        slope: 0.0,
        position: 0.0,
        f0: 120.0,
        climbs: false,
        left: MOST_MARKS,
        at: places.targets.at,
        targets: places.targets.count,
    }
}

// Whether a mark is taken: it is not above the end, and neither is one before it.
fn takes(t: Tally, end: usize, m: usize) -> bool
    ensures { result ≡ checking.takes t end m }
{
    t.taking && m <= end
}

// One mark more.
fn tallied(t: Tally, end: usize, m: usize) -> Tally
    requires { (t.taken ≤ t.count) × (t.count < pitch.most_marks) }
    ensures { result ≡ checking.tallied t m (checking.takes t end m) }
{
    if takes(t, end, m) {
        return Tally {
            taking: true,
            count: t.count + 1,
            taken: t.taken + 1,
            last: m,
        };
    }
    Tally {
        taking: false,
        count: t.count + 1,
        ..t
    }
}

// Makes the pitch marks of a sheet at a rate in samples per second, and writes none. Those up to
// `end`, the greatest target end of the units, are taken.
pub fn check_marks(sheet: &[u8], places: Places, rate: u32, end: usize) -> Result<Counts, Refusal>
    requires { answer_in (sheet_places sheet.now) ≡ Ok places }
    ensures { (result ≡ checking.checked_marks end (pitch.pitch_marks rate (sheets.sheet_of sheet.now).targets)) ×
        checking.Bounded result }
{
    let mut walk = fresh(places, rate);
    let mut tally = Tally {
        taking: true,
        count: 0,
        taken: 0,
        last: 0,
    };
    while let Some((m, after)) = next(sheet, walk)? {
        tally = tallied(tally, end, m);
        walk = after;
    }
    Ok(Counts {
        marks: tally.count,
        taken: tally.taken,
        last: tally.last,
    })
}

// Stores the first `count` pitch marks, four bytes each, at the front of a buffer.
pub fn store_marks(sheet: &[u8], places: Places, rate: u32, count: usize, marks: &mut [u8])
    requires { CanStore sheet.now places rate count (length marks.old) }
    ensures { marks.new ≡
        over
        (flat (bytes_of 4) (take count (pitch.pitch_marks rate (sheets.sheet_of sheet.now).targets).marks))
        marks.old }
{
    let mut walk = fresh(places, rate);
    for i in 0..count {
        match next(sheet, walk) {
            Ok(Some((m, after))) => {
                base::bytes::put_u32(marks, i, m as u32);
                walk = after;
            }
            Ok(None) => return,
            Err(_) => return,
        }
    }
}

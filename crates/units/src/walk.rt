// The pairs of a sheet's segments, one after the other. A `requires` here is what the caller has
// tested.
ghost use Rattle.std.specs.Prelude.{◌≡◌, Bool, true, ◌∷◌, ◌+◌, ◌≤◌, ◌<◌, Ok};
ghost use Rattle.voice.specs.Voice.{Voice};
ghost use Rattle.sheet.specs.Sheet.{sheet_of};
ghost use Rattle.sheet.specs.Answers.{segment_read};
ghost use Rattle.sheet.specs.Places.{answer_in, sheet_places, is_read};
ghost use Rattle.units.specs.Selecting.{folded};
ghost use Rattle.units.specs.Units.{units_of, limit, greatest_end, checked_ends, greatest_in};
ghost use Rattle.units.specs.Walking.{Reached, Starts, Walking, list_in, segments_at, coming};

use super::PairWalk;
use refusal::Refusal;
use sheet::Places;

// The walk from the first of `n` segments on, of a sheet that has `count`.
fn walk_from(sheet: &[u8], count: usize, n: usize, at: usize) -> PairWalk
    requires { (is_read (segments_at sheet.now count n at) ≡ true) × (0 < n) }
    ensures { (Reached sheet.now count result × (result.remaining + 1 ≡ n)) ×
        (list_in (segments_at sheet.now count n at) ≡
        segment_read sheet.now result.left ∷ coming sheet.now count result) }
{
    let read = sheet::segment_at(sheet, at, count);
    PairWalk {
        left: read.value,
        next: read.next,
        remaining: n - 1,
    }
}

// The walk from a segment on, whose number from 0 and place are given.
pub fn walk_at(sheet: &[u8], count: usize, number: usize, at: usize) -> PairWalk
    requires { Starts sheet.now count number at × (number < count) }
    ensures { Walking sheet.now count result × (number + (result.remaining + 1) ≡ count) }
{
    walk_from(sheet, count, count - number, at)
}

// The walk from the first segment on.
pub fn first_pair(sheet: &[u8], places: Places) -> PairWalk
    requires { (answer_in (sheet_places sheet.now) ≡ Ok places) × (0 < places.segments.count) }
    ensures { (Walking sheet.now places.segments.count result × (result.remaining + 1 ≡ places.segments.count)) ×
        ((sheet_of sheet.now).segments ≡
        segment_read sheet.now result.left ∷ coming sheet.now places.segments.count result) }
{
    let segments = places.segments;
    walk_from(sheet, segments.count, segments.count, segments.at)
}

// The walk after a pair: its right segment is the left one of the next pair.
pub fn next_pair(sheet: &[u8], count: usize, walk: PairWalk) -> PairWalk
    requires { Walking sheet.now count walk × (0 < walk.remaining) }
    ensures { (Walking sheet.now count result × (result.remaining + 1 ≡ walk.remaining)) ×
        (coming sheet.now count walk ≡
        segment_read sheet.now result.left ∷ coming sheet.now count result) }
{
    walk_from(sheet, count, walk.remaining, walk.next)
}

// The greatest target end of a sheet's units at a voice's rate, 0 where there is none. No entry is
// looked up.
fn greatest_end(sheet: &[u8], places: Places, rate: u32) -> usize
    requires { answer_in (sheet_places sheet.now) ≡ Ok places }
    ensures { (v : Voice) (fold : Bool) →
        v.header.rate ≡ rate →
        result ≡ greatest_end (units_of v (folded fold (sheet_of sheet.now).segments)) }
{
    let count = places.segments.count;
    if count == 0 {
        return 0;
    }
    let mut walk = first_pair(sheet, places);
    let mut greatest = 0;
    for _ in 1..count {
        let from = walk.left.end;
        walk = next_pair(sheet, count, walk);
        greatest = super::ends::greatest_with(greatest, rate, from, walk.left.end);
    }
    greatest
}

// Works out the target ends of a sheet's units at a voice's rate, which no setting changes.
pub fn check_ends(sheet: &[u8], places: Places, rate: u32) -> Result<usize, Refusal>
    requires { answer_in (sheet_places sheet.now) ≡ Ok places }
    ensures { ((v : Voice) (fold : Bool) →
        v.header.rate ≡ rate →
        result ≡ checked_ends (units_of v (folded fold (sheet_of sheet.now).segments))) ×
        (greatest_in result ≤ limit) }
{
    let greatest = greatest_end(sheet, places, rate);
    if super::LIMIT < greatest {
        return Err(Refusal::PastLimit);
    }
    Ok(greatest)
}

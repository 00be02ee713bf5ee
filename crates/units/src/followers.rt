// The name of a follower, by the places of every 16th segment. A `requires` here is what the caller
// has tested.
ghost use Rattle.std.specs.Prelude.{◌≡◌, ℕ, ◌+◌, ◌≤◌, ◌<◌, length, get_or, Ok};
ghost use Rattle.sheet.specs.Sheet.{sheet_of};
ghost use Rattle.sheet.specs.Answers.{bytes_at};
ghost use Rattle.sheet.specs.Followers.{name_of};
ghost use Rattle.sheet.specs.Places.{answer_in, sheet_places};
ghost use Rattle.units.specs.Asked.{Named, Numbered};
ghost use Rattle.units.specs.Walking.{Sampled, Kept};

use base::Span;
use sheet::{Places, Segment};

// No place is kept. No segment stands at place 0: a sheet begins with the count of its segments.
fn no_places() -> [usize; 256]
    ensures { (j : ℕ) → get_or result j 0 ≡ 0 }
{
    [0; 256]
}

// Keeps the place of a segment with a number from 0, if that is a multiple of 16 below 4,096.
fn keep(sampled: &mut [usize; 256], number: usize, at: usize)
    ensures { Kept number at sampled.old sampled.new }
{
    if number % 16 == 0 && number < 4096 {
        sampled[number / 16] = at;
    }
}

// Where every 16th segment of a sheet stands, from the first on.
pub fn sample(sheet: &[u8], places: Places) -> [usize; 256]
    requires { (answer_in (sheet_places sheet.now) ≡ Ok places) × (0 < places.segments.count) }
    ensures { Sampled sheet.now places.segments.count result }
{
    let count = places.segments.count;
    let mut sampled = no_places();
    keep(&mut sampled, 0, places.segments.at);
    let mut walk = super::walk::first_pair(sheet, places);
    for number in 1..count {
        keep(&mut sampled, number, walk.next);
        walk = super::walk::next_pair(sheet, count, walk);
    }
    sampled
}

// The place that is kept for the segment with number 16 j, 0 where none is.
fn kept_place(sampled: &[usize; 256], j: usize) -> usize
    ensures { 0 < result → result ≡ get_or sampled.now j 0 }
{
    sampled.get(j).copied().unwrap_or(0)
}

// Where the name of the segment with a number from 1 stands, by a walk from the nearest place.
fn name_near(sheet: &[u8], places: Places, sampled: &[usize; 256], number: usize) -> Span
    requires { (answer_in (sheet_places sheet.now) ≡ Ok places) ×
        (Sampled sheet.now places.segments.count sampled.now ×
        ((0 < number) × (number ≤ places.segments.count))) }
    ensures { (bytes_at sheet.now result ≡ name_of (sheet_of sheet.now).segments number) ×
        (result.at + result.len ≤ length sheet.now) }
{
    let count = places.segments.count;
    let from = (number - 1) / 16;
    let at = kept_place(sampled, from);
    if at == 0 {
        return sheet::name_of(sheet, places, number);
    }
    let mut walk = super::walk::walk_at(sheet, count, 16 * from, at);
    for _ in 0..(number - 1) % 16 {
        walk = super::walk::next_pair(sheet, count, walk);
    }
    walk.left.name
}

// Where the name of a follower stands. `number` is the right segment's, which is the follower as a
// rule.
pub fn follower_name(
    sheet: &[u8],
    places: Places,
    sampled: &[usize; 256],
    follower: usize,
    right: Segment,
    number: usize,
) -> Span
    requires { (answer_in (sheet_places sheet.now) ≡ Ok places) ×
        (Sampled sheet.now places.segments.count sampled.now ×
        (Named sheet.now right × Numbered sheet.now right number)) }
    ensures { (bytes_at sheet.now result ≡ name_of (sheet_of sheet.now).segments follower) ×
        (result.at + result.len ≤ length sheet.now) }
{
    if follower == number {
        return right.name;
    }
    if 0 < follower && follower <= places.segments.count {
        return name_near(sheet, places, sampled, follower);
    }
    sheet::name_of(sheet, places, follower)
}

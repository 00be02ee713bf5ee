// The units of a call, pair after pair and unit after unit. A `requires` here is what the caller has
// tested.
ghost use Rattle.std.specs.Prelude.{◌≡◌, ◌<◌, ltb, Ok};
ghost use Rattle.sheet.specs.Places.{answer_in, sheet_places};
ghost use Rattle.units.specs.Asked.{Searchable};
ghost use Rattle.units.specs.Walking.{Walking, Sampled, StepsPair, many_left, UnitWalking, StartsUnits, StepsUnit};

use super::{PairStep, PairWalk, Selection, UnitStep, UnitWalk};
use sheet::Places;

// The units of the next pair.
pub fn next_units(
    file: &[u8],
    index: &[u8],
    sheet: &[u8],
    by: Selection,
    sampled: &[usize; 256],
    walk: PairWalk,
) -> PairStep
    requires { Searchable file.now index.now by ×
        ((answer_in (sheet_places sheet.now) ≡ Ok by.places) ×
        (Sampled sheet.now by.places.segments.count sampled.now ×
        (Walking sheet.now by.places.segments.count walk × (0 < walk.remaining)))) }
    ensures { StepsPair file.now by.voice by.fold sheet.now by.places.segments.count walk result }
{
    let count = by.places.segments.count;
    let after = super::walk::next_pair(sheet, count, walk);
    let left = walk.left;
    let right = after.left;
    let number = count - after.remaining;
    let e = super::select::select(file, index, sheet, by, sampled, left, right, number);
    let pair = count - walk.remaining;
    let units = super::ends::unit_pair(pair, by.voice.header.rate, e, left.end, right.end);
    PairStep { units, walk: after }
}

// The walk from the first unit on.
pub fn first_unit(sheet: &[u8], places: Places) -> UnitWalk
    requires { (answer_in (sheet_places sheet.now) ≡ Ok places) × (0 < places.segments.count) }
    ensures { StartsUnits sheet.now places.segments.count result }
{
    UnitWalk {
        pairs: super::walk::first_pair(sheet, places),
        second: None,
    }
}

// Whether a unit is still to come.
pub fn has_unit(walk: UnitWalk) -> bool
    ensures { result ≡ ltb 0 (many_left walk) }
{
    walk.second.is_some() || 0 < walk.pairs.remaining
}

// The next unit. `sampled` has where every 16th segment stands.
pub fn next_unit(
    file: &[u8],
    index: &[u8],
    sheet: &[u8],
    by: Selection,
    sampled: &[usize; 256],
    walk: UnitWalk,
) -> UnitStep
    requires { Searchable file.now index.now by ×
        ((answer_in (sheet_places sheet.now) ≡ Ok by.places) ×
        (Sampled sheet.now by.places.segments.count sampled.now ×
        (UnitWalking by.voice.header.frames sheet.now by.places.segments.count walk × (0 < many_left walk)))) }
    ensures { StepsUnit file.now by.voice by.fold sheet.now by.places.segments.count walk result }
{
    match walk.second {
        Some(second) => UnitStep {
            unit: second,
            walk: UnitWalk {
                second: None,
                ..walk
            },
        },
        None => {
            let step = next_units(file, index, sheet, by, sampled, walk.pairs);
            UnitStep {
                unit: step.units.first,
                walk: UnitWalk {
                    pairs: step.walk,
                    second: Some(step.units.second),
                },
            }
        }
    }
}

// The two units of a pair, with their target ends.
ghost use Rattle.std.specs.Prelude.{◌≡◌, ◌+◌, ◌^◌, ◌<◌, max};
ghost use Rattle.sheet.specs.Sheet as sheets;
ghost use Rattle.units.specs.Units as units;

use super::{TargetEnds, Unit, UnitPair};
use index::EntryPeriods;
use sheet::Value;

// The sample nearest to a time by the rate, in f32.
fn samples_at(rate: u32, time: f32) -> usize
    ensures { result ≡ units.samples_at rate time }
{
    float::f32_to_nearest(time * float::u32_to_f32(rate))
}

// Half the way from one time to another.
fn midway(left: f32, right: f32) -> f32
    ensures { result ≡ units.midway left right }
{
    (left + right) / 2.0
}

// The target ends of a pair whose segments end at these times.
fn target_ends(rate: u32, left: Value, right: Value) -> TargetEnds
    ensures { result ≡ units.ends_of rate (sheets.as_f32 left) (sheets.as_f32 right) }
{
    let from = sheet::as_f32(left);
    TargetEnds {
        first: samples_at(rate, from),
        second: samples_at(rate, midway(from, sheet::as_f32(right))),
    }
}

// The units of a pair, by its number, whose segments end at these times.
pub fn unit_pair(pair: usize, rate: u32, e: EntryPeriods, left: Value, right: Value) -> UnitPair
    requires { e.start + e.first + e.second < 2 ^ 63 }
    ensures { result ≡ units.pair_of pair e (units.ends_of rate (sheets.as_f32 left) (sheets.as_f32 right)) }
{
    let ends = target_ends(rate, left, right);
    let middle = e.start + e.first;
    UnitPair {
        first: Unit {
            first_period: e.start,
            last_period: middle,
            target_end: ends.first,
            pair,
            half: 1,
        },
        second: Unit {
            first_period: middle,
            last_period: middle + e.second,
            target_end: ends.second,
            pair,
            half: 2,
        },
    }
}

// The greatest of a number and the target ends of a pair.
pub fn greatest_with(greatest: usize, rate: u32, left: Value, right: Value) -> usize
    ensures { result ≡ max greatest
        (max (units.samples_at rate (sheets.as_f32 left))
        (units.samples_at rate (units.midway (sheets.as_f32 left) (sheets.as_f32 right)))) }
{
    let ends = target_ends(rate, left, right);
    greatest.max(ends.first).max(ends.second)
}

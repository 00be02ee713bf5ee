// The units of a call: half a diphone each, stretched to a target end.
#![tactic(auto)]

pub mod ends;
pub mod followers;
pub mod holding;
pub mod names;
pub mod select;
pub mod step;
pub mod walk;

ghost use Rattle.std.specs.Prelude.{◌≡◌};
ghost use Rattle.units.specs.Units.{ending_at};

use sheet::{Places, Segment};
use sparse::Spacing;
use voice::DiphoneVoice;

// The greatest mark or target end that a call has.
pub const LIMIT: usize = 16777215;

// A unit: its first pitch period, the period after its last, where it should end, in output samples,
// its pair's number, from 1, and which half of the pair it is, 1 or 2.
#[derive(Clone, Copy)]
pub struct Unit {
    pub first_period: usize,
    pub last_period: usize,
    pub target_end: usize,
    pub pair: usize,
    pub half: usize,
}

impl Unit {
    // The unit with another target end.
    pub fn ending_at(self, end: usize) -> Unit
        ensures { result ≡ ending_at self end }
    {
        Unit {
            target_end: end,
            ..self
        }
    }
}

// The two units of a pair of phones.
#[derive(Clone, Copy)]
pub struct UnitPair {
    pub first: Unit,
    pub second: Unit,
}

// Where the two units of a pair should end.
#[derive(Clone, Copy)]
pub struct TargetEnds {
    pub first: usize,
    pub second: usize,
}

// A walk over the pairs of a sheet: the left segment of the next pair, the place of the right one,
// and how many segments are still to come.
#[derive(Clone, Copy)]
pub struct PairWalk {
    pub left: Segment,
    pub next: usize,
    pub remaining: usize,
}

// The units of a pair, and the walk after it.
#[derive(Clone, Copy)]
pub struct PairStep {
    pub units: UnitPair,
    pub walk: PairWalk,
}

// A walk over units: that over the pairs, and between the two units of a pair the second.
#[derive(Clone, Copy)]
pub struct UnitWalk {
    pub pairs: PairWalk,
    pub second: Option<Unit>,
}

// A unit, and the walk after it.
#[derive(Clone, Copy)]
pub struct UnitStep {
    pub unit: Unit,
    pub walk: UnitWalk,
}

// What an index buffer holds: nothing of use, the sorted index of a voice, or a sparse index, where
// the voice's entries are in order.
#[derive(Clone, Copy)]
pub enum Held {
    Nothing,
    Sorted,
    Sparse(Spacing),
}

// What units are selected by: an open voice, what the index buffer beside it holds, where the sheet
// has its segments, and whether `ah` is folded.
#[derive(Clone, Copy)]
pub struct Selection {
    pub voice: DiphoneVoice,
    pub held: Held,
    pub places: Places,
    pub fold: bool,
}

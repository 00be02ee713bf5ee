// Whether the pairs of a sheet find names that they try.
#![tactic(auto)]

ghost use Rattle.std.specs.Prelude.{◌≡◌, Ok};
ghost use Rattle.voice.specs.Voice.{voice_of};
ghost use Rattle.sheet.specs.Sheet.{sheet_of};
ghost use Rattle.sheet.specs.Places.{answer_in, sheet_places};
ghost use Rattle.units.specs.Asked.{Searchable};
ghost use Rattle.pairs.specs.Pairs.{tried_found};

use units::Selection;
use units::select::find_tried;

// Whether each pair finds a name that it tries before the sorted first entry. A `requires` is what the
// caller has tested.
pub fn all_found(file: &[u8], index: &[u8], sheet: &[u8], by: Selection) -> bool
    requires { Searchable file.now index.now by × (answer_in (sheet_places sheet.now) ≡ Ok by.places) }
    ensures { result ≡ tried_found (voice_of file.now) by.fold (sheet_of sheet.now).segments }
{
    let count = by.places.segments.count;
    if count == 0 {
        return true;
    }
    let sampled = units::followers::sample(sheet, by.places);
    let mut walk = units::walk::first_pair(sheet, by.places);
    for number in 1..count {
        let left = walk.left;
        walk = units::walk::next_pair(sheet, count, walk);
        let right = walk.left;
        let tried = find_tried(file, index, sheet, by, &sampled, left, right, number + 1);
        if tried.is_none() {
            return false;
        }
    }
    true
}

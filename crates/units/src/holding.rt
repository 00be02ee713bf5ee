// An index buffer by which the entries of a voice are found. A `requires` here is what the caller has
// tested.
ghost use Rattle.std.specs.Prelude.{◌≤◌, length};
ghost use Rattle.voice.specs.Opening.{IsOpen};
ghost use Rattle.units.specs.Asked.{Holds};

use super::Held;
use voice::DiphoneVoice;

// Fills the buffer with the sorted index, where it has room for that, else with a sparse index, where
// the entries are in order. Says what it holds then.
pub fn hold(file: &[u8], d: DiphoneVoice, index: &mut [u8]) -> Held
    requires { IsOpen file.now d × (8 ≤ length index.old) }
    ensures { Holds file.now index.new d result }
{
    let room = index.len() / 8;
    if d.count <= room {
        opening::fill_index(file, d, index);
        return Held::Sorted;
    }
    let entries = voice::sections::bytes_at(file, d.entries);
    if index::is_ascending(entries, d.count) {
        return Held::Sparse(sparse::fill(entries, d.count, (d.count - 1) / room + 1, index));
    }
    Held::Nothing
}

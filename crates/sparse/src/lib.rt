// A sparse index: the places of every so manieth entry of an index whose names are in order, eight
// bytes each. `entries` has the bytes after the count. A `requires` here is what the caller has
// tested.
#![tactic(auto)]

ghost use Rattle.std.specs.Prelude.{◌≡◌, true, ◌*◌, ◌/◌, ◌<◌, ◌≤◌, length, drop};
ghost use Rattle.voice.specs.Voice.{entries_from, sort};
ghost use Rattle.voice.specs.Voice as voices;
ghost use Rattle.index.specs.Index.{Small, periods_of, found_of, first_of, ascending};
ghost use Rattle.sparse.specs.Sparse.{Begins, SparseIndex};

use index::EntryPeriods;
use std::cmp::Ordering;

// How many entries lie from one place of a sparse index to the next, and how many places it has.
#[derive(Clone, Copy)]
pub struct Spacing {
    pub stride: usize,
    pub count: usize,
}

// Stores the place of every `stride`-th entry, from the first on.
pub fn fill(entries: &[u8], count: usize, stride: usize, index: &mut [u8]) -> Spacing
    requires { (((entries_from count entries.now 0).whole ≡ true) ×
        (ascending (entries_from count entries.now 0).list ≡ true)) ×
        ((0 < count) × ((8 ≤ length index.old) × (count ≤ stride * (length index.old / 8)))) }
    ensures { SparseIndex entries.now count result index.new }
{
    base::bytes::put_u64(index, 0, 0);
    let mut last = 0;
    let mut at = 0;
    let mut left = count;
    while stride < left {
        at = index::entry_after(entries, at, stride);
        left -= stride;
        last += 1;
        base::bytes::put_u64(index, last, at as u64);
    }
    Spacing {
        stride,
        count: last + 1,
    }
}

// Where the entry begins whose place stands at j of the sparse index.
fn place_at(entries: &[u8], count: usize, by: Spacing, index: &[u8], j: usize) -> usize
    requires { SparseIndex entries.now count by index.now × (j < by.count) }
    ensures { Begins entries.now count (by.stride * j) result }
{
    base::bytes::u64_at(index, j) as usize
}

// The place of the sparse index to look for a name from: the last whose entry's name does not stand
// after it, else the first.
fn nearest_place(entries: &[u8], count: usize, by: Spacing, index: &[u8], name: &[u8]) -> usize
    requires { SparseIndex entries.now count by index.now }
    ensures { (result < by.count) ×
        (voices.lookup name.now (drop (by.stride * result) (entries_from count entries.now 0).list) ≡
        voices.lookup name.now (entries_from count entries.now 0).list) }
{
    let mut lo = 0;
    let mut hi = by.count;
    while 1 < hi - lo {
        let mid = lo + (hi - lo) / 2;
        let at = place_at(entries, count, by, index, mid);
        if index::name_before(name, index::name_at(entries, at)) {
            hi = mid;
        } else {
            lo = mid;
        }
    }
    lo
}

// What `count` entries from a place on, whose names are in order, have under a name.
fn find_from(entries: &[u8], from: usize, count: usize, name: &[u8]) -> Option<EntryPeriods>
    requires { ((entries_from count entries.now from).whole ≡ true) ×
        (ascending (entries_from count entries.now from).list ≡ true) }
    ensures { result ≡ found_of
        (voices.lookup name.now (entries_from count entries.now from).list) }
{
    let mut at = from;
    for _ in 0..count {
        match text::compare(index::name_at(entries, at), name) {
            Ordering::Less => at = index::next_entry(entries, at),
            Ordering::Equal => return Some(index::periods_at(entries, at)),
            Ordering::Greater => return None,
        }
    }
    None
}

// What an index in order has under a name: by a search that halves the sparse index, and a walk from
// the place it comes to.
pub fn find(
    entries: &[u8],
    count: usize,
    by: Spacing,
    index: &[u8],
    name: &[u8],
) -> Option<EntryPeriods>
    requires { SparseIndex entries.now count by index.now }
    ensures { result ≡ found_of (voices.lookup name.now (entries_from count entries.now 0).list) }
{
    let j = nearest_place(entries, count, by, index, name);
    let at = place_at(entries, count, by, index, j);
    find_from(entries, at, count - by.stride * j, name)
}

// The first entry of an index in order.
pub fn first(entries: &[u8], count: usize, by: Spacing, index: &[u8]) -> EntryPeriods
    requires { SparseIndex entries.now count by index.now }
    ensures { (result ≡ periods_of (first_of (sort (entries_from count entries.now 0).list))) × Small result }
{
    index::periods_at(entries, place_at(entries, count, by, index, 0))
}

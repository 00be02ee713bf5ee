// The entries of a voice's index by their names: with the filled index, or without it. `entries` has
// the bytes after the count. A `requires` here is what the caller has tested.
#![tactic(auto)]

ghost use Rattle.std.specs.Prelude.{◌≡◌, true, ◌≤◌, ◌<◌, length, drop};
ghost use Rattle.base.specs.Choice.{pick};
ghost use Rattle.text.specs.Names.{before};
ghost use Rattle.voice.specs.Voice.{entry_at, next_entry, entries_from, sort};
ghost use Rattle.voice.specs.Voice as voices;
ghost use Rattle.voice.specs.Opening.{distinct};
ghost use Rattle.index.specs.Index.{Small, Filled, periods_of, found_of, first_of};

use index::EntryPeriods;
use std::cmp::Ordering;

// What the index has under a name, without the sorted index.
pub fn lookup(entries: &[u8], count: usize, name: &[u8]) -> Option<EntryPeriods>
    requires { (entries_from count entries.now 0).whole ≡ true }
    ensures { result ≡ found_of (voices.lookup name.now (entries_from count entries.now 0).list) }
{
    let mut at = 0;
    for _ in 0..count {
        if text::same(index::name_at(entries, at), name) {
            return Some(index::periods_at(entries, at));
        }
        at = index::next_entry(entries, at);
    }
    None
}

// The place of that of two entries which stands first: b's, where the names are the same.
fn earlier(entries: &[u8], a: usize, b: usize) -> usize
    requires { (next_entry entries.now a ≤ length entries.now) ×
        (next_entry entries.now b ≤ length entries.now) }
    ensures { result ≡ pick (before (entry_at entries.now a).name (entry_at entries.now b).name) a b }
{
    if index::stands_before(entries, a, b) {
        a
    } else {
        b
    }
}

// The first entry in name order, without the sorted index.
pub fn smallest(entries: &[u8], count: usize) -> EntryPeriods
    requires { ((entries_from count entries.now 0).whole ≡ true) × (1 ≤ count) }
    ensures { (result ≡ periods_of (first_of (sort (entries_from count entries.now 0).list))) × Small result }
{
    let mut best = 0;
    let mut at = index::next_entry(entries, 0);
    for _ in 1..count {
        best = earlier(entries, best, at);
        at = index::next_entry(entries, at);
    }
    index::periods_at(entries, best)
}

// Where entry i in name order begins among the entries' bytes, from the filled index.
fn sorted_place(entries: &[u8], count: usize, base: usize, index: &[u8], i: usize) -> usize
    requires { Filled entries.now count base index.now × (i < count) }
    ensures { (entry_at entries.now result ≡
        first_of (drop i (sort (entries_from count entries.now 0).list))) ×
        (next_entry entries.now result ≤ length entries.now) }
{
    base::bytes::u64_at(index, i) as usize - base
}

// The first entry in name order, from the filled index.
pub fn first_sorted(entries: &[u8], count: usize, base: usize, index: &[u8]) -> EntryPeriods
    requires { Filled entries.now count base index.now × (1 ≤ count) }
    ensures { (result ≡ periods_of (first_of (sort (entries_from count entries.now 0).list))) × Small result }
{
    index::periods_at(entries, sorted_place(entries, count, base, index, 0))
}

// What the index has under a name, by a search that halves the filled index.
pub fn find(
    entries: &[u8],
    count: usize,
    base: usize,
    index: &[u8],
    name: &[u8],
) -> Option<EntryPeriods>
    requires { Filled entries.now count base index.now ×
        (distinct (entries_from count entries.now 0).list ≡ true) }
    ensures { result ≡ found_of (voices.lookup name.now (entries_from count entries.now 0).list) }
{
    let mut lo = 0;
    let mut hi = count;
    while lo < hi {
        let mid = lo + (hi - lo) / 2;
        let at = sorted_place(entries, count, base, index, mid);
        match text::compare(index::name_at(entries, at), name) {
            Ordering::Less => lo = mid + 1,
            Ordering::Equal => return Some(index::periods_at(entries, at)),
            Ordering::Greater => hi = mid,
        }
    }
    None
}

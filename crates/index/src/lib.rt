// The index of a voice: its entries checked, and sorted in a lent buffer. `entries` has
// the bytes after the count. A `requires` here is what the caller has tested.
#![tactic(auto)]

ghost use Rattle.std.specs.Prelude.{◌≡◌, true, ◌+◌, ◌*◌, ◌<◌, ◌≤◌, length, get_or, take};
ghost use Rattle.base.specs.Buffers.{over};
ghost use Rattle.text.specs.Names.{before};
ghost use Rattle.voice.specs.Voice.{entry_at, next_entry, whole_entry, entries_from, sort};
ghost use Rattle.voice.specs.Opening.{within_frames};
ghost use Rattle.index.specs.Index.{Small, Indexable, periods_of};
ghost use Rattle.index.specs.Index.{ascending, end_of, index_of, sorted_from};
ghost use Rattle.index.specs.Shuffle.{Shuffled, name_in};

use std::cmp::Ordering;

// The numbers of an entry: its first pitch period, and how many its two halves have.
#[derive(Clone, Copy)]
pub struct EntryPeriods {
    pub start: usize,
    pub first: usize,
    pub second: usize,
}

// Where the next entry begins.
pub fn next_entry(entries: &[u8], at: usize) -> usize
    requires { next_entry entries.now at ≤ length entries.now }
    ensures { (result ≡ next_entry entries.now at) ×
        ((at + 5 ≤ result) × (result ≤ length entries.now)) }
{
    at + 5 + entries[at] as usize
}

// Where the entry after `count` entries from a place on begins.
pub fn entry_after(entries: &[u8], from: usize, count: usize) -> usize
    requires { (from ≤ length entries.now) × ((entries_from count entries.now from).whole ≡ true) }
    ensures { (result ≡ end_of count entries.now from) × (result ≤ length entries.now) }
{
    let mut at = from;
    for _ in 0..count {
        at = next_entry(entries, at);
    }
    at
}

// The name of the entry at a place.
pub fn name_at(entries: &[u8], at: usize) -> &[u8]
    requires { next_entry entries.now at ≤ length entries.now }
    ensures { result.now ≡ (entry_at entries.now at).name }
{
    let from = at + 1;
    let to = from + entries[at] as usize;
    &entries[from..to]
}

// Whether the entry at a place is not cut short and its name is UTF-8.
fn is_whole(entries: &[u8], at: usize) -> bool
    ensures { result ≡ whole_entry entries.now at }
{
    at < entries.len()
        && at + 5 + entries[at] as usize <= entries.len()
        && text::utf8(name_at(entries, at))
}

// Whether the index has `count` entries, none cut short, each name UTF-8.
pub fn has_whole_entries(entries: &[u8], count: usize) -> bool
    ensures { result ≡ (entries_from count entries.now 0).whole }
{
    let mut at = 0;
    for _ in 0..count {
        if !is_whole(entries, at) {
            return false;
        }
        at = next_entry(entries, at);
    }
    true
}

// The numbers of the entry at a place.
pub fn periods_at(entries: &[u8], at: usize) -> EntryPeriods
    requires { next_entry entries.now at ≤ length entries.now }
    ensures { (result ≡ periods_of (entry_at entries.now at)) × Small result }
{
    let place = at + 1 + entries[at] as usize;
    EntryPeriods {
        start: base::bytes::read_u16(entries, place) as usize,
        first: entries[place + 2] as usize,
        second: entries[place + 3] as usize,
    }
}

// Whether each entry's periods end within the frames.
pub fn ends_within(entries: &[u8], count: usize, frames: usize) -> bool
    requires { (entries_from count entries.now 0).whole ≡ true }
    ensures { result ≡ within_frames frames (entries_from count entries.now 0).list }
{
    let mut at = 0;
    for _ in 0..count {
        let e = periods_at(entries, at);
        if frames < e.start + e.first + e.second {
            return false;
        }
        at = next_entry(entries, at);
    }
    true
}

// Whether a name stands before another.
pub fn name_before(a: &[u8], b: &[u8]) -> bool
    ensures { result ≡ before a.now b.now }
{
    text::compare(a, b) == Ordering::Less
}

// Whether the name of the entry at place a stands before that at place b.
pub fn stands_before(entries: &[u8], a: usize, b: usize) -> bool
    requires { (next_entry entries.now a ≤ length entries.now) ×
        (next_entry entries.now b ≤ length entries.now) }
    ensures { result ≡ before (entry_at entries.now a).name (entry_at entries.now b).name }
{
    name_before(name_at(entries, a), name_at(entries, b))
}

// Whether each name stands before the next.
pub fn is_ascending(entries: &[u8], count: usize) -> bool
    requires { (entries_from count entries.now 0).whole ≡ true }
    ensures { result ≡ ascending (entries_from count entries.now 0).list }
{
    let mut at = 0;
    for _ in 1..count {
        let next = next_entry(entries, at);
        if !stands_before(entries, at, next) {
            return false;
        }
        at = next;
    }
    true
}

// Stores where each entry begins in the file at the front of the index, in file order.
fn store_places(entries: &[u8], count: usize, base: usize, index: &mut [u8])
    requires { Indexable entries.now count base (length index.old) }
    ensures { index.new ≡
        over (index_of base (entries_from count entries.now 0).list) index.old }
{
    let mut at = 0;
    for i in 0..count {
        base::bytes::put_u64(index, i, (base + at) as u64);
        at = next_entry(entries, at);
    }
}

// Moves place i of the index behind those places after it whose entries it does not stand before.
fn insert_place(entries: &[u8], count: usize, base: usize, index: &mut [u8], i: usize)
    requires { (Indexable entries.now count base (length index.old)) ×
        ((i < count) ×
        (take (8 * count) index.old ≡
        index_of base (sorted_from (i + 1) (entries_from count entries.now 0).list))) }
    ensures { index.new ≡
        over (index_of base (sorted_from i (entries_from count entries.now 0).list)) index.old }
{
    let place = base::bytes::u64_at(index, i);
    for j in i + 1..count {
        let next = base::bytes::u64_at(index, j);
        if stands_before(entries, place as usize - base, next as usize - base) {
            base::bytes::put_u64(index, j - 1, place);
            return;
        }
        base::bytes::put_u64(index, j - 1, next);
    }
    base::bytes::put_u64(index, count - 1, place);
}

// Sorts the places that stand in file order at the front of the index.
fn sort_places(entries: &[u8], count: usize, base: usize, index: &mut [u8])
    requires { (Indexable entries.now count base (length index.old)) ×
        (take (8 * count) index.old ≡ index_of base (entries_from count entries.now 0).list) }
    ensures { index.new ≡
        over (index_of base (sort (entries_from count entries.now 0).list)) index.old }
{
    for i in (0..count).rev() {
        insert_place(entries, count, base, index, i);
    }
}

// Whether the entry whose place stands at i of the index stands before that at j.
fn places_ascend(
    entries: &[u8],
    count: usize,
    base: usize,
    index: &[u8],
    i: usize,
    j: usize,
) -> bool
    requires { Shuffled entries.now count base index.now index.now ×
        ((i < count) × (j < count)) }
    ensures { result ≡ before
        (name_in entries.now base index.now i)
        (name_in entries.now base index.now j) }
{
    let a = base::bytes::u64_at(index, i) as usize - base;
    let b = base::bytes::u64_at(index, j) as usize - base;
    stands_before(entries, a, b)
}

// Whether the places of the index stand in name order, no name twice.
pub fn is_ordered(entries: &[u8], count: usize, base: usize, index: &[u8]) -> bool
    requires { Shuffled entries.now count base index.now index.now }
    ensures { (s : Shuffled entries.now count base index.now index.now) →
        result ≡ ascending s.places }
{
    for i in 1..count {
        if !places_ascend(entries, count, base, index, i - 1, i) {
            return false;
        }
    }
    true
}

// Exchanges places i and j of the index.
fn exchange_places(entries: &[u8], count: usize, base: usize, index: &mut [u8], i: usize, j: usize)
    requires { Shuffled entries.now count base index.old index.old ×
        ((i < j) × (j < count)) }
    ensures { Shuffled entries.now count base index.old index.new }
{
    let a = base::bytes::u64_at(index, i);
    let b = base::bytes::u64_at(index, j);
    base::bytes::put_u64(index, i, b);
    base::bytes::put_u64(index, j, a);
}

// Of place `child` and the next, if that is below `end`, the one whose entry stands later.
fn later_place(
    entries: &[u8],
    count: usize,
    base: usize,
    index: &[u8],
    child: usize,
    end: usize,
) -> usize
    requires { Shuffled entries.now count base index.now index.now ×
        ((child < end) × (end ≤ count)) }
    ensures { (child ≤ result) × (result < end) }
{
    if child + 1 < end && places_ascend(entries, count, base, index, child, child + 1) {
        child + 1
    } else {
        child
    }
}

// Lets the entry at place `root` sink in the heap that ends at `end`, below those that stand later.
fn sink_place(entries: &[u8], count: usize, base: usize, index: &mut [u8], root: usize, end: usize)
    requires { Shuffled entries.now count base index.old index.old × (end ≤ count) }
    ensures { Shuffled entries.now count base index.old index.new }
{
    let mut at = root;
    while at < end / 2 {
        let child = later_place(entries, count, base, index, 2 * at + 1, end);
        if !places_ascend(entries, count, base, index, at, child) {
            return;
        }
        exchange_places(entries, count, base, index, at, child);
        at = child;
    }
}

// Makes a heap of the places: each entry stands later than the two below it.
fn build_heap(entries: &[u8], count: usize, base: usize, index: &mut [u8])
    requires { Shuffled entries.now count base index.old index.old }
    ensures { Shuffled entries.now count base index.old index.new }
{
    for i in (0..count / 2).rev() {
        sink_place(entries, count, base, index, i, count);
    }
}

// Takes the last entry in name order from the heap's top, again and again, to the heap's end.
fn empty_heap(entries: &[u8], count: usize, base: usize, index: &mut [u8])
    requires { Shuffled entries.now count base index.old index.old }
    ensures { Shuffled entries.now count base index.old index.new }
{
    for end in (1..count).rev() {
        exchange_places(entries, count, base, index, 0, end);
        sink_place(entries, count, base, index, 0, end);
    }
}

// Brings the places of the index in order by a heap. That the order is right is tested afterwards;
// proved here is only that no place is lost.
fn heap_places(entries: &[u8], count: usize, base: usize, index: &mut [u8])
    requires { Shuffled entries.now count base index.old index.old }
    ensures { Shuffled entries.now count base index.old index.new }
{
    build_heap(entries, count, base, index);
    empty_heap(entries, count, base, index);
}

// Fills the index by insertion: also where a name stands twice.
pub fn insert_places(entries: &[u8], count: usize, base: usize, index: &mut [u8])
    requires { Indexable entries.now count base (length index.old) }
    ensures { index.new ≡
        over (index_of base (sort (entries_from count entries.now 0).list)) index.old }
{
    store_places(entries, count, base, index);
    sort_places(entries, count, base, index);
}

// Stores the places and brings them in order, by a heap where the file has them otherwise. Says
// whether they stand in name order, no name twice.
pub fn order_places(entries: &[u8], count: usize, base: usize, index: &mut [u8]) -> bool
    requires { Indexable entries.now count base (length index.old) }
    ensures { Shuffled entries.now count base index.old index.new ×
        ((s : Shuffled entries.now count base index.new index.new) →
        result ≡ ascending s.places) }
{
    store_places(entries, count, base, index);
    if is_ordered(entries, count, base, index) {
        return true;
    }
    heap_places(entries, count, base, index);
    is_ordered(entries, count, base, index)
}

// Fills the index: where each entry begins in the file, in name order. The entries' bytes begin at
// `base`.
pub fn fill_index(entries: &[u8], count: usize, base: usize, index: &mut [u8])
    requires { Indexable entries.now count base (length index.old) }
    ensures { index.new ≡
        over (index_of base (sort (entries_from count entries.now 0).list)) index.old }
{
    if !order_places(entries, count, base, index) {
        insert_places(entries, count, base, index);
    }
}

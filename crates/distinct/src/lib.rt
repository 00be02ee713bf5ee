// Whether a name stands twice in a voice's index. `entries` has the bytes after the count. A
// `requires` here is what the caller has tested.
#![tactic(auto)]

ghost use Rattle.std.specs.Prelude.{◌≡◌, true, false, ◌<◌, ◌≤◌, length};
ghost use Rattle.text.specs.Names.{same};
ghost use Rattle.voice.specs.Voice.{entry_at, next_entry, entries_from, is_some};
ghost use Rattle.voice.specs.Voice as voices;
ghost use Rattle.voice.specs.Opening.{distinct};
ghost use Rattle.index.specs.Index.{Indexable, Filled};
ghost use Rattle.index.specs.Shuffle.{Shuffled, name_in};
ghost use Rattle.distinct.specs.Blocks.{apart, block_differs};

// How many entries a block has at most.
const BLOCK: usize = 2048;

// Whether the name of the entry at a place is one of the block's: the first `count` entries, whose
// places are filled into `index`.
fn stands_in(entries: &[u8], count: usize, index: &[u8], at: usize) -> bool
    requires { Filled entries.now count 0 index.now ×
        ((distinct (entries_from count entries.now 0).list ≡ true) ×
        (next_entry entries.now at ≤ length entries.now)) }
    ensures { result ≡ is_some
        (voices.lookup (entry_at entries.now at).name (entries_from count entries.now 0).list) }
{
    search::find(entries, count, 0, index, index::name_at(entries, at)).is_some()
}

// Whether no name of the `later` entries from a place on is one of the block's.
fn stands_apart(entries: &[u8], count: usize, index: &[u8], from: usize, later: usize) -> bool
    requires { Filled entries.now count 0 index.now ×
        ((distinct (entries_from count entries.now 0).list ≡ true) ×
        ((entries_from later entries.now from).whole ≡ true)) }
    ensures { result ≡ apart (entries_from count entries.now 0).list
        (entries_from later entries.now from).list }
{
    let mut at = from;
    for _ in 0..later {
        if stands_in(entries, count, index, at) {
            return false;
        }
        at = index::next_entry(entries, at);
    }
    true
}

// Whether the names of two entries are the same, whose places stand at i and j of the index.
fn names_agree(entries: &[u8], count: usize, index: &[u8], i: usize, j: usize) -> bool
    requires { Shuffled entries.now count 0 index.now index.now × ((i < count) × (j < count)) }
    ensures { result ≡ same
        (name_in entries.now 0 index.now i)
        (name_in entries.now 0 index.now j) }
{
    let a = base::bytes::u64_at(index, i) as usize;
    let b = base::bytes::u64_at(index, j) as usize;
    text::same(index::name_at(entries, a), index::name_at(entries, b))
}

// Whether two neighbours in the index have the same name. Then a name stands twice.
fn neighbours_agree(entries: &[u8], count: usize, index: &[u8]) -> bool
    requires { Shuffled entries.now count 0 index.now index.now }
    ensures { result ≡ true → distinct (entries_from count entries.now 0).list ≡ false }
{
    for i in 1..count {
        if names_agree(entries, count, index, i - 1, i) {
            return true;
        }
    }
    false
}

// Whether no name stands twice in the block of the first `count` entries; then their sorted places
// are filled into `index`.
fn sort_block(entries: &[u8], count: usize, index: &mut [u8]) -> bool
    requires { Indexable entries.now count 0 (length index.old) }
    ensures { (result ≡ distinct (entries_from count entries.now 0).list) ×
        (result ≡ true → Filled entries.now count 0 index.new) }
{
    if index::order_places(entries, count, 0, index) {
        return true;
    }
    if neighbours_agree(entries, count, index) {
        return false;
    }
    index::insert_places(entries, count, 0, index);
    index::is_ordered(entries, count, 0, index)
}

// Whether no name stands twice in the block of the first `count` entries, and none of the `later`
// entries from `end` on has one of its names.
fn block_differs(entries: &[u8], count: usize, end: usize, later: usize) -> bool
    requires { (count ≤ 2048) ×
        (((entries_from count entries.now 0).whole ≡ true) ×
        ((entries_from later entries.now end).whole ≡ true)) }
    ensures { result ≡ block_differs entries.now count later end }
{
    let mut index = [0; 8 * BLOCK];
    sort_block(entries, count, &mut index) && stands_apart(entries, count, &index, end, later)
}

// Whether no name stands twice, block by block.
fn names_differ(entries: &[u8], count: usize) -> bool
    requires { (entries_from count entries.now 0).whole ≡ true }
    ensures { result ≡ distinct (entries_from count entries.now 0).list }
{
    let mut at = 0;
    let mut left = count;
    while 0 < left {
        let size = left.min(BLOCK);
        let end = index::entry_after(&entries[at..], 0, size);
        if !block_differs(&entries[at..], size, end, left - size) {
            return false;
        }
        at += end;
        left -= size;
    }
    true
}

// Whether no name stands twice. Names in order are each compared with the next alone.
pub fn has_distinct_names(entries: &[u8], count: usize) -> bool
    requires { (entries_from count entries.now 0).whole ≡ true }
    ensures { result ≡ distinct (entries_from count entries.now 0).list }
{
    index::is_ascending(entries, count) || names_differ(entries, count)
}

// The entry of each adjacent pair of segments. A `requires` here is what the caller has tested.
ghost use Rattle.std.specs.Prelude.{◌≡◌, ◌+◌, ◌≤◌, length, Ok};
ghost use Rattle.phoneset.specs.Phones.{is_minus};
ghost use Rattle.voice.specs.Voice as voices;
ghost use Rattle.index.specs.Index.{periods_of, found_of, first_of};
ghost use Rattle.sheet.specs.Sheet.{sheet_of};
ghost use Rattle.sheet.specs.Answers.{segment_read};
ghost use Rattle.sheet.specs.Places.{answer_in, sheet_places};
ghost use Rattle.units.specs.Asked.{Searchable, Named, Numbered};
ghost use Rattle.units.specs.Walking.{Sampled};
ghost use Rattle.units.specs.Selecting as selecting;
ghost use Rattle.units.specs.Selecting.{folded_name};

use super::{Held, Selection};
use index::EntryPeriods;
use phoneset::Vc;
use sheet::{Places, Segment};

// Whether a feature `vc` is `-`.
fn is_minus(vc: Vc) -> bool
    ensures { result ≡ is_minus vc }
{
    vc == Vc::Minus
}

// Whether a phone is no vowel and its follower's `vc` is `-`. Folding changes neither.
fn in_cluster(
    sheet: &[u8],
    places: Places,
    sampled: &[usize; 256],
    left: Segment,
    right: Segment,
    number: usize,
) -> bool
    requires { (answer_in (sheet_places sheet.now) ≡ Ok places) ×
        (Sampled sheet.now places.segments.count sampled.now ×
        (Named sheet.now left × (Named sheet.now right × Numbered sheet.now right number))) }
    ensures { result ≡ selecting.in_cluster (sheet_of sheet.now).segments (segment_read sheet.now left) }
{
    if phoneset::is_vowel(voice::sections::bytes_at(sheet, left.name)) {
        return false;
    }
    let follower = super::followers::follower_name(
        sheet,
        places,
        sampled,
        left.follower,
        right,
        number,
    );
    is_minus(phoneset::vc_of(voice::sections::bytes_at(sheet, follower)))
}

// What the voice has under a name: by what the index buffer holds, else in file order.
fn find_name(file: &[u8], index: &[u8], by: Selection, name: &[u8]) -> Option<EntryPeriods>
    requires { Searchable file.now index.now by }
    ensures { result ≡ found_of (voices.lookup name.now (voices.voice_of file.now).entries) }
{
    let entries = voice::sections::bytes_at(file, by.voice.entries);
    let count = by.voice.count;
    match by.held {
        Held::Nothing => search::lookup(entries, count, name),
        Held::Sorted => search::find(entries, count, by.voice.entries.at, index, name),
        Held::Sparse(spacing) => sparse::find(entries, count, spacing, index, name),
    }
}

// The sorted first entry.
fn first_entry(file: &[u8], index: &[u8], by: Selection) -> EntryPeriods
    requires { Searchable file.now index.now by }
    ensures { result ≡ periods_of (first_of (voices.sorted (voices.voice_of file.now))) }
{
    let entries = voice::sections::bytes_at(file, by.voice.entries);
    let count = by.voice.count;
    match by.held {
        Held::Nothing => search::smallest(entries, count),
        Held::Sorted => search::first_sorted(entries, count, by.voice.entries.at, index),
        Held::Sparse(spacing) => sparse::first(entries, count, spacing, index),
    }
}

// What the voice has under the name of a pair, which is folded where fold is on.
fn find_pair(
    file: &[u8],
    index: &[u8],
    by: Selection,
    left: &[u8],
    right: &[u8],
    cluster: bool,
) -> Option<EntryPeriods>
    requires { Searchable file.now index.now by × ((length left.now ≤ 32) × (length right.now ≤ 32)) }
    ensures { result ≡ found_of
        (voices.lookup
        (selecting.pair_name cluster (folded_name by.fold left.now)
        (folded_name by.fold right.now))
        (voices.voice_of file.now).entries) }
{
    let mut name = [0u8; 67];
    let len = super::names::put_pair(left, right, cluster, by.fold, &mut name);
    find_name(file, index, by, &name[..len])
}

// What the voice has under a name that a pair of segments tries. `number` is the right one's.
pub fn find_tried(
    file: &[u8],
    index: &[u8],
    sheet: &[u8],
    by: Selection,
    sampled: &[usize; 256],
    left: Segment,
    right: Segment,
    number: usize,
) -> Option<EntryPeriods>
    requires { Searchable file.now index.now by ×
        ((answer_in (sheet_places sheet.now) ≡ Ok by.places) ×
        (Sampled sheet.now by.places.segments.count sampled.now ×
        (Named sheet.now left × (Named sheet.now right × Numbered sheet.now right number)))) }
    ensures { result ≡ found_of
        (selecting.tried_entry (voices.voice_of file.now)
        (selecting.folded by.fold (sheet_of sheet.now).segments)
        (selecting.folded_segment by.fold (segment_read sheet.now left))
        (selecting.folded_segment by.fold (segment_read sheet.now right))) }
{
    let left_name = voice::sections::bytes_at(sheet, left.name);
    let right_name = voice::sections::bytes_at(sheet, right.name);
    if !in_cluster(sheet, by.places, sampled, left, right, number) {
        return find_pair(file, index, by, left_name, right_name, false);
    }
    let tried = find_pair(file, index, by, left_name, right_name, true);
    tried.or_else(|| find_pair(file, index, by, left_name, right_name, false))
}

// The entry of a pair of segments: one that it finds, else the sorted first.
pub fn select(
    file: &[u8],
    index: &[u8],
    sheet: &[u8],
    by: Selection,
    sampled: &[usize; 256],
    left: Segment,
    right: Segment,
    number: usize,
) -> EntryPeriods
    requires { Searchable file.now index.now by ×
        ((answer_in (sheet_places sheet.now) ≡ Ok by.places) ×
        (Sampled sheet.now by.places.segments.count sampled.now ×
        (Named sheet.now left × (Named sheet.now right × Numbered sheet.now right number)))) }
    ensures { (result ≡ periods_of
        (selecting.entry_of (voices.voice_of file.now)
        (selecting.folded by.fold (sheet_of sheet.now).segments)
        (selecting.folded_segment by.fold (segment_read sheet.now left))
        (selecting.folded_segment by.fold (segment_read sheet.now right)))) ×
        (result.start + result.first + result.second ≤ by.voice.header.frames) }
{
    let tried = find_tried(file, index, sheet, by, sampled, left, right, number);
    tried.unwrap_or_else(|| first_entry(file, index, by))
}

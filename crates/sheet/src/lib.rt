// The call sheet: segments with their ends, pitch targets. A reader takes the sheet and a place in
// it, and answers what stands there and the place after it.
#![tactic(auto)]

ghost use Rattle.std.specs.Prelude.{ℕ, List, ◌≡◌, ◌+◌, ◌^◌, ◌≤◌, true, length, drop, Ok};
ghost use Rattle.refusal.specs.Number.{answer_of};
ghost use Rattle.sheet.specs.Sheet as sheets;
ghost use Rattle.sheet.specs.Sheet.{Got};
ghost use Rattle.sheet.specs.Answers.{Agrees, reads, says, NumberIs, NameIs, word, WordIs, ValueIs};
ghost use Rattle.sheet.specs.Answers.{SegmentSaid, SegmentIs, TargetSaid, TargetIs, ItemsIs, bytes_at, segment_read};
ghost use Rattle.sheet.specs.Followers.{name_of};
ghost use Rattle.sheet.specs.Places.{answer_in, is_read, items_in, mapped, sheet_number, sheet_places};

use base::Span;
use refusal::Refusal;

// A value of the sheet: a whole number, a float, or absent.
#[derive(Clone, Copy)]
pub enum Value {
    Int(i32),
    Float(f32),
    Absent,
}

// A phone: where its name stands in the sheet, where it ends in seconds, and the number from 1 of
// the segment next in the syllable, or 0.
#[derive(Clone, Copy)]
pub struct Segment {
    pub name: Span,
    pub end: Value,
    pub follower: usize,
}

// A pitch target: a time in seconds, and the pitch there in Hz.
#[derive(Clone, Copy)]
pub struct Target {
    pub pos: Value,
    pub f0: Value,
}

// What was read, and the place after it.
#[derive(Clone, Copy)]
pub struct Read<T> {
    pub value: T,
    pub next: usize,
}

// Segments, or targets: how many, and the place of the first.
#[derive(Clone, Copy)]
pub struct Items {
    pub count: usize,
    pub at: usize,
}

// Where a sheet has its segments and its targets.
#[derive(Clone, Copy)]
pub struct Places {
    pub segments: Items,
    pub targets: Items,
}

// The value as f32: a whole number to the nearest, ties to even; 0 where it is absent.
#[tactic(auto, unfolding(crate::specs::Sheet::as_f32))]
pub fn as_f32(value: Value) -> f32
    ensures { result ≡ sheets.as_f32 value }
{
    match value {
        Value::Int(i) => std::num::nearest_i32_to_f32(i),
        Value::Float(x) => x,
        Value::Absent => 0.0,
    }
}

// A number of at most so many groups of seven bits, the lowest first. The last group of several is
// not 0.
fn read_groups(sheet: &[u8], at: usize, left: usize, first: bool) -> Result<Read<usize>, Refusal>
    requires { left ≤ 5 }
    ensures { NumberIs sheet.now (128 ^ left) result (sheets.groups left first (drop at sheet.now)) }
{
    if left == 0 || sheet.len() <= at {
        return Err(Refusal::BadSheet);
    }
    let group = usize::from(sheet[at]);
    if group < 128 {
        if group == 0 && !first {
            return Err(Refusal::BadSheet);
        }
        return Ok(Read {
            value: group,
            next: at + 1,
        });
    }
    let high = read_groups(sheet, at + 1, left - 1, false)?;
    Ok(Read {
        value: group - 128 + 128 * high.value,
        next: high.next,
    })
}

// A number in groups of seven bits: at most five, in the shortest form.
fn read_number(sheet: &[u8], at: usize) -> Result<Read<usize>, Refusal>
    ensures { NumberIs sheet.now (2 ^ 35) result (sheets.number (drop at sheet.now)) }
{
    read_groups(sheet, at, 5, true)
}

// How many segments, or targets, follow.
fn read_count(sheet: &[u8], at: usize) -> Result<Read<usize>, Refusal>
    ensures { NumberIs sheet.now 4097 result (sheets.count (drop at sheet.now)) }
{
    let count = read_number(sheet, at)?;
    if 4096 < count.value {
        return Err(Refusal::BadSheet);
    }
    Ok(count)
}

// Whether each byte is from 33 to 126.
fn is_printable(bytes: &[u8]) -> bool
    ensures { result ≡ sheets.printable bytes.now }
{
    bytes.iter().all(|byte| (33..=126).contains(byte))
}

// A name of 0 to 32 bytes, after its length.
fn read_name(sheet: &[u8], at: usize) -> Result<Read<Span>, Refusal>
    ensures { NameIs sheet.now result (sheets.name (drop at sheet.now)) }
{
    let len = read_number(sheet, at)?;
    if 32 < len.value {
        return Err(Refusal::BadSheet);
    }
    let end = len.next + len.value;
    let Some(name) = sheet.get(len.next..end) else {
        return Err(Refusal::BadSheet);
    };
    if !is_printable(name) {
        return Err(Refusal::BadSheet);
    }
    Ok(Read {
        value: Span {
            at: len.next,
            len: len.value,
        },
        next: end,
    })
}

// A word of four bytes.
fn read_word(sheet: &[u8], at: usize) -> Result<Read<u32>, Refusal>
    requires { at ≤ length sheet.now }
    ensures { WordIs sheet.now result (word (drop at sheet.now)) }
{
    if sheet.len() - at < 4 {
        return Err(Refusal::BadSheet);
    }
    Ok(Read {
        value: base::bytes::read_u32(sheet, at),
        next: at + 4,
    })
}

// A float by its bits.
fn read_float(sheet: &[u8], at: usize) -> Result<Read<Value>, Refusal>
    requires { at ≤ length sheet.now }
    ensures { ValueIs sheet.now result (sheets.value_of 1 (drop at sheet.now)) }
{
    let word = read_word(sheet, at)?;
    let float = float::f32_from_word(word.value);
    if !float.is_finite() {
        return Err(Refusal::NotFinite);
    }
    Ok(Read {
        value: Value::Float(float),
        next: word.next,
    })
}

// A text after its length, at most 12 bytes: the float that it stands for.
fn read_text(sheet: &[u8], at: usize) -> Result<Read<Value>, Refusal>
    ensures { ValueIs sheet.now result (sheets.text (drop at sheet.now)) }
{
    let Some(&len) = sheet.get(at) else {
        return Err(Refusal::BadSheet);
    };
    if 12 < len {
        return Err(Refusal::LongText);
    }
    let end = at + 1 + usize::from(len);
    let Some(text) = sheet.get(at + 1..end) else {
        return Err(Refusal::BadSheet);
    };
    Ok(Read {
        value: Value::Float(decimal::text_to_f32(text)),
        next: end,
    })
}

// A value: kind 0 and an i32, 1 and the bits of an f32, 2 alone, or 3 and a text.
fn read_value(sheet: &[u8], at: usize) -> Result<Read<Value>, Refusal>
    ensures { ValueIs sheet.now result (sheets.value (drop at sheet.now)) }
{
    let Some(&kind) = sheet.get(at) else {
        return Err(Refusal::BadSheet);
    };
    let from = at + 1;
    match kind {
        0 => {
            let word = read_word(sheet, from)?;
            Ok(Read {
                value: Value::Int(word.value.cast_signed()),
                next: word.next,
            })
        }
        1 => read_float(sheet, from),
        2 => Ok(Read {
            value: Value::Absent,
            next: from,
        }),
        3 => read_text(sheet, from),
        _ => Err(Refusal::BadSheet),
    }
}

// A segment of a sheet with so many segments.
fn read_segment(sheet: &[u8], at: usize, count: usize) -> Result<Read<Segment>, Refusal>
    ensures { SegmentIs sheet.now count result (sheets.segment count (drop at sheet.now)) }
{
    let name = read_name(sheet, at)?;
    let end = read_value(sheet, name.next)?;
    let follower = read_number(sheet, end.next)?;
    if count < follower.value {
        return Err(Refusal::BadSheet);
    }
    let segment = Segment {
        name: name.value,
        end: end.value,
        follower: follower.value,
    };
    Ok(Read {
        value: segment,
        next: follower.next,
    })
}

// A target.
fn read_target(sheet: &[u8], at: usize) -> Result<Read<Target>, Refusal>
    ensures { TargetIs sheet.now result (sheets.target (drop at sheet.now)) }
{
    let pos = read_value(sheet, at)?;
    let f0 = read_value(sheet, pos.next)?;
    Ok(Read {
        value: Target {
            pos: pos.value,
            f0: f0.value,
        },
        next: f0.next,
    })
}

// What a sheet has many of: a segment, or a target.
trait Item: Copy {
    // what it means, and the definition's reading of one where so many segments are in the sheet
    ghost Meaning: { Type 0 };

    ghost meaning: { List ℕ → Self → Meaning };

    ghost one: { ℕ → List ℕ → Got Meaning };

    // One of them, of a sheet with so many segments.
    fn read(sheet: &[u8], at: usize, count: usize) -> Result<Read<Self>, Refusal>
        ensures { Agrees sheet.now (meaning sheet.now) (λ x. Unit) (says result)
            (one count (drop at sheet.now)) };
}

impl Item for Segment {
    ghost Meaning = { sheets.SegmentRead };

    ghost meaning = { segment_read };

    ghost one = { sheets.segment };

    fn read(sheet: &[u8], at: usize, count: usize) -> Result<Read<Segment>, Refusal> {
        read_segment(sheet, at, count)
    }
}

impl Item for Target {
    ghost Meaning = { Self };

    ghost meaning = { λ sheet t. t };

    ghost one = { λ n. sheets.target };

    fn read(sheet: &[u8], at: usize, _count: usize) -> Result<Read<Target>, Refusal> {
        read_target(sheet, at)
    }
}

// So many segments, or targets, after their count.
fn read_items<T: Item>(sheet: &[u8], at: usize) -> Result<Read<Items>, Refusal>
    ensures { ItemsIs sheet.now result
        (mapped (items_in sheet.now) (sheets.counted T.one (drop at sheet.now))) }
{
    let count = read_count(sheet, at)?;
    let mut place = count.next;
    for _ in 0..count.value {
        place = T::read(sheet, place, count.value)?.next;
    }
    Ok(Read {
        value: Items {
            count: count.value,
            at: count.next,
        },
        next: place,
    })
}

// Reads a sheet: its parts, or the first 8, 9 or 17.
pub fn read_sheet(sheet: &[u8]) -> Result<Places, Refusal>
    ensures { (result ≡ answer_in (sheet_places sheet.now)) ×
        (sheet_number result ≡ answer_of (sheets.sheet_refusal sheet.now)) }
{
    let segments = read_items::<Segment>(sheet, 0)?;
    let targets = read_items::<Target>(sheet, segments.next)?;
    let end = targets.next;
    if end < sheet.len() {
        return Err(Refusal::BadSheet);
    }
    Ok(Places {
        segments: segments.value,
        targets: targets.value,
    })
}

// The segment at a place that the reading of the sheet reached.
pub fn segment_at(sheet: &[u8], at: usize, count: usize) -> Read<Segment>
    requires { is_read (sheets.segment count (drop at sheet.now)) ≡ true }
    ensures { SegmentSaid sheet.now count (reads result.value result.next)
        (sheets.segment count (drop at sheet.now)) }
{
    read_segment(sheet, at, count).unwrap()
}

// The target at a place that the reading of the sheet reached.
pub fn target_at(sheet: &[u8], at: usize) -> Read<Target>
    requires { is_read (sheets.target (drop at sheet.now)) ≡ true }
    ensures { TargetSaid sheet.now (reads result.value result.next) (sheets.target (drop at sheet.now)) }
{
    read_target(sheet, at).unwrap()
}

// Where the name stands of the segment with a number from 1; nowhere for 0, or a number above the
// count.
pub fn name_of(sheet: &[u8], places: Places, number: usize) -> Span
    requires { answer_in (sheet_places sheet.now) ≡ Ok places }
    ensures { (bytes_at sheet.now result ≡ name_of (sheets.sheet_of sheet.now).segments number) ×
        (result.at + result.len ≤ length sheet.now) }
{
    let segments = places.segments;
    if number == 0 || segments.count < number {
        return Span { at: 0, len: 0 };
    }
    let mut at = segments.at;
    for _ in 1..number {
        at = segment_at(sheet, at, segments.count).next;
    }
    let found = segment_at(sheet, at, segments.count);
    found.value.name
}

// Names: UTF-8, white space around them, their order.
#![tactic(auto)]

pub mod trim;

ghost use Rattle.std.specs.Prelude.{◌≡◌, ◌≤◌, eqb, length, drop};
ghost use Rattle.base.specs.Choice.{pick};
ghost use Rattle.text.specs.Names as names;
ghost use Rattle.text.specs.Utf8 as utf8s;

use std::cmp::Ordering;

// What the next byte of a text may be, between two bytes of it: how many bytes the character still
// needs, and the bounds of the next of them. Where the text is not UTF-8 there is no such thing.
#[derive(Clone, Copy)]
pub struct Wait {
    pub left: u8,
    pub low: u8,
    pub high: u8,
}

// No character is open.
const START: Wait = Wait {
    left: 0,
    low: 0,
    high: 0,
};

// The bound that holds where the byte is the special one, and that which holds elsewhere.
fn bound(b: u8, special: u8, there: u8, elsewhere: u8) -> u8
    ensures { result ≡ pick (eqb b special) there elsewhere }
{
    if b == special { there } else { elsewhere }
}

// After the first byte of a character.
#[tactic(auto, unfolding(crate::specs::Utf8::lead))]
fn lead(b: u8) -> Option<Wait>
    ensures { result ≡ utf8s.lead b }
{
    if b < 0x80 {
        Some(START)
    } else if b < 0xC2 {
        None
    } else if b < 0xE0 {
        Some(Wait {
            left: 1,
            low: 0x80,
            high: 0xBF,
        })
    } else if b < 0xF0 {
        Some(Wait {
            left: 2,
            low: bound(b, 0xE0, 0xA0, 0x80),
            high: bound(b, 0xED, 0x9F, 0xBF),
        })
    } else if b < 0xF5 {
        Some(Wait {
            left: 3,
            low: bound(b, 0xF0, 0x90, 0x80),
            high: bound(b, 0xF4, 0x8F, 0xBF),
        })
    } else {
        None
    }
}

// After one byte more.
#[tactic(auto, unfolding(crate::specs::Utf8::step))]
fn step(w: Option<Wait>, b: u8) -> Option<Wait>
    ensures { result ≡ utf8s.step w b }
{
    let Wait { left, low, high } = w?;
    if left == 0 {
        lead(b)
    } else if low <= b && b <= high {
        Some(Wait {
            left: left - 1,
            low: 0x80,
            high: 0xBF,
        })
    } else {
        None
    }
}

// No character is left open.
#[tactic(auto, unfolding(crate::specs::Utf8::complete))]
fn complete(w: Option<Wait>) -> bool
    ensures { result ≡ utf8s.complete w }
{
    matches!(w, Some(Wait { left: 0, .. }))
}

// A place up to which all is ASCII: that of the first byte that is not, or the end.
fn ascii_end(s: &[u8]) -> usize
    ensures { (result ≤ length s.now) ×
        (utf8s.utf8 (drop result s.now) ≡ utf8s.utf8 s.now) }
{
    for i in 0..s.len() {
        if s[i] >= 0x80 {
            return i;
        }
    }
    s.len()
}

// Whether the bytes are UTF-8.
pub fn utf8(s: &[u8]) -> bool
    ensures { result ≡ utf8s.utf8 s.now }
{
    let mut w = Some(START);
    for b in &s[ascii_end(s)..] {
        w = step(w, *b);
    }
    complete(w)
}

// How many bytes of two names are compared one by one, before the library compares the names: most differ there.
const FIRST_BYTES: usize = 8;

// How the name a stands to the name b, in the order by bytes.
#[tactic(auto, using(crate::proofs::NameLaws::order_is))]
pub fn compare(a: &[u8], b: &[u8]) -> Ordering
    ensures { result ≡ names.order_of a.now b.now }
{
    for i in 0..a.len().min(b.len()).min(FIRST_BYTES) {
        if a[i] < b[i] {
            return Ordering::Less;
        }
        if b[i] < a[i] {
            return Ordering::Greater;
        }
    }
    a.cmp(&b)
}

// Whether two names are the same.
#[tactic(auto, using(crate::proofs::NameLaws::same_is))]
pub fn same(a: &[u8], b: &[u8]) -> bool
    ensures { result ≡ names.same a.now b.now }
{
    a == b
}

// The phones of US English, and whether one is a vowel.
#![tactic(auto)]

ghost use Rattle.std.specs.Prelude.{◌≡◌, map, take, min};
ghost use Rattle.text.specs.Names.{among};
ghost use Rattle.phoneset.specs.Phones as phones;

// A phone's feature `vc`: `+` for a vowel, `-` for another phone, `0` for a name that is no phone.
#[derive(Clone, Copy, PartialEq, Eq)]
pub enum Vc {
    Plus,
    Minus,
    Zero,
}

// The phones whose `vc` is `+`: of each name its length, of at most four, and its bytes, with spaces
// after them. No row points elsewhere, so that a loader has nothing to write into the table.
static VOWELS: [(usize, [u8; 4]); 20] = [
    (2, *b"aa  "),
    (2, *b"ae  "),
    (2, *b"ah  "),
    (2, *b"ao  "),
    (2, *b"aw  "),
    (2, *b"ax  "),
    (3, *b"axr "),
    (2, *b"ay  "),
    (2, *b"eh  "),
    (2, *b"el  "),
    (2, *b"em  "),
    (2, *b"en  "),
    (2, *b"er  "),
    (2, *b"ey  "),
    (2, *b"ih  "),
    (2, *b"iy  "),
    (2, *b"ow  "),
    (2, *b"oy  "),
    (2, *b"uh  "),
    (2, *b"uw  "),
];

// The phones whose `vc` is `-`, likewise.
static CONSONANTS: [(usize, [u8; 4]); 30] = [
    (1, *b"b   "),
    (2, *b"ch  "),
    (1, *b"d   "),
    (2, *b"dh  "),
    (2, *b"dx  "),
    (1, *b"f   "),
    (1, *b"g   "),
    (2, *b"hh  "),
    (2, *b"hv  "),
    (2, *b"jh  "),
    (1, *b"k   "),
    (1, *b"l   "),
    (1, *b"m   "),
    (1, *b"n   "),
    (2, *b"nx  "),
    (2, *b"ng  "),
    (1, *b"p   "),
    (1, *b"r   "),
    (1, *b"s   "),
    (2, *b"sh  "),
    (1, *b"t   "),
    (2, *b"th  "),
    (1, *b"v   "),
    (1, *b"w   "),
    (1, *b"y   "),
    (1, *b"z   "),
    (2, *b"zh  "),
    (3, *b"pau "),
    (2, *b"h#  "),
    (4, *b"brth"),
];

// Whether the name is one of a table's.
fn is_among(name: &[u8], names: &[(usize, [u8; 4])]) -> bool
    ensures { result ≡ among name.now (map (λ n. take (min n.0 4) n.1) names.now) }
{
    names
        .iter()
        .any(|(len, bytes)| &bytes[..(*len).min(4)] == name)
}

// The feature `vc` of a phone.
pub fn vc_of(name: &[u8]) -> Vc
    ensures { result ≡ phones.vc name.now }
{
    if is_among(name, &VOWELS) {
        Vc::Plus
    } else if is_among(name, &CONSONANTS) {
        Vc::Minus
    } else {
        Vc::Zero
    }
}

// Whether a phone is a vowel.
pub fn is_vowel(name: &[u8]) -> bool
    ensures { result ≡ phones.is_vowel name.now }
{
    vc_of(name) == Vc::Plus
}

// The voice file's sections.
#![tactic(auto)]

ghost use Rattle.std.specs.Prelude.{◌≡◌, true, ◌+◌, ◌<◌, ◌≤◌, length, get_or, drop};
ghost use Rattle.base.specs.Text.{ascii};
ghost use Rattle.text.specs.Names.{same};
ghost use Rattle.text.specs.Trim.{trim_end};
ghost use Rattle.container.specs.Sections as parts;

use base::Span;

// Whether the file begins with `FLRSDAT` and 0x01.
pub fn has_magic(file: &[u8]) -> bool
    ensures { result ≡ parts.has_magic file.now }
{
    8 <= file.len() && text::same(&file[..8], b"FLRSDAT\x01")
}

// The length of the name of the section at a place.
fn name_length(file: &[u8], at: usize) -> usize
    requires { at < length file.now }
    ensures { (result ≡ get_or file.now at 0) × (result ≤ 255) }
{
    file[at] as usize
}

// Whether the section at a place is not cut short and its name is UTF-8.
fn is_whole(file: &[u8], at: usize) -> bool
    requires { at < length file.now }
    ensures { result ≡ parts.is_whole file.now at }
{
    let from = at + 1;
    let place = from + name_length(file, at);
    place + 4 <= file.len()
        && text::utf8(&file[from..place])
        && place + 4 + base::bytes::read_u32(file, place) as usize <= file.len()
}

// Where the data of a section stand that is whole.
fn data_of(file: &[u8], at: usize) -> Span
    requires { (at < length file.now) × (parts.is_whole file.now at ≡ true) }
    ensures { (result ≡ (parts.section_at file.now at).span) ×
        ((at + 5 ≤ result.at) × (result.at + result.len ≤ length file.now)) }
{
    let place = at + 1 + name_length(file, at);
    Span {
        at: place + 4,
        len: base::bytes::read_u32(file, place) as usize,
    }
}

// Whether the file is sections from its ninth byte on, none cut short, each name UTF-8.
pub fn has_whole_sections(file: &[u8]) -> bool
    ensures { result ≡ (parts.sections file.now).whole }
{
    let mut at = 8;
    while at < file.len() {
        if !is_whole(file, at) {
            return false;
        }
        let data = data_of(file, at);
        at = data.at + data.len;
    }
    true
}

// The first section of a name.
pub fn find(file: &[u8], name: &[u8]) -> Option<Span>
    ensures { result ≡ parts.find name.now (parts.sections file.now).list }
{
    let mut at = 8;
    while at < file.len() {
        if !is_whole(file, at) {
            return None;
        }
        let data = data_of(file, at);
        let from = at + 1;
        let to = data.at - 4;
        if text::same(&file[from..to], name) {
            return Some(data);
        }
        at = data.at + data.len;
    }
    None
}

// Where the data of a section stand; nothing where it is missing.
pub fn span_of(found: Option<Span>) -> Span
    ensures { result ≡ parts.span_of found }
{
    found.unwrap_or(Span { at: 0, len: 0 })
}

// Whether the text from a place on is `diphone`, but for white space after it.
fn is_diphone_from(s: &[u8], from: usize) -> bool
    requires { from ≤ length s.now }
    ensures { result ≡ same (trim_end (drop from s.now)) (ascii "diphone") }
{
    let end = from + 7;
    end <= s.len() && text::same(&s[from..end], b"diphone") && text::trim::skip(s, end) == s.len()
}

// Whether the bytes are UTF-8 and say `diphone`, but for white space around it.
fn names_diphone(s: &[u8]) -> bool
    ensures { result ≡ parts.names_diphone s.now }
{
    text::utf8(s) && is_diphone_from(s, text::trim::skip(s, 0))
}

// Whether `Container::backend` gives `Diphone`.
pub fn is_diphone(file: &[u8]) -> bool
    ensures { result ≡ parts.is_diphone file.now }
{
    match find(file, b"voice.backend") {
        Some(data) => {
            let from = data.at;
            let end = from + data.len;
            names_diphone(&file[from..end])
        }
        None => true,
    }
}

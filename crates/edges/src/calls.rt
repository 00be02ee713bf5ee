// Whole calls at the edges of what document 01 admits.
use crate::pulls::front;
use crate::{answers, pulls};
use call::Planned;
use std::io;

const SIMPLE: u32 = call::JOIN_SIMPLE + call::FILTER_FIXED;

const MODIFIED: u32 = call::JOIN_MODIFIED + call::FILTER_FIXED;

// Makes a call with the settings of a word that is lent so many bytes of each buffer: index, marks,
// sizes, rows, excitation and decoded.
fn plan(voice: &[u8], sheet: &[u8], settings: u32, lens: [usize; 6]) -> Planned {
    let mut index = [0u8; 16];
    let mut marks = [0u8; 262144];
    let mut sizes = [0u8; 32760];
    let mut rows = [0u8; 192];
    let mut excitation = [0u8; 20475];
    let mut decoded = [0u8; 16];
    diphone::plan(
        voice,
        sheet,
        call::settings_of(settings),
        front(&mut index, lens[0]),
        front(&mut marks, lens[1]),
        front(&mut sizes, lens[2]),
        front(&mut rows, lens[3]),
        front(&mut excitation, lens[4]),
        front(&mut decoded, lens[5]),
    )
}

// Makes the call by the modified join, and prints its answer.
fn make<R: Print>(rt: &R, voice: &[u8], sheet: &[u8], lens: [usize; 6]) -> io::Result<()> {
    let planned = plan(voice, sheet, MODIFIED, lens);
    answers::called(rt, planned.answer)
}

// A sheet of segments with no name. By the simple join each of 4,095 pairs gives the two periods, of 2
// and 3 samples, of the voice's one entry.
pub fn try_segments<R: Print>(rt: &R, voice: &[u8], sheet: &[u8]) -> io::Result<()> {
    let lens = [8, 32760, 32760, 0, 20475, 0];
    let planned = plan(voice, sheet, SIMPLE, lens);
    answers::called(rt, planned.answer)
}

// A sheet of 65,536 marks and more. Both target ends are 0, and so are the first eight marks.
pub fn try_marks<R: Print>(rt: &R, voice: &[u8], sheet: &[u8]) -> io::Result<()> {
    make(rt, voice, sheet, [8, 262144, 32, 0, 0, 0])
}

// Order 32 speaks, 33 is refused. The call needs two entries of 8 bytes, four marks of 4, three sizes
// of 4, three rows of 32 values of 2, 64 bytes of excitation, and 16 to decode its voice's longest
// period.
pub fn try_orders<R: Print>(rt: &R, voice: &[u8], higher: &[u8], sheet: &[u8]) -> io::Result<()> {
    print!(rt; "order 32, buffers exactly full: ")?;
    make(rt, voice, sheet, [16, 16, 12, 192, 64, 16])?;
    print!(rt; "order 33: ")?;
    make(rt, higher, sheet, [16, 16, 12, 192, 64, 16])
}

// Each buffer in turn is an element short.
pub fn try_elements<R: Print>(rt: &R, voice: &[u8], sheet: &[u8]) -> io::Result<()> {
    let cases = [
        ("index", [8, 16, 12, 192, 64, 16]),
        ("marks", [16, 12, 12, 192, 64, 16]),
        ("sizes", [16, 16, 8, 192, 64, 16]),
        ("rows", [16, 16, 12, 190, 64, 16]),
        ("excitation", [16, 16, 12, 192, 63, 16]),
        ("decoded", [16, 16, 12, 192, 64, 15]),
    ];
    for (buffer, lens) in cases {
        print!(rt; "{buffer} one element short: ")?;
        make(rt, voice, sheet, lens)?;
    }
    Ok(())
}

// Each buffer whose elements have more than a byte is a byte short.
pub fn try_bytes<R: Print>(rt: &R, voice: &[u8], sheet: &[u8]) -> io::Result<()> {
    let cases = [
        ("index", [15, 16, 12, 192, 64, 16]),
        ("marks", [16, 15, 12, 192, 64, 16]),
        ("sizes", [16, 16, 11, 192, 64, 16]),
        ("rows", [16, 16, 12, 191, 64, 16]),
    ];
    for (buffer, lens) in cases {
        print!(rt; "{buffer} one byte short: ")?;
        make(rt, voice, sheet, lens)?;
    }
    Ok(())
}

// A call of no segments and no targets, and a pull from it that is lent nothing.
fn speak_nothing<R: Print>(rt: &R, voice: &[u8], index: usize, decoded: usize) -> io::Result<()> {
    let sheet = [0u8; 2];
    let lens = [index, 0, 0, 0, 0, decoded];
    let planned = plan(voice, &sheet, MODIFIED, lens);
    answers::called(rt, planned.answer)?;
    let mut samples = [0u8; 2];
    print!(rt; "a pull, all empty: ")?;
    pulls::make(rt, planned.state, b"", b"", b"", &mut samples, 0)?;
    Ok(())
}

// A call of nothing at all; by a voice in mu-law with one entry, an empty file as sheet, and a sheet
// of no segments and no targets.
pub fn try_empty<R: Print>(rt: &R, voice: &[u8]) -> io::Result<()> {
    let none = [0u8; 2];
    print!(rt; "all empty: ")?;
    make(rt, b"", b"", [0, 0, 0, 0, 0, 0])?;
    print!(rt; "empty file as sheet: ")?;
    make(rt, voice, b"", [8, 0, 0, 0, 0, 0])?;
    print!(rt; "no segments, mu-law, no buffer: ")?;
    make(rt, voice, &none, [0, 0, 0, 0, 0, 0])?;
    print!(rt; "no segments, mu-law, index alone: ")?;
    speak_nothing(rt, voice, 8, 0)
}

// A sheet of no segments by a voice in G.721, which needs its decode buffer in every call.
pub fn try_empty_g721<R: Print>(rt: &R, voice: &[u8]) -> io::Result<()> {
    let none = [0u8; 2];
    print!(rt; "no segments, G.721, index alone: ")?;
    make(rt, voice, &none, [16, 0, 0, 0, 0, 0])?;
    print!(rt; "no segments, G.721, index and decoded: ")?;
    speak_nothing(rt, voice, 16, 16)
}

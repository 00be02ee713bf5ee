// Tries the edges of document 01 as it runs, most of them through whole calls and their pulls.
#![tactic(auto)]

mod answers;
mod calls;
mod pulls;

ghost use Rattle.std.specs.Prelude.{◌≡◌, ◌+◌, ◌*◌, ◌<◌, ◌≤◌, length, Ok};
ghost use Rattle.io.specs.Counts.{IsPrefixLen};
ghost use Rattle.sheet.specs.Places.{sheet_places, answer_in};

use sheet::Places;
use std::fs::File;
use std::io;
use std::rt::Files;

// Makes a sheet of n segments with no name, no end and no follower, and of no targets, of a buffer
// of zeros: the count in two groups, and for each segment its value's kind, absent.
fn put_segments(buf: &mut [u8], n: usize)
    requires { (128 ≤ n) × ((n < 16384) × (3 * n + 3 ≤ length buf.old)) }
{
    buf[0] = (n % 128 + 128) as u8;
    buf[1] = (n / 128) as u8;
    for i in 0..n {
        buf[3 * i + 3] = 2;
    }
}

fn print_segments<R: Print>(rt: &R, sheet: &[u8]) -> io::Result<()> {
    match sheet::read_sheet(sheet) {
        Err(cause) => answers::refused(rt, cause),
        Ok(places) => { println!(rt; "{} segments read", places.segments.count) }
    }
}

fn print_marks_of<R: Print>(rt: &R, sheet: &[u8], places: Places) -> io::Result<()>
    requires { answer_in (sheet_places sheet.now) ≡ Ok places }
{
    match marks::check_marks(sheet, places, 8000, 16777215) {
        Err(cause) => answers::refused(rt, cause),
        Ok(counts) => println!(rt; "{} marks made", counts.marks),
    }
}

fn print_marks<R: Print>(rt: &R, sheet: &[u8]) -> io::Result<()> {
    match sheet::read_sheet(sheet) {
        Err(cause) => answers::refused(rt, cause),
        Ok(places) => print_marks_of(rt, sheet, places),
    }
}

fn try_segments<R: Print>(rt: &R, voice: &[u8]) -> io::Result<()> {
    let mut sheet = [0u8; 12291];
    put_segments(&mut sheet, 4096);
    print!(rt; "4096 segments: ")?;
    print_segments(rt, &sheet)?;
    print!(rt; "4096 segments, a call: ")?;
    calls::try_segments(rt, voice, &sheet)?;
    let mut longer = [0u8; 12294];
    put_segments(&mut longer, 4097);
    print!(rt; "4097 segments: ")?;
    print_segments(rt, &longer)?;
    print!(rt; "4097 segments, a call: ")?;
    calls::try_segments(rt, voice, &longer)
}

// From the time 0 on at 65,536 Hz, up to 1 second, and to the next f32 after that.
fn try_marks<R: Print>(rt: &R) -> io::Result<()> {
    let second = [
        0, 2, 1, 0, 0, 0, 0, 1, 0, 0, 128, 71, 1, 0, 0, 128, 63, 1, 0, 0, 128, 71,
    ];
    print!(rt; "65536 marks: ")?;
    print_marks(rt, &second)?;
    let later = [
        0, 2, 1, 0, 0, 0, 0, 1, 0, 0, 128, 71, 1, 1, 0, 128, 63, 1, 0, 0, 128, 71,
    ];
    print!(rt; "65537 marks: ")?;
    print_marks(rt, &later)
}

// The same in calls.
fn try_calls_of_marks<R: Files + Print>(rt: &R, voice: &[u8]) -> io::Result<()> {
    let mut second = [0u8; 4096];
    let mut later = [0u8; 4096];
    let s = read_file(rt, "65536.sht", &mut second);
    let l = read_file(rt, "65537.sht", &mut later);
    print!(rt; "65536 marks, a call: ")?;
    calls::try_marks(rt, voice, &second[..s])?;
    print!(rt; "65537 marks, a call: ")?;
    calls::try_marks(rt, voice, &later[..l])
}

// Reads a file to the front of a buffer, and says how many bytes: 0 where it cannot be read.
fn read_file<R: Files + Print>(rt: &R, path: &str, buf: &mut [u8]) -> usize
    ensures { IsPrefixLen result buf.new }
{
    let Ok(mut file) = File::open(rt, path) else {
        let _ = println!(rt; "{path} cannot be read");
        return 0;
    };
    files::read_full(&mut file, buf)
}

// Limits that document 01's voice will do for.
fn try_limits<R: Files + Print>(rt: &R, voice: &[u8]) -> io::Result<()> {
    try_segments(rt, voice)?;
    try_marks(rt)?;
    try_calls_of_marks(rt, voice)
}

// The call of call.sht by a voice of order 32, and pulls.
fn try_call<R: Files + Print>(rt: &R, voice: &[u8]) -> io::Result<()> {
    let mut higher = [0u8; 4096];
    let mut sheet = [0u8; 4096];
    let h = read_file(rt, "order33.flv", &mut higher);
    let s = read_file(rt, "call.sht", &mut sheet);
    calls::try_orders(rt, voice, &higher[..h], &sheet[..s])?;
    calls::try_elements(rt, voice, &sheet[..s])?;
    calls::try_bytes(rt, voice, &sheet[..s])?;
    pulls::try_all(rt)
}

fn main(rt: HostRuntime) -> io::Result<()> {
    let mut example = [0u8; 4096];
    let mut voice = [0u8; 4096];
    let e = read_file(&rt, "example.flv", &mut example);
    let v = read_file(&rt, "order32.flv", &mut voice);
    try_limits(&rt, &example[..e])?;
    try_call(&rt, &voice[..v])?;
    calls::try_empty(&rt, &example[..e])?;
    calls::try_empty_g721(&rt, &voice[..v])
}

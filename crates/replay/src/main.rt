// Makes stored calls and compares their texts with those that the Rust's answers made. data/README tells
// what is in the file `calls`, and its format.
#![tactic(auto)]

ghost use Rattle.std.specs.Prelude.{◌≡◌, ◌<◌, ◌≤◌, length, get_or};
ghost use Rattle.text.specs.Names.{same};
ghost use Rattle.lines.specs.Lines.{Puts};
ghost use Rattle.lines.specs.Lines as lines;
ghost use Rattle.call.specs.Numbers.{settings_of};
ghost use Rattle.replay.specs.Stored as stored;
ghost use Rattle.replay.specs.Tallies as tally;

use call::Settings;
use std::fs::File;
use std::io;
use std::io::Read;

// ---- counting

// The last number of a refusal, by document 02; the kinds of a stored text are 0, spoken, up to this.
const LAST_KIND: usize = 22;

// How many calls there were, how many of them disagree, the number of the first of those, how many stored
// texts there were of each kind (0 spoken, n refused n), and how many periods these have.
#[derive(Clone, Copy)]
struct Tally {
    calls: usize,
    wrong: usize,
    first: usize,
    kinds: [usize; 23],
    periods: usize,
}

impl Tally {
    fn none() -> Tally
        ensures { result ≡ tally.none }
    {
        Tally {
            calls: 0,
            wrong: 0,
            first: 0,
            kinds: [0; 23],
            periods: 0,
        }
    }

    fn wrong_with(self, agrees: bool) -> usize
        requires { tally.Sound self × (self.calls < 65536) }
        ensures { result ≡ tally.wrong_with self agrees }
    {
        if agrees { self.wrong } else { self.wrong + 1 }
    }

    fn first_with(self, agrees: bool) -> usize
        requires { self.calls < 65536 }
        ensures { result ≡ tally.first_with self agrees }
    {
        if !agrees && self.wrong == 0 {
            self.calls + 1
        } else {
            self.first
        }
    }

    // One more call.
    fn counted(self, kind: usize, periods: usize, agrees: bool) -> Tally
        requires { tally.Sound self × ((self.calls < 65536) × ((kind ≤ stored.last_kind) × (periods ≤ 65536))) }
        ensures { (result ≡ tally.counted self kind periods agrees) × tally.Sound result }
    {
        let mut kinds = self.kinds;
        kinds[kind] += 1;
        Tally {
            calls: self.calls + 1,
            wrong: self.wrong_with(agrees),
            first: self.first_with(agrees),
            kinds,
            periods: self.periods + periods,
        }
    }
}

// ---- the head of a stored call

// The settings of a byte.
fn settings_in(byte: u8) -> Settings
    ensures { result ≡ settings_of byte }
{
    call::settings_of(u32::from(byte))
}

const LIMITS: [usize; 9] = [
    transcript::VOICE_LIMIT,
    transcript::SHEET_LIMIT,
    8192,
    4096,
    4096,
    2048,
    4096,
    1024,
    41000,
];

// Whether no length of a head is above its limit.
fn fits(head: &[u8]) -> bool
    requires { length head.now ≡ 20 }
    ensures { result ≡ stored.fits head.now }
{
    for i in 0..LIMITS.len() {
        if LIMITS[i] < usize::from(base::bytes::u16_at(head, i + 1)) {
            return false;
        }
    }
    true
}

// Length i of a head that fits.
fn length_at(head: &[u8], i: usize) -> usize
    requires { stored.Fits head.now × (i < 9) }
    ensures { (result ≡ stored.length_at head.now i) × (result ≤ get_or stored.limits i 0) }
{
    usize::from(base::bytes::u16_at(head, i + 1))
}

// ---- a stored call

// Makes the call of a head, a voice and a sheet, and puts its text to the front of `out`.
fn put_text(head: &[u8], voice: &[u8], sheet: &[u8], out: &mut [u8]) -> usize
    requires { stored.Fits head.now × (41000 ≤ length out.old) }
    ensures puts { Puts out.old 0 (stored.text_of head.now voice.now sheet.now)
        out.new result }
    ensures upper_bound { result ≤ 41000 }
{
    let mut index = [0u8; 8192];
    let mut marks = [0u8; 4096];
    let mut sizes = [0u8; 4096];
    let mut rows = [0u8; 2048];
    let mut excitation = [255u8; 4096];
    let mut decoded = [0u8; 1024];
    let a = length_at(head, 2);
    let b = length_at(head, 3);
    let c = length_at(head, 4);
    let d = length_at(head, 5);
    let e = length_at(head, 6);
    let f = length_at(head, 7);
    transcript::put_call(
        voice,
        sheet,
        settings_in(head[1]),
        &mut index[..a],
        &mut marks[..b],
        &mut sizes[..c],
        &mut rows[..d],
        &mut excitation[..e],
        &mut decoded[..f],
        out,
    )
}

// Whether a stored call's text is that of the call.
fn agrees(head: &[u8], voice: &[u8], sheet: &[u8], want: &[u8]) -> bool
    requires { stored.Fits head.now }
    ensures { result ≡ stored.agrees head.now voice.now sheet.now want.now }
{
    let mut out = [0u8; 65536];
    let n = put_text(head, voice, sheet, &mut out);
    text::same(&out[..n], want)
}

// Whether a text is that of the refusal of a number.
fn is_refused(number: usize, text: &[u8]) -> bool
    requires { number ≤ stored.last_kind }
    ensures { result ≡ same (lines.refused number) text.now }
{
    let mut line = [0u8; 14];
    let n = lines::put_refused(number as u32, &mut line);
    text::same(&line[..n], text)
}

// The kind of a text: the number of its refusal, else 0.
fn kind_of(text: &[u8]) -> usize
    ensures { (result ≡ stored.kind_of text.now) × (result ≤ stored.last_kind) }
{
    for number in (1..LAST_KIND + 1).rev() {
        if is_refused(number, text) {
            return number;
        }
    }
    0
}

// How many lines a text has.
fn lines_in(text: &[u8]) -> usize
    ensures { (result ≡ stored.lines_in text.now) × (result ≤ length text.now) }
{
    text.iter().filter(|byte| **byte == b'\n').count()
}

// How many periods a text has: its lines after the first.
fn periods_in(text: &[u8]) -> usize
    ensures { (result ≡ stored.periods_in text.now) × (result ≤ length text.now) }
{
    lines_in(text).saturating_sub(1)
}

// ---- the file

// What the file has next: its end, something else than a call, or a call, with the length of its voice,
// its text's kind and periods, and whether it agrees.
#[derive(Clone, Copy)]
enum Found {
    End,
    Damaged,
    Call(usize, usize, usize, bool),
}

// Reads n bytes to the front of a buffer, and says whether the file had them.
fn read_part<F: Read>(file: &mut F, buf: &mut [u8], n: usize) -> bool
    requires { n ≤ length buf.old }
{
    files::read_full(file, &mut buf[..n]) == n
}

// A stored call, made and compared.
fn compared(head: &[u8], voice: &[u8], sheet: &[u8], want: &[u8]) -> Found
    requires { stored.Fits head.now × ((length voice.now ≤ 32768) × (length want.now ≤ 41000)) }
    ensures { (result ≡ stored.compared head.now voice.now sheet.now want.now) ×
        stored.Sound result }
{
    Found::Call(
        voice.len(),
        kind_of(want),
        periods_in(want),
        agrees(head, voice, sheet, want),
    )
}

// A call whose head was read, and its voice, the first v bytes of `voice`.
fn next_compared<F: Read>(file: &mut F, head: &[u8], voice: &[u8], v: usize) -> Found
    requires { stored.Fits head.now × ((v ≤ 32768) × (length voice.now ≡ 32768)) }
    ensures { stored.Sound result }
{
    let mut sheet = [0u8; 4096];
    let mut want = [0u8; 65536];
    let s = length_at(head, 1);
    let w = length_at(head, 8);
    if !read_part(file, &mut sheet, s) || !read_part(file, &mut want, w) {
        return Found::Damaged;
    }
    compared(head, &voice[..v], &sheet[..s], &want[..w])
}

// A call whose head was read. Its voice follows, or it is that of the call before, the first v bytes of
// `voice`.
fn next_call<F: Read>(file: &mut F, head: &[u8], voice: &mut [u8], v: usize) -> Found
    requires { stored.Fits head.now × ((v ≤ 32768) × (length voice.old ≡ 32768)) }
    ensures { stored.Sound result }
{
    if head[0] == 0 {
        return next_compared(file, head, voice, v);
    }
    let n = length_at(head, 0);
    if !read_part(file, voice, n) {
        return Found::Damaged;
    }
    next_compared(file, head, voice, n)
}

// What the file has next; the first v bytes of `voice` are the voice of the call before.
fn next<F: Read>(file: &mut F, voice: &mut [u8], v: usize) -> Found
    requires { (v ≤ 32768) × (length voice.old ≡ 32768) }
    ensures { stored.Sound result }
{
    let mut head = [0u8; 20];
    let n = files::read_full(file, &mut head);
    if n == 0 {
        return Found::End;
    }
    if n < 20 || !fits(&head) {
        return Found::Damaged;
    }
    next_call(file, &head, voice, v)
}

// All calls up to the file's end or damage, at most 65,535.
fn replay<R: Print, F: Read>(rt: &R, file: &mut F) -> Tally
    ensures { tally.Sound result }
{
    let mut voice = [0u8; 32768];
    let mut v = 0;
    let mut t = Tally::none();
    while t.calls < 65535 {
        match next(file, &mut voice, v) {
            Found::End => return t,
            Found::Damaged => break,
            Found::Call(n, kind, periods, same) => {
                t = t.counted(kind, periods, same);
                v = n;
            }
        }
    }
    let _ = println!(rt; "the file is damaged at call {}", t.calls + 1);
    t
}

// A line: how many stored texts are of a kind, if any is.
fn print_kind<R: Print>(rt: &R, kind: usize, count: usize) -> io::Result<()> {
    if count == 0 {
        return Ok(());
    }
    if kind == 0 {
        println!(rt; "spoken: {count}")
    } else {
        println!(rt; "refused {kind}: {count}")
    }
}

fn print_kinds<R: Print>(rt: &R, kinds: [usize; 23]) -> io::Result<()> {
    for (kind, count) in kinds.iter().enumerate() {
        print_kind(rt, kind, *count)?;
    }
    Ok(())
}

fn print_tally<R: Print>(rt: &R, t: Tally) -> io::Result<()> {
    print_kinds(rt, t.kinds)?;
    print!(rt;
        "{} calls, {} periods, {} disagree",
        t.calls, t.periods, t.wrong
    )?;
    if t.wrong > 0 {
        print!(rt; ", the first is call {}", t.first)?;
    }
    println!(rt; "")
}

fn main(rt: HostRuntime) -> io::Result<()> {
    let Ok(mut file) = File::open(&rt, "calls") else {
        return print_tally(&rt, Tally::none());
    };
    let t = replay(&rt, &mut file);
    print_tally(&rt, t)
}

// Compares mu-law and the G.721 decoder with vectors that other implementations made.
#![tactic(auto)]

ghost use Rattle.std.specs.Prelude.{◌≡◌, ℕ, ◌+◌, ◌*◌, ◌/◌, ◌%◌, ◌<◌, ◌≤◌, eqb, length};
ghost use Rattle.base.specs.Bytes.{u16_at};
ghost use Rattle.base.specs.Choice.{pick};
ghost use Rattle.vectors.specs.Tallies as tally;
ghost use Rattle.vectors.specs.Vectors as vector;

use std::io;
use std::rt::Files;

// ---- counting

// How many were compared, how many of them disagree, and how many agree before the first of those.
#[derive(Clone, Copy, Default)]
struct Tally {
    compared: usize,
    wrong: usize,
    first: usize,
}

impl Tally {
    // One comparison.
    fn one(same: bool) -> Tally
        ensures { (result ≡ tally.one same) × tally.Within result 1 }
    {
        Tally {
            compared: 1,
            wrong: usize::from(!same),
            first: usize::from(same),
        }
    }

    // This tally, and then another: while all agree, the other's first come after this one's.
    fn joined(self, t: Tally) -> Tally
        requires { tally.Within self 1099511627776 × tally.Within t 1099511627776 }
        ensures { result ≡ tally.joined self t }
    {
        Tally {
            compared: self.compared + t.compared,
            wrong: self.wrong + t.wrong,
            first: if self.wrong == 0 {
                self.compared + t.first
            } else {
                self.first
            },
        }
    }
}

// The tallies of 0, 1, .. n - 1, one after the other.
fn all_of<F: Fn(usize) -> Tally>(n: usize, each: F) -> Tally
    requires few { n ≤ 131072 }
    requires callable { (i : ℕ) → i < n → F.pre each i }
    requires bounded { (i : ℕ) (t : _) → i < n → F.post each i t → tally.Within t 262144 }
    ensures { (of : _) → ((i : ℕ) (t : _) → i < n → F.post each i t → t ≡ of i) → result ≡ tally.all_of of n }
{
    let mut t = Tally::default();
    for i in 0..n {
        t = t.joined(each(i));
    }
    t
}

// ---- mu-law

// A byte's sample.
fn decoding(words: &[u8], byte: u8) -> Tally
    requires { 512 ≤ length words.now }
    ensures { (result ≡ vector.decoding words.now byte) × tally.Within result 1 }
{
    let word = ulaw::ulaw_to_i16(byte).cast_unsigned();
    Tally::one(word == base::bytes::u16_at(words, byte as usize))
}

// All 256 bytes.
fn decodings(words: &[u8]) -> Tally
    requires { 512 ≤ length words.now }
    ensures { result ≡ tally.all_of (vector.decoding words.now) 256 }
{
    all_of(256, |byte| decoding(words, byte as u8))
}

// The byte of the sample k words on from a word.
fn encoding(word: u16, byte: u8, k: usize) -> Tally
    requires { k < 65536 }
    ensures { (result ≡ vector.encoding word byte k) × tally.Within result 1 }
{
    let sample = word.wrapping_add(k as u16).cast_signed();
    Tally::one(ulaw::i16_to_ulaw(sample) == byte)
}

// A run of samples that have one byte.
fn run(word: u16, byte: u8, count: usize) -> Tally
    requires { count < 65536 }
    ensures { (result ≡ tally.all_of (vector.encoding word byte) count) × tally.Within result 65536 }
{
    all_of(count, |k| encoding(word, byte, k))
}

// The run at index i of a list of runs.
fn run_at(runs: &[u8], i: usize) -> Tally
    requires { 5 * i + 5 ≤ length runs.now }
    ensures { (result ≡ vector.run runs.now i) × tally.Within result 65536 }
{
    let word = base::bytes::read_u16(runs, 5 * i);
    let count = base::bytes::read_u16(runs, 5 * i + 2) as usize;
    run(word, runs[5 * i + 4], count)
}

// All runs.
fn encodings(runs: &[u8]) -> Tally
    requires { length runs.now ≤ 65536 }
    ensures { result ≡ tally.all_of (vector.run runs.now) (length runs.now / 5) }
{
    all_of(runs.len() / 5, |i| run_at(runs, i))
}

// ---- the G.721 decoder

// 4 times a code's SR, kept to 16 bits, beside word k.
fn sample(g: adpcm::Signals, words: &[u8], k: usize) -> Tally
    requires { 2 * k + 2 ≤ length words.now }
    ensures { (result ≡ tally.one (eqb (4 * g.sr % 65536) (u16_at words.now k))) × tally.Within result 1 }
{
    let word = g.sr.wrapping_mul(4);
    Tally::one(word == base::bytes::u16_at(words, k))
}

// The samples of a period, code by code.
fn samples(packed: &[u8], words: &[u8]) -> Tally
    requires { (length packed.now ≤ 65536) × (4 * length packed.now ≤ length words.now) }
    ensures { (result ≡ tally.all_of (vector.sample packed.now words.now)
        (2 * length packed.now)) ×
        tally.Within result 131072 }
{
    let mut t = Tally::default();
    let mut state = adpcm::AdpcmState::fresh();
    for k in 0..2 * packed.len() {
        let code = adpcm::code_at(packed, k);
        let g = state.signals_of(code);
        t = t.joined(sample(g, words, k));
        state = state.next_of(code, g);
    }
    t
}

// The first n bytes of two lists.
fn bytes(got: &[u8], want: &[u8], n: usize) -> Tally
    requires { (n ≤ 131072) × ((n ≤ length got.now) × (n ≤ length want.now)) }
    ensures { (result ≡ tally.all_of (vector.byte got.now want.now) n) × tally.Within result 131072 }
{
    all_of(n, |k| Tally::one(got[k] == want[k]))
}

// A period: its samples, then its mu-law bytes.
fn period(packed: &[u8], words: &[u8], want: &[u8]) -> Tally
    requires { (length packed.now ≤ 65536) × ((4 * length packed.now ≤ length words.now) ×
        (2 * length packed.now ≤ length want.now)) }
    ensures { (result ≡ vector.period packed.now words.now want.now) × tally.Within result 262144 }
{
    let mut decoded = [0u8; 131072];
    adpcm::decode_adpcm(packed, &mut decoded);
    let t = samples(packed, words);
    t.joined(bytes(&decoded, want, 2 * packed.len()))
}

// The period at index i of the list of periods. One that does not lie within the codes disagrees.
fn period_at(periods: &[u8], codes: &[u8], words: &[u8], want: &[u8], i: usize) -> Tally
    requires i_in_bounds { 4 * i + 4 ≤ length periods.now }
    requires sized { vector.Sized codes.now words.now want.now }
    ensures { (result ≡ vector.period_at periods.now codes.now words.now want.now i) ×
        tally.Within result 262144 }
{
    let from = base::bytes::u16_at(periods, 2 * i) as usize;
    let to = from + base::bytes::u16_at(periods, 2 * i + 1) as usize;
    if to <= codes.len() {
        period(&codes[from..to], &words[4 * from..], &want[2 * from..])
    } else {
        Tally::one(false)
    }
}

// All periods.
fn all_periods(periods: &[u8], codes: &[u8], words: &[u8], want: &[u8]) -> Tally
    requires periods_len_bound { length periods.now ≤ 65536 }
    requires sized { vector.Sized codes.now words.now want.now }
    ensures { result ≡
        tally.all_of
        (vector.period_at periods.now codes.now words.now want.now)
        (length periods.now / 4) }
{
    all_of(
        periods.len() / 4,
        |i| period_at(periods, codes, words, want, i),
    )
}

// ---- files and lines

// A line: how many were compared and disagree, and where the first of those is.
fn print_tally<R: Print>(rt: &R, name: &str, t: Tally) -> io::Result<()> {
    print!(rt; "{name}: {} compared, {} disagree", t.compared, t.wrong)?;
    if t.wrong > 0 {
        print!(rt; ", the first after {} that agree", t.first)?;
    }
    println!(rt; "")
}

fn try_decodings<R: Files + Print>(rt: &R) -> io::Result<()> {
    let mut buf = [0u8; 4096];
    let n = files::read_file(rt, "g711.decoded", &mut buf);
    if n == 512 {
        print_tally(rt, "mu-law bytes decoded", decodings(&buf[..n]))
    } else {
        println!(rt; "g711.decoded does not have 512 bytes")
    }
}

fn try_encodings<R: Files + Print>(rt: &R) -> io::Result<()> {
    let mut buf = [0u8; 4096];
    let n = files::read_file(rt, "g711.encoded", &mut buf);
    print_tally(rt, "mu-law samples encoded", encodings(&buf[..n]))
}

fn try_periods<R: Files + Print>(rt: &R) -> io::Result<()> {
    let mut periods = [0u8; 4096];
    let mut codes = [0u8; 65536];
    let mut words = [0u8; 65536];
    let mut want = [0u8; 65536];
    let p = files::read_file(rt, "g721.periods", &mut periods);
    let n = files::read_file(rt, "g721.codes", &mut codes);
    let w = files::read_file(rt, "g721.samples", &mut words);
    let m = files::read_file(rt, "g721.bytes", &mut want);
    if w == 4 * n && m == 2 * n {
        let t = all_periods(&periods[..p], &codes[..n], &words[..w], &want[..m]);
        print_tally(rt, "G.721 samples and mu-law bytes decoded", t)
    } else {
        println!(rt; "the files of G.721 do not have two samples and bytes for each packed byte")
    }
}

fn main(rt: HostRuntime) -> io::Result<()> {
    try_decodings(&rt)?;
    try_encodings(&rt)?;
    try_periods(&rt)
}

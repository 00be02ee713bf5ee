// The decoder of ITU-T G.721 (G.726 at 32 kbit/s). A `requires` here is what `fresh` and
// `next_of` ensure of the delays, and that a code has four bits.
#![tactic(auto)]

ghost use Rattle.std.specs.Prelude.{◌≡◌, ◌*◌, ◌<◌, ◌≤◌, length, get_or};
ghost use Rattle.base.specs.Buffers.{over};
ghost use Rattle.ulaw.specs.Ulaw.{ulaw_of};
ghost use Rattle.adpcm.specs.Decoder as decoder;
ghost use Rattle.adpcm.specs.Words.{Words, SignalWords, Coding};

// The delays' contents between two codes, in the Recommendation's words.
#[derive(Clone, Copy)]
pub struct AdpcmState {
    pub yl: u32,
    pub yu: u16,
    pub dms: u16,
    pub dml: u16,
    pub ap: u16,
    pub a1: u16,
    pub a2: u16,
    pub b: [u16; 6],
    pub pk1: u16,
    pub pk2: u16,
    pub dq: [u16; 6],
    pub sr1: u16,
    pub sr2: u16,
    pub td: u16,
}

// The signals of one code.
#[derive(Clone, Copy)]
pub struct Signals {
    pub y: u16,
    pub dq: u16,
    pub sr: u16,
    pub pk0: u16,
    pub sigpk: u16,
    pub tr: u16,
}

// The mu-law byte of a code, and the delays after it.
#[derive(Clone, Copy)]
struct Coded {
    byte: u8,
    state: AdpcmState,
}

// The differences' delays, newest first.
fn delayed(dq: u16, dqs: [u16; 6]) -> [u16; 6]
    ensures { result ≡ decoder.delayed dq dqs }
{
    let dq0 = adpcm_float::floata(dq);
    [dq0, dqs[0], dqs[1], dqs[2], dqs[3], dqs[4]]
}

// TRIGB: a coefficient or the tone detector, cleared on a transition.
fn trigb(tr: u16, x: u16) -> u16
    ensures { result ≡ decoder.trigb tr x }
{
    if tr == 0 { x } else { 0 }
}

// TRIGB: the zeros' coefficients.
fn trigbs(tr: u16, xs: [u16; 6]) -> [u16; 6]
    ensures { result ≡ decoder.trigbs tr xs }
{
    if tr == 0 { xs } else { [0; 6] }
}

impl AdpcmState {
    // The delays at reset.
    pub fn fresh() -> AdpcmState
        ensures { (result ≡ decoder.fresh) × Words result }
    {
        AdpcmState {
            yl: 34816,
            yu: 544,
            dms: 0,
            dml: 0,
            ap: 0,
            a1: 0,
            a2: 0,
            b: [0; 6],
            pk1: 0,
            pk2: 0,
            dq: [32; 6],
            sr1: 32,
            sr2: 32,
            td: 0,
        }
    }

    // The signals of a code.
    pub fn signals_of(self, code: usize) -> Signals
        requires { Words self × (code < 16) }
        ensures { (result ≡ decoder.signals_of self code) × SignalWords result }
    {
        let b = self.b;
        let dqs = self.dq;
        let zeros = adpcm_predict::sezi(b, dqs);
        let all = adpcm_predict::sei(zeros, self.a1, self.sr1, self.a2, self.sr2);
        let y = adpcm_scale::scale_of(self.ap, self.yu, self.yl);
        let dq = adpcm_scale::dq_of(code, y);
        let sr = adpcm_predict::addb(dq, all / 2);
        let dqsez = adpcm_predict::addb(dq, zeros / 2);
        let sigpk = adpcm_predict::sigpk_of(dqsez);
        let tr = adpcm_predict::trans(self.td, self.yl, dq);
        Signals {
            y,
            dq,
            sr,
            pk0: dqsez / 32768,
            sigpk,
            tr,
        }
    }

    // The delays after a code, from its signals.
    pub fn next_of(self, code: usize, g: Signals) -> AdpcmState
        requires { Words self × ((code < 16) × SignalWords g) }
        ensures { (result ≡ decoder.next_of self code g) × Words result }
    {
        let yup = adpcm_scale::limb(adpcm_scale::filtd(adpcm_scale::functw(code), g.y));
        let ylp = adpcm_scale::filte(yup, self.yl);
        let p = adpcm_predict::poles_of(self.a1, self.a2, g.pk0, self.pk1, self.pk2, g.sigpk);
        let fi = adpcm_scale::functf(code);
        let v = adpcm_scale::speed_of(fi, self.dms, self.dml, self.ap, p.td, g.y, g.tr);
        let dqs = self.dq;
        let b = self.b;
        let zeros = trigbs(g.tr, adpcm_predict::zeros_of(g.dq, dqs, b));
        let delays = delayed(g.dq, dqs);
        let a1 = trigb(g.tr, p.a1);
        let a2 = trigb(g.tr, p.a2);
        let td = trigb(g.tr, p.td);
        let sr0 = adpcm_float::floatb(g.sr);
        AdpcmState {
            yl: ylp,
            yu: yup,
            dms: v.dms,
            dml: v.dml,
            ap: v.ap,
            a1,
            a2,
            b: zeros,
            pk1: g.pk0,
            pk2: self.pk1,
            dq: delays,
            sr1: sr0,
            sr2: self.sr1,
            td,
        }
    }

    // A code's byte, and the delays after it.
    fn coded_of(self, code: usize) -> Coded
        requires { Words self × (code < 16) }
        ensures { Coding self code result }
    {
        let g = self.signals_of(code);
        let byte = byte_of(g);
        let state = self.next_of(code, g);
        Coded { byte, state }
    }
}

// The output: 4 times SR, kept to 16 bits.
fn sample_in(g: Signals) -> i16
    ensures { result ≡ decoder.sample_in g }
{
    base::words::word_to_i16(base::words::low16(4 * (g.sr as u32)))
}

// Its mu-law byte.
fn byte_of(g: Signals) -> u8
    ensures { result ≡ ulaw_of (decoder.sample_in g) }
{
    ulaw::i16_to_ulaw(sample_in(g))
}

// The code at place k of packed bytes, two a byte: the high half first.
pub fn code_at(packed: &[u8], k: usize) -> usize
    requires { k < 2 * length packed.now }
    ensures { (result ≡ get_or (decoder.codes_of packed.now) k 0) × (result < 16) }
{
    let pair = packed[k / 2] as usize;
    if k % 2 == 0 { pair / 16 } else { pair % 16 }
}

// Decodes packed codes from a fresh state to mu-law bytes at the front of `out`. The caller has
// tested that they fit.
pub fn decode_adpcm(packed: &[u8], out: &mut [u8])
    requires { 2 * length packed.now ≤ length out.old }
    ensures { out.new ≡ over (decoder.decoded packed.now) out.old }
{
    let mut state = AdpcmState::fresh();
    for k in 0..2 * packed.len() {
        let coded = state.coded_of(code_at(packed, k));
        out[k] = coded.byte;
        state = coded.state;
    }
}

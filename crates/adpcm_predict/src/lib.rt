// G.726's adaptive predictor, tone and transition detector. A `requires` here is a word length of
// the Recommendation's list of signals, which the caller's state keeps.
#![tactic(auto)]

ghost use Rattle.std.specs.Prelude.{◌≡◌, ◌+◌, ◌-◌, ◌%◌, ◌<◌, get_or};
ghost use Rattle.adpcm_float.specs.Floating as floating;
ghost use Rattle.adpcm_predict.specs.Predictor as block;

// The pole coefficients and the tone detector after a code, before a transition clears them.
#[derive(Clone, Copy)]
pub struct Poles {
    pub a1: u16,
    pub a2: u16,
    pub td: u16,
}

// ---- the estimate

// A zero's part of the estimate.
fn zero_part(b: [u16; 6], dq: [u16; 6], i: usize) -> u32
    requires { i < 6 }
    ensures { (result ≡ floating.fmult (get_or b i 0) (get_or dq i 0)) × (result < 65536) }
{
    adpcm_float::fmult(b[i], dq[i])
}

// ACCUM: the zeros' part of the estimate.
pub fn sezi(b: [u16; 6], dq: [u16; 6]) -> u32
    ensures { (result ≡ block.sezi b dq) × (result < 65536) }
{
    let first = zero_part(b, dq, 0) + zero_part(b, dq, 1) + zero_part(b, dq, 2);
    let all = first + zero_part(b, dq, 3) + zero_part(b, dq, 4) + zero_part(b, dq, 5);
    all % 65536
}

// ACCUM: the whole estimate.
pub fn sei(zeros: u32, a1: u16, sr1: u16, a2: u16, sr2: u16) -> u32
    requires { zeros < 65536 }
    ensures { (result ≡ block.sei zeros a1 sr1 a2 sr2) × (result < 65536) }
{
    (zeros + adpcm_float::fmult(a2, sr2) + adpcm_float::fmult(a1, sr1)) % 65536
}

// A difference in two's complement.
#[tactic(auto, unfolding(crate::specs::Predictor::dqi))]
fn dqi(dq: u16) -> u32
    ensures { (result ≡ block.dqi dq) × (result < 65536) }
{
    let word = dq as u32;
    if word < 32768 {
        word
    } else {
        (65536 - word % 32768) % 65536
    }
}

// ADDB, ADDC: a difference plus an estimate.
#[tactic(auto, unfolding(crate::specs::Predictor::addb))]
pub fn addb(dq: u16, se: u32) -> u16
    requires { se < 32768 }
    ensures { result ≡ block.addb dq se }
{
    ((dqi(dq) + (se + 32768 * (se / 16384))) % 65536) as u16
}

// SIGPK: 1 where the sum of ADDC is 0.
#[tactic(auto, unfolding(crate::specs::Predictor::sigpk_of))]
pub fn sigpk_of(dqsez: u16) -> u16
    ensures { result ≡ block.sigpk_of dqsez }
{
    if dqsez == 0 { 1 } else { 0 }
}

// ---- the zeros' coefficients

// UPB: the gain, by the signs of two differences.
#[tactic(auto, unfolding(crate::specs::Predictor::ugb))]
fn ugb(dq: u16, dqn: u16) -> u32
    ensures { (result ≡ block.ugb dq dqn) × (result < 65536) }
{
    let d = dq as u32;
    if d % 32768 == 0 {
        0
    } else if (d / 32768 + (dqn as u32) / 1024) % 2 == 0 {
        128
    } else {
        65408
    }
}

// A coefficient plus its gain less its leak, each kept to 16 bits: UPB, UPA1, UPA2.
fn leaked(coefficient: u32, gain: u32, leak: u32) -> u16
    requires { (coefficient < 65536) × ((gain < 65536) × (leak < 65536)) }
    ensures { result ≡ (coefficient + (gain + (65536 - leak) % 65536) % 65536) % 65536 }
{
    ((coefficient + (gain + (65536 - leak) % 65536) % 65536) % 65536) as u16
}

// UPB: a zero's coefficient. Nothing saturates.
#[tactic(auto, unfolding(crate::specs::Predictor::upb))]
fn upb(dq: u16, dqn: u16, bn: u16) -> u16
    ensures { result ≡ block.upb dq dqn bn }
{
    let b = bn as u32;
    leaked(b, ugb(dq, dqn), b / 256 + 65280 * (b / 32768))
}

// The coefficient of one zero after a code.
fn zero_of(dq: u16, dqs: [u16; 6], b: [u16; 6], i: usize) -> u16
    requires { i < 6 }
    ensures { result ≡ block.upb dq (get_or dqs i 0) (get_or b i 0) }
{
    upb(dq, dqs[i], b[i])
}

// UPB for the six zeros.
pub fn zeros_of(dq: u16, dqs: [u16; 6], b: [u16; 6]) -> [u16; 6]
    ensures { result ≡ block.zeros_of dq dqs b }
{
    let b1 = zero_of(dq, dqs, b, 0);
    let b2 = zero_of(dq, dqs, b, 1);
    let b3 = zero_of(dq, dqs, b, 2);
    let b4 = zero_of(dq, dqs, b, 3);
    let b5 = zero_of(dq, dqs, b, 4);
    let b6 = zero_of(dq, dqs, b, 5);
    [b1, b2, b3, b4, b5, b6]
}

// ---- the poles' coefficients

// UPA2: 4 times the first coefficient, which is limited to 8191 on either side.
#[tactic(auto, unfolding(crate::specs::Predictor::fa1))]
fn fa1(a1: u16) -> u32
    ensures { (result ≡ block.fa1 a1) × (result < 131072) }
{
    let a = a1 as u32;
    if a < 32768 {
        if a <= 8191 { a * 4 } else { 32764 }
    } else {
        if 57345 <= a { a * 4 % 131072 } else { 98308 }
    }
}

// UPA2: with the sign of the last two sums' product, by a product and not a test.
fn fa(pks1: u16, a1: u16) -> u32
    requires { pks1 < 2 }
    ensures { (result ≡ block.fa pks1 a1) × (result < 131072) }
{
    let f = fa1(a1);
    (131072 - f + 2 * (f * (pks1 as u32))) % 131072
}

// UPA2: the gain.
#[tactic(auto, unfolding(crate::specs::Predictor::uga2))]
fn uga2(pks1: u16, pks2: u16, sigpk: u16, a1: u16) -> u32
    requires { (pks1 < 2) × (pks2 < 2) }
    ensures { (result ≡ block.uga2 pks1 pks2 sigpk a1) × (result < 65536) }
{
    let sum = (16384 + 98304 * (pks2 as u32) + fa(pks1, a1)) % 131072;
    if sigpk == 1 {
        0
    } else {
        sum / 128 + 64512 * (sum / 65536)
    }
}

// UPA2: the second coefficient.
#[tactic(auto, unfolding(crate::specs::Predictor::upa2))]
fn upa2(pks1: u16, pks2: u16, sigpk: u16, a1: u16, a2: u16) -> u16
    requires { (pks1 < 2) × (pks2 < 2) }
    ensures { result ≡ block.upa2 pks1 pks2 sigpk a1 a2 }
{
    let a = a2 as u32;
    leaked(
        a,
        uga2(pks1, pks2, sigpk, a1),
        a / 128 + 65024 * (a / 32768),
    )
}

// LIMC: the second coefficient, limited. 32768 more puts the negative ones below the others, so
// that no test is of the sign alone, which changes often.
#[tactic(auto, unfolding(crate::specs::Predictor::limc))]
fn limc(a2t: u16) -> u16
    ensures { result ≡ block.limc a2t }
{
    let place = ((a2t as u32) + 32768) % 65536;
    if place < 20480 {
        53248
    } else if 45056 < place {
        12288
    } else {
        a2t
    }
}

// UPA1: the gain, its sign by a product.
#[tactic(auto, unfolding(crate::specs::Predictor::uga1))]
fn uga1(pks1: u16, sigpk: u16) -> u32
    requires { pks1 < 2 }
    ensures { (result ≡ block.uga1 pks1 sigpk) × (result < 65536) }
{
    if sigpk == 1 {
        0
    } else {
        192 + 65152 * (pks1 as u32)
    }
}

// UPA1: the first coefficient.
#[tactic(auto, unfolding(crate::specs::Predictor::upa1))]
fn upa1(pks1: u16, sigpk: u16, a1: u16) -> u16
    requires { pks1 < 2 }
    ensures { result ≡ block.upa1 pks1 sigpk a1 }
{
    let a = a1 as u32;
    leaked(a, uga1(pks1, sigpk), a / 256 + 65280 * (a / 32768))
}

// LIMD: the first coefficient, limited by the second.
#[tactic(auto, unfolding(crate::specs::Predictor::limd))]
fn limd(a1t: u16, a2p: u16) -> u16
    ensures { result ≡ block.limd a1t a2p }
{
    let a1ul = ((15360 + 65536 - (a2p as u32)) % 65536) as u16;
    let a1ll = (((a2p as u32) + 65536 - 15360) % 65536) as u16;
    if a1t < 32768 {
        if a1ul <= a1t { a1ul } else { a1t }
    } else {
        if a1t <= a1ll { a1ll } else { a1t }
    }
}

// ---- tone and transition

// TONE: 1 where the second coefficient says that a partial band signal is there.
#[tactic(auto, unfolding(crate::specs::Predictor::tone))]
fn tone(a2p: u16) -> u16
    ensures { result ≡ block.tone a2p }
{
    if a2p < 32768 {
        0
    } else if a2p < 53760 {
        1
    } else {
        0
    }
}

// TRANS: the threshold of the slow scale factor.
fn thr2(yl: u32) -> u32
    requires { yl < 524288 }
    ensures { (result ≡ block.thr2 yl) × (result < 65536) }
{
    let ylint = yl / 32768;
    if 9 < ylint {
        31744
    } else {
        (32 + yl / 1024 % 32) << ylint
    }
}

// TRANS: 1 on a transition. The threshold is worked out only after a tone, which is seldom.
#[tactic(auto, unfolding(crate::specs::Predictor::trans))]
pub fn trans(td: u16, yl: u32, dq: u16) -> u16
    requires { yl < 524288 }
    ensures { result ≡ block.trans td yl dq }
{
    if td == 1 {
        let thr = thr2(yl);
        let dqthr = (thr + thr / 2) / 2;
        if dqthr < (dq as u32) % 32768 { 1 } else { 0 }
    } else {
        0
    }
}

// The poles after a code.
#[tactic(auto, unfolding(crate::specs::Predictor::poles_of))]
pub fn poles_of(a1: u16, a2: u16, pk0: u16, pk1: u16, pk2: u16, sigpk: u16) -> Poles
    requires { (pk0 < 2) × ((pk1 < 2) × (pk2 < 2)) }
    ensures { result ≡ block.poles_of a1 a2 pk0 pk1 pk2 sigpk }
{
    let pks1 = (pk0 + pk1) % 2;
    let pks2 = (pk0 + pk2) % 2;
    let a2p = limc(upa2(pks1, pks2, sigpk, a1, a2));
    let a1p = limd(upa1(pks1, sigpk, a1), a2p);
    let tdp = tone(a2p);
    Poles {
        a1: a1p,
        a2: a2p,
        td: tdp,
    }
}

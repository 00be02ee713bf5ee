// G.726's inverse quantizer, scale factor adaptation and speed control, at 32 kbit/s: a code has
// four bits. A `requires` here is a word length of the Recommendation's list of signals; the
// caller's state keeps it, and the caller has split its bytes into codes.
#![tactic(auto)]

ghost use Rattle.std.specs.Prelude.{◌≡◌, ◌-◌, ◌*◌, ◌/◌, ◌^◌, ◌<◌, ◌≤◌};
ghost use Rattle.adpcm_scale.specs.Scale as block;
ghost use Rattle.adpcm_scale.specs.Words.{SpeedWords};

// What the speed control keeps for the next code.
#[derive(Clone, Copy)]
pub struct Speed {
    pub dms: u16,
    pub dml: u16,
    pub ap: u16,
}

// ---- the tables, by the code's magnitude

// RECONST.
const DQLN: [u32; 8] = [2048, 4, 135, 213, 273, 323, 373, 425];

// FUNCTW.
const WI: [u32; 8] = [4084, 18, 41, 64, 112, 198, 355, 1122];

// FUNCTF.
const FI: [u32; 8] = [0, 0, 0, 1, 1, 1, 3, 7];

// The magnitude of a code, which is in one's complement.
#[tactic(auto, unfolding(crate::specs::Scale::magnitude))]
fn magnitude(code: usize) -> usize
    requires { code < 16 }
    ensures { (result ≡ block.magnitude code) × (result < 8) }
{
    if code < 8 { code } else { 15 - code }
}

// ---- the inverse quantizer

// RECONST: the logarithm of a code's magnitude.
#[tactic(auto, unfolding(crate::specs::Scale::reconst))]
fn reconst(code: usize) -> u32
    requires { code < 16 }
    ensures { (result ≡ block.reconst code) × (result < 4096) }
{
    DQLN[magnitude(code)]
}

// ADDA: the scale added to it.
#[tactic(auto, unfolding(crate::specs::Scale::adda))]
fn adda(dqln: u32, y: u16) -> u32
    requires { dqln < 4096 }
    ensures { (result ≡ block.adda dqln y) × (result < 4096) }
{
    (dqln + (y as u32) / 4) % 4096
}

// ANTILOG: a mantissa of 15 bits, shifted down by 14 less the exponent.
fn shifted(dqt: u32, dex: u32) -> u32
    requires { dqt < 32768 }
    ensures { (result ≡ dqt / 2 ^ (14 - dex)) × (result < 32768) }
{
    if dex <= 14 { dqt >> (14 - dex) } else { dqt }
}

// ANTILOG: the magnitude of a logarithm. A negative one gives 0, by a product and not a test.
fn antilog(dql: u32) -> u32
    requires { dql < 4096 }
    ensures { (result ≡ block.antilog dql) × (result < 32768) }
{
    let dqt = (128 + dql % 128) * 128;
    (1 - dql / 2048) * shifted(dqt, dql / 128 % 16)
}

// The quantised difference DQ of a code at the scale Y.
pub fn dq_of(code: usize, y: u16) -> u16
    requires { code < 16 }
    ensures { result ≡ block.dq_of code y }
{
    let sign = (code / 8) as u32;
    (sign * 32768 + antilog(adda(reconst(code), y))) as u16
}

// ---- the scale factor

// FUNCTW: how a code moves the fast scale factor.
#[tactic(auto, unfolding(crate::specs::Scale::functw))]
pub fn functw(code: usize) -> u32
    requires { code < 16 }
    ensures { (result ≡ block.functw code) × (result < 4096) }
{
    WI[magnitude(code)]
}

// FILTD: the fast scale factor.
#[tactic(auto, unfolding(crate::specs::Scale::filtd))]
pub fn filtd(wi: u32, y: u16) -> u32
    requires { (wi < 4096) × (y < 8192) }
    ensures { (result ≡ block.filtd wi y) × (result < 8192) }
{
    let scale = y as u32;
    let dif = (wi * 32 + 131072 - scale) % 131072;
    (scale + dif / 32 + 4096 * (dif / 65536)) % 8192
}

// LIMB: the fast scale factor, limited.
#[tactic(auto, unfolding(crate::specs::Scale::limb))]
pub fn limb(yut: u32) -> u16
    requires { yut < 8192 }
    ensures { (result ≡ block.limb yut) × (result < 8192) }
{
    if yut < 544 {
        544
    } else if 5120 < yut {
        5120
    } else {
        yut as u16
    }
}

// FILTE: the slow scale factor.
#[tactic(auto, unfolding(crate::specs::Scale::filte))]
pub fn filte(yup: u16, yl: u32) -> u32
    requires { yl < 524288 }
    ensures { (result ≡ block.filte yup yl) × (result < 524288) }
{
    let dif = ((yup as u32) + (1048576 - yl) / 64) % 16384;
    (yl + dif + 507904 * (dif / 8192)) % 524288
}

// MIX: a difference of the two factors times AL.
fn prod(dif: u32, al: u32) -> u32
    requires { (dif < 16384) × (al ≤ 64) }
    ensures { (result ≡ dif * al / 64) × (result ≤ 16384) }
{
    dif * al / 64
}

// MIX: the scale between the slow and the fast factor.
fn mix(al: u32, yu: u16, yl: u32) -> u16
    requires { (al ≤ 64) × ((yu < 8192) × (yl < 524288)) }
    ensures { (result ≡ block.mix al yu yl) × (result < 8192) }
{
    let slow = yl / 64;
    let dif = ((yu as u32) + 16384 - slow) % 16384;
    if dif < 8192 {
        ((slow + prod(dif, al)) % 8192) as u16
    } else {
        let below = prod((16384 - dif) % 8192, al);
        ((slow + (16384 - below) % 16384) % 8192) as u16
    }
}

// LIMA: the speed control, limited.
#[tactic(auto, unfolding(crate::specs::Scale::lima))]
fn lima(ap: u16) -> u32
    ensures { (result ≡ block.lima ap) × (result ≤ 64) }
{
    let speed = ap as u32;
    if speed < 256 { speed / 4 } else { 64 }
}

// The scale Y. At the fastest speed AL is 64, and MIX gives the fast factor.
pub fn scale_of(ap: u16, yu: u16, yl: u32) -> u16
    requires { (yu < 8192) × (yl < 524288) }
    ensures { (result ≡ block.mix (block.lima ap) yu yl) × (result < 8192) }
{
    if 256 <= ap { yu } else { mix(lima(ap), yu, yl) }
}

// ---- the speed control

// FUNCTF: how fast a code says that the signal changes.
#[tactic(auto, unfolding(crate::specs::Scale::functf))]
pub fn functf(code: usize) -> u32
    requires { code < 16 }
    ensures { (result ≡ block.functf code) × (result < 8) }
{
    FI[magnitude(code)]
}

// FILTA: the short term average.
#[tactic(auto, unfolding(crate::specs::Scale::filta))]
fn filta(fi: u32, dms: u16) -> u16
    requires { (fi < 8) × (dms < 4096) }
    ensures { (result ≡ block.filta fi dms) × (result < 4096) }
{
    let average = dms as u32;
    let dif = (fi * 512 + 8192 - average) % 8192;
    ((dif / 32 + 3840 * (dif / 4096) + average) % 4096) as u16
}

// FILTB: the long term average.
#[tactic(auto, unfolding(crate::specs::Scale::filtb))]
fn filtb(fi: u32, dml: u16) -> u16
    requires { (fi < 8) × (dml < 16384) }
    ensures { (result ≡ block.filtb fi dml) × (result < 16384) }
{
    let average = dml as u32;
    let dif = (fi * 2048 + 32768 - average) % 32768;
    ((dif / 128 + 16128 * (dif / 16384) + average) % 16384) as u16
}

// SUBTC: how far the averages are apart.
#[tactic(auto, unfolding(crate::specs::Scale::difm))]
fn difm(dmsp: u16, dmlp: u16) -> u32
    requires { dmlp < 16384 }
    ensures { result ≡ block.difm dmsp dmlp }
{
    let dif = ((dmsp as u32) * 4 + 32768 - (dmlp as u32)) % 32768;
    if dif < 16384 {
        dif
    } else {
        (32768 - dif) % 16384
    }
}

// SUBTC: 0 where the adaptation may slow down.
#[tactic(auto, unfolding(crate::specs::Scale::subtc))]
fn subtc(dmsp: u16, dmlp: u16, tdp: u16, y: u16) -> u32
    requires { dmlp < 16384 }
    ensures { (result ≡ block.subtc dmsp dmlp tdp y) × (result < 2) }
{
    let dif = difm(dmsp, dmlp);
    if 1536 <= y && dif < (dmlp as u32) / 8 && tdp == 0 {
        0
    } else {
        1
    }
}

// FILTC: the speed control.
#[tactic(auto, unfolding(crate::specs::Scale::filtc))]
fn filtc(ax: u32, ap: u16) -> u16
    requires { (ax < 2) × (ap < 1024) }
    ensures { (result ≡ block.filtc ax ap) × (result < 1024) }
{
    let speed = ap as u32;
    let dif = (ax * 512 + 2048 - speed) % 2048;
    ((dif / 16 + 896 * (dif / 1024) + speed) % 1024) as u16
}

// TRIGA: the fastest speed on a transition.
#[tactic(auto, unfolding(crate::specs::Scale::triga))]
fn triga(tr: u16, app: u16) -> u16
    requires { app < 1024 }
    ensures { (result ≡ block.triga tr app) × (result < 1024) }
{
    if tr == 0 { app } else { 256 }
}

// The speed control after a code.
pub fn speed_of(fi: u32, dms: u16, dml: u16, ap: u16, tdp: u16, y: u16, tr: u16) -> Speed
    requires { (fi < 8) × ((dms < 4096) × ((dml < 16384) × (ap < 1024))) }
    ensures { (result ≡ block.speed_of fi dms dml ap tdp y tr) × SpeedWords result }
{
    let dmsp = filta(fi, dms);
    let dmlp = filtb(fi, dml);
    let app = filtc(subtc(dmsp, dmlp, tdp, y), ap);
    let kept = triga(tr, app);
    Speed {
        dms: dmsp,
        dml: dmlp,
        ap: kept,
    }
}

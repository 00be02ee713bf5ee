// A checked call: its buffers tested, then filled.
#![tactic(auto)]

ghost use Rattle.std.specs.Prelude.{◌≡◌, true};
ghost use Rattle.voice.specs.Voice.{voice_of};
ghost use Rattle.sheet.specs.Sheet.{sheet_of};
ghost use Rattle.call.specs.Buffers as calls;
ghost use Rattle.checking.specs.Checks.{Passes};
ghost use Rattle.planning.specs.Planning as planning;

use call::{Lengths, Need, Planned, Settings, Summary};
use checking::Fit;
use lpc::{FilterState, ResynthType};
use refusal::Refusal;

// The answer of a refused call.
pub fn refused(cause: Refusal) -> Planned
    ensures { result ≡ calls.refused_by cause }
{
    Planned {
        answer: Err(cause),
        state: FilterState::fresh(ResynthType::Fixed, 0, 0.0, 0.0),
    }
}

// What a call gives.
fn summary(fit: Fit) -> Summary
    ensures { result ≡ planning.summary_by fit.voice.header.rate fit.voice.header.order fit.need }
{
    let header = fit.voice.header;
    let need = fit.need;
    Summary {
        rate: header.rate as usize,
        periods: need.periods,
        samples: need.excitation,
        marks: need.marks,
        order: header.order as usize,
        entries: need.entries,
    }
}

// Whether buffers of so many bytes have the elements that a call needs.
#[tactic(auto, unfolding(call::specs::Buffers::holds, base::specs::Lists::every))]
fn holds(need: Need, lengths: Lengths) -> bool
    ensures { result ≡ calls.holds need lengths }
{
    need.entries <= lengths.index / 8
        && need.marks <= lengths.marks / 4
        && need.periods <= lengths.sizes / 4
        && need.rows <= lengths.rows / 2
        && need.excitation <= lengths.excitation
        && need.decoded <= lengths.decoded
}

// Fills the buffers of a call that fit.
fn plan_filled(
    file: &[u8],
    sheet: &[u8],
    settings: Settings,
    fit: Fit,
    index: &mut [u8],
    marks: &mut [u8],
    sizes: &mut [u8],
    rows: &mut [u8],
    excitation: &mut [u8],
    decoded: &mut [u8],
) -> Planned
    requires { Passes file.now sheet.now settings fit ×
        (calls.fits (voice_of file.now) (sheet_of sheet.now) settings
        (calls.lent index.old marks.old sizes.old rows.old excitation.old decoded.old) ≡
        true) }
    ensures value { result ≡ calls.planned_of file.now sheet.now settings
        (calls.lent index.old marks.old sizes.old rows.old
        excitation.old decoded.old) }
    ensures decoded_after { calls.lent index.new marks.new sizes.new rows.new
        excitation.new decoded.new ≡
        calls.buffers_after file.now sheet.now settings
        (calls.lent index.old marks.old sizes.old rows.old
        excitation.old decoded.old) }
{
    filling::fill(
        file, sheet, settings, fit.voice, fit.places, fit.need, index, marks, sizes, rows,
        excitation, decoded,
    );
    let header = fit.voice.header;
    Planned {
        answer: Ok(summary(fit)),
        state: FilterState::fresh(
            call::filter_in(settings),
            header.order as usize,
            header.coeff_min,
            header.coeff_range,
        ),
    }
}

// 13 for the buffers of a call that its check passed; they are filled otherwise.
pub fn plan_checked(
    file: &[u8],
    sheet: &[u8],
    settings: Settings,
    fit: Fit,
    index: &mut [u8],
    marks: &mut [u8],
    sizes: &mut [u8],
    rows: &mut [u8],
    excitation: &mut [u8],
    decoded: &mut [u8],
) -> Planned
    requires { Passes file.now sheet.now settings fit }
    ensures value { result ≡ calls.planned_of file.now sheet.now settings
        (calls.lent index.old marks.old sizes.old rows.old
        excitation.old decoded.old) }
    ensures decoded_after { calls.lent index.new marks.new sizes.new rows.new
        excitation.new decoded.new ≡
        calls.buffers_after file.now sheet.now settings
        (calls.lent index.old marks.old sizes.old rows.old
        excitation.old decoded.old) }
{
    let lengths = Lengths {
        index: index.len(),
        marks: marks.len(),
        sizes: sizes.len(),
        rows: rows.len(),
        excitation: excitation.len(),
        decoded: decoded.len(),
    };
    if !holds(fit.need, lengths) {
        return refused(Refusal::ShortBuffer);
    }
    plan_filled(
        file, sheet, settings, fit, index, marks, sizes, rows, excitation, decoded,
    )
}

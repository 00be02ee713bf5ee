// The marks of the simple join: each period of a unit ends where it naturally does.
ghost use Rattle.std.specs.Prelude.{◌≡◌, ◌+◌, ◌-◌, ◌*◌, ◌≤◌, length};
ghost use Rattle.std.proofs.lemmas.List.Edits.{sets};
ghost use Rattle.base.specs.Buffers.{flat};
ghost use Rattle.base.specs.Bytes.{bytes_of};
ghost use Rattle.voice.specs.Voice.{voice_of};
ghost use Rattle.voice.specs.Periods.{samples_from};
ghost use Rattle.voice.specs.Opening.{IsOpen};
ghost use Rattle.units.specs.Units.{limit};
ghost use Rattle.marks.specs.NaturalMarks.{marks_of_periods};
ghost use Rattle.marks.specs.Checking.{unit_marks, LowPlace, CanStoreUnit};

use refusal::Refusal;
use voice::DiphoneVoice;

// Makes the marks of the periods from `first` on and before `last`, and writes none. The first
// period begins at a place; `left` marks are allowed. Answers the place after the unit and how many marks
// are still allowed.
pub fn check_unit_marks(
    file: &[u8],
    d: DiphoneVoice,
    place: usize,
    first: usize,
    last: usize,
    left: usize,
) -> Result<(usize, usize), Refusal>
    requires { IsOpen file.now d × (last ≤ d.header.frames) × (place ≤ limit) }
    ensures { (result ≡ unit_marks (voice_of file.now) place first (last - first) left) × LowPlace result }
{
    let mut end = place;
    let mut allowed = left;
    for p in first..last {
        if allowed == 0 {
            return Err(Refusal::TooManyMarks);
        }
        end += voice::periods::period_samples(file, d, p);
        if units::LIMIT < end {
            return Err(Refusal::PastLimit);
        }
        allowed -= 1;
    }
    Ok((end, allowed))
}

// Stores those marks, four bytes each, from element `index` of a buffer on, and answers the place
// after the unit.
pub fn store_unit_marks(
    file: &[u8],
    d: DiphoneVoice,
    place: usize,
    first: usize,
    last: usize,
    index: usize,
    marks: &mut [u8],
) -> usize
    requires { CanStoreUnit file.now d place first last index (length marks.old) }
    ensures { (result ≡ place + samples_from (voice_of file.now) first (last - first)) ×
        (marks.new ≡
        sets marks.old (4 * index)
        (flat (bytes_of 4) (marks_of_periods (voice_of file.now) place first (last - first)))) }
{
    let mut end = place;
    for p in first..last {
        end += voice::periods::period_samples(file, d, p);
        base::bytes::put_u32(marks, index + (p - first), end as u32);
    }
    end
}

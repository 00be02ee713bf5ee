// Reports of six numbers.
ghost use Rattle.std.specs.Prelude.{◌≡◌, ◌≤◌, length};
ghost use Rattle.base.specs.Buffers.{over, flat};
ghost use Rattle.base.specs.Bytes.{bytes_of};

// Stores six numbers of eight bytes each at the front of a report.
pub(super) fn write_six(report: &mut [u8], numbers: [u64; 6])
    requires { 48 ≤ length report.old }
    ensures { report.new ≡ over (flat (bytes_of 8) numbers) report.old }
{
    for (i, number) in numbers.iter().enumerate() {
        base::bytes::put_u64(report, i, *number);
    }
}

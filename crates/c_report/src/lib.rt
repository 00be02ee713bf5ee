// The period report from C: numbers and byte slices alone.
#![tactic(auto)]

ghost use Rattle.std.specs.Prelude.{◌≡◌, length};
ghost use Rattle.call.specs.Numbers as numbers;
ghost use Rattle.refusal.specs.Number.{answer_of};
ghost use Rattle.reporting.specs.Report as reports;

// Makes the report of a call: 0, or the number of the refusal.
pub fn report_in_c(voice: &[u8], sheet: &[u8], settings: u32, lines: &mut [u8]) -> u32
    ensures value { result ≡ answer_of
        (reports.refusal_of_report voice.now sheet.now (numbers.settings_of settings)
        (length lines.old)) }
    ensures lines_after { lines.new ≡
        reports.lines_left voice.now sheet.now (numbers.settings_of settings) lines.old }
{
    match reporting::report(voice, sheet, call::settings_of(settings), lines) {
        Err(cause) => u32::from(cause),
        Ok(_) => 0,
    }
}

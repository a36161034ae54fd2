#![tactic(auto)]

// The report for host programs: the calls of `report` under their C names.
ghost use Rattle.std.specs.Prelude.{◌≡◌, length};
ghost use Rattle.model.specs.File.{opened};
ghost use Rattle.model.specs.Report.{check_number, reported, reported_in};

use report::report as calls;

// Reports on a file at the front of a buffer, and answers how many bytes were written, or 7 for a buffer of under 64 bytes.
#[unsafe(no_mangle)]
pub extern "C" fn reel_report(file: &[u8], out: &mut [u8]) -> usize
    ensures answers { result ≡ reported file.now (length out.old) }
    ensures writes { out.new ≡ reported_in file.now out.old }
{
    calls::reel_report(file, out)
}

// The check of a file of any length by one number: 0 where it is approved, else that of the refusal or of the rule broken first.
#[unsafe(no_mangle)]
pub extern "C" fn reel_check(file: &[u8]) -> u64
    ensures { result ≡ check_number file.now (opened file.now) }
{
    calls::reel_check(file)
}

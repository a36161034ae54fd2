ghost use Rattle.std.specs.Prelude.{◌≡◌, ◌≤◌, length};
ghost use Rattle.model.specs.File.{opened};
ghost use Rattle.model.specs.Report.{check_number, reported, reported_in};

use crate::checking::{check_file, check_short_file};
use crate::pen::Pen;
use model::refusal::Refusal;
use watch::bank::Bank;
use watch::clock::Clock;
use watch::sections::Sections;
use watch::stamps::Stamps;

// The watches of the house, in their order.
pub type House = Bank<Clock, Bank<Sections, Stamps>>;

// Reports on a file at the front of a buffer, and answers how many bytes were written, or 7 for a buffer of under 64 bytes. These two answer
// numbers as the C interface does, which is them under other names.
pub fn reel_report(file: &[u8], out: &mut [u8]) -> usize
    ensures answers { result ≡ reported file.now (length out.old) }
    ensures writes { out.new ≡ reported_in file.now out.old }
    ensures within { 64 ≤ length out.old → result ≤ length out.old }
{
    if out.len() < 64 {
        return Refusal::Buffer as usize;
    }
    let mut pen = Pen::new(out);
    pen.report(check_short_file(file));
    pen.written()
}

// The check of a file of any length by one number: 0 where it is approved, else that of the refusal or of the rule broken first.
pub fn reel_check(file: &[u8]) -> u64
    ensures { result ≡ check_number file.now (opened file.now) }
{
    match check_file(file).map(|checked| checked.verdict) {
        Ok(Ok(())) => 0,
        Ok(Err(breach)) => u32::from(breach.rule).into(),
        Err(refusal) => refusal.into(),
    }
}

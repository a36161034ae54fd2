ghost use Rattle.std.specs.Prelude.{◌≡◌, ◌≤◌, IfOk};
ghost use Rattle.model.specs.Report.{report_of};
ghost use Rattle.report.specs.Checks.{Checks, told};

use crate::report::House;
use file::contents::Contents;
use file::reading::read;
use model::refusal::Refusal;
use reel::memory::Memory;
use verdict::check::check;
use verdict::verdict::Verdict;

// What a file says, and the verdict on its packets.
#[derive(Clone, Copy)]
pub struct Checked {
    pub contents: Contents,
    pub verdict: Verdict,
}

// The check of a file of any length.
pub fn check_file(file: &[u8]) -> Result<Checked, Refusal>
    ensures { Checks file.now result }
{
    let contents = read(file)?;
    // not refused, since what was read says where the packets end
    let mut reel = Memory::new(&file[..188 * contents.count]).map_err(|(refusal, _)| refusal)?;
    let verdict = check::<_, House>(&mut reel, &contents.sheet);
    Ok(Checked { contents, verdict })
}

// The check of a file that is not too long to report on.
pub fn check_short_file(file: &[u8]) -> Result<Checked, Refusal>
    ensures answers { told result ≡ report_of file.now }
    ensures few { IfOk result (λ checked. checked.contents.count ≤ 999) }
{
    if file.len() > 65_536 {
        return Err(Refusal::TooLong);
    }
    check_file(file)
}

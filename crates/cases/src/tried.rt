// A reel through the library and through the further implementation.
use crate::other::{CLOCK_VALUES, Packet, number};
use crate::verdict2::Checker;
use model::entry::{Entry, Kind};
use model::refusal::Refusal;
use model::sheet::Sheet;
use reel::memory::Memory;
use reel::reel::Reel;
use report::report::House;
use std::alloc::{AllocError, Global};
use std::fmt;
use verdict::check::check;
use verdict::rounds::Rounds;
use verdict::verdict::{Breach, Verdict};

// The one PID of each reel.
const PID: u16 = 256;

// The byte rate of each reel.
const RATE: u32 = 188_000;

// What became of a reel: the library's verdict or refusal, and whether the further implementation says the same of it and
// of two rounds of it, and two rounds of an approved one are approved again.
#[derive(Clone, Copy)]
pub struct Tried {
    pub verdict: Result<Verdict, Refusal>,
    pub agree: bool,
}

impl fmt::Display for Tried {
    fn fmt<W: fmt::Write>(&self, f: &mut fmt::Formatter<W>) -> fmt::Result {
        match self.verdict {
            Ok(Ok(())) => write!(f, "APPROVED")?,
            Ok(
                Err(
                    Breach {
                        round,
                        packet,
                        rule,
                    },
                ),
            ) => write!(f, "BREACH {round} {packet} {}", u32::from(rule))?,
            Err(refusal) => write!(f, "REFUSED {}", u64::from(refusal))?,
        }
        write!(f, ", {}", if self.agree { "agreed" } else { "DIFFERS" })
    }
}

// Whether the library says the same as the further implementation, which numbers the rules by itself.
fn is_same(verdict: Verdict, found: Verdict) -> bool {
    match (verdict, found) {
        (Ok(()), Ok(())) => true,
        (Err(here), Err(there)) => {
            here.round == there.round
                && here.packet == there.packet
                && u32::from(here.rule) == number(there.rule)
        }
        _ => false,
    }
}

// Whether a reel holds exactly these packets.
fn holds<R: Reel>(reel: &mut R, run: &[Packet]) -> bool {
    reel.count() == run.len()
        && run.iter().enumerate().all(|(place, packet)| {
            let mut buffer = [0u8; 188];
            reel.fetch(place, &mut buffer).is_ok() && buffer == *packet
        })
}

// Whether two rounds, as a reel of its own with twice the round length, are approved.
fn is_pile_approved<R: Reel>(rounds: &mut R, entries: &[Entry], round: u64) -> bool {
    match Sheet::new(entries, RATE, round % CLOCK_VALUES * 2 % CLOCK_VALUES) {
        Ok(sheet) => check::<R, House>(rounds, &sheet).is_ok(),
        Err(_) => false,
    }
}

// Tries a reel of one PID of a kind, with this round length.
pub fn try_reel(heap: Global, kind: Kind, round: u64, reel: &[u8]) -> Result<Tried, AllocError> {
    let entries = [Entry { pid: PID, kind }];
    let (packets, rest) = reel.as_chunks::<188>();
    let refused = |refusal: Refusal| Tried {
        verdict: Err(refusal),
        agree: refusal == Refusal::Count && (packets.is_empty() || !rest.is_empty()),
    };
    let sheet = match Sheet::new(&entries, RATE, round) {
        Ok(sheet) => sheet,
        Err(refusal) => return Ok(refused(refusal)),
    };
    let mut memory = match Memory::new(reel.to_vec(heap)?) {
        Ok(memory) => memory,
        Err((refusal, _)) => return Ok(refused(refusal)),
    };
    let verdict = check::<Memory<Vec<u8>>, House>(&mut memory, &sheet);
    let checker = Checker {
        heap,
        entries: &entries,
        rate: RATE,
        round,
    };
    let found = checker.check(packets)?;
    let run = checker.two_rounds(packets)?;
    let agree = match Rounds::new(memory, sheet, 2) {
        Ok(mut rounds) => {
            holds(&mut rounds, run.as_slice())
                && is_same(verdict, found)
                && (verdict.is_err() || is_pile_approved(&mut rounds, &entries, round))
        }
        Err(_) => false,
    };
    Ok(Tried {
        verdict: Ok(verdict),
        agree,
    })
}

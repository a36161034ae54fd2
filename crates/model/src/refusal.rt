ghost use Rattle.std.specs.Prelude.{◌≡◌, Some};
ghost use Rattle.model.specs.Refusals.{refusal_number};
ghost use Rattle.model.specs.Words.{refusal_words};

use std::error::Error;
use std::fmt;

// Why a call was refused, and the number of each refusal.
#[derive(Clone, Copy, Debug, PartialEq, Eq, Hash)]
pub enum Refusal {
    // the file has no room for a trailer, or does not end with its mark
    Trailer = 1,
    // the distance back to the first entry does not fit
    Distance = 2,
    // not a whole number of packets, none, or too many
    Count = 3,
    // a wrong or repeated entry, or one too many
    Entries = 4,
    // a wrong byte rate or round length
    Timing = 5,
    // a window or a number of rounds that does not fit
    Extent = 6,
    // a buffer of the wrong size
    Buffer = 7,
    // a place past the last packet
    PastEnd = 8,
    // a file that is too long to report on
    TooLong = 9,
    // the player gave up
    GaveUp = 10,
    // no check has approved
    NotApproved = 11,
    // a round is open
    RoundOpen = 12,
    // no round is open
    NoRound = 13,
    // a token of another unit or round
    WrongToken = 14,
    // the round's packets are all sent
    AllSent = 15,
    // packets of the round are left
    PacketsLeft = 16,
    // as many rounds as a player plays
    RoundsSpent = 17,
}

// The number of a refusal.
impl From<Refusal> for u64 {
    ghost from_gives = { λ refusal number. number ≡ refusal_number refusal };

    fn from(refusal: Refusal) -> u64 {
        refusal as u64
    }
}

impl Refusal {
    // A refusal in words.
    pub fn words(self) -> &'static str
        ensures { result.now ≡ refusal_words self }
    {
        match self {
            Refusal::Trailer =>
                "the file has no trailer: it is under 24 bytes or does not end with REEL",
            Refusal::Distance =>
                "the distance back to the first entry is not that of 0 to 16 entries, or exceeds the file",
            Refusal::Count =>
                "the bytes before the entries are not exactly the stated number of packets of 188 bytes, 1 to 1,000,000,000",
            Refusal::Entries =>
                "an entry has a wrong PID, kind or fourth byte, a PID stands twice, or there are more than 16",
            Refusal::Timing =>
                "the byte rate is not 1 to 10,000,000, or the round length is no multiple of 300 below 300 x 2^33",
            Refusal::Extent => "the window or the number of rounds does not fit the reel",
            Refusal::Buffer => "the buffer has the wrong size",
            Refusal::PastEnd => "there is no packet at that place",
            Refusal::TooLong => "the file is longer than 65,536 bytes",
            Refusal::GaveUp => "the player gave up",
            Refusal::NotApproved => "no check has approved the reel",
            Refusal::RoundOpen => "a round is open",
            Refusal::NoRound => "no round is open",
            Refusal::WrongToken => "the token is of another unit or round",
            Refusal::AllSent => "all packets of the round are sent",
            Refusal::PacketsLeft => "packets of the round are left to send",
            Refusal::RoundsSpent => "a player plays 1,000,000 rounds at most",
        }
    }
}

impl fmt::Display for Refusal {
    ghost output = { λ refusal. Some (refusal_words refusal) };

    fn fmt<W: fmt::Write>(&self, f: &mut fmt::Formatter<W>) -> fmt::Result {
        f.write_str(self.words())
    }
}

impl Error for Refusal {}

ghost use Rattle.std.specs.Prelude.{◌≡◌, Some};
ghost use Rattle.model.specs.Rules.{rule_number};
ghost use Rattle.model.specs.Words.{rule_words};

use std::error::Error;
use std::fmt;

// The rules that a packet can break. Each has a number, 20 to 31, in this order.
#[derive(Clone, Copy, Debug, PartialEq, Eq, Hash)]
pub enum Rule {
    Sync,
    Header,
    Pid,
    AdaptationField,
    Clock,
    Continuity,
    ClockGap,
    ClockRate,
    Sections,
    Crc,
    Stamps,
    Unclocked,
    // the rule of a watch that is not of this house, by its number
    Other(u32),
}

// The number of a rule.
impl From<Rule> for u32 {
    ghost from_gives = { λ rule number. number ≡ rule_number rule };

    fn from(rule: Rule) -> u32 {
        match rule {
            Rule::Sync => 20,
            Rule::Header => 21,
            Rule::Pid => 22,
            Rule::AdaptationField => 23,
            Rule::Clock => 24,
            Rule::Continuity => 25,
            Rule::ClockGap => 26,
            Rule::ClockRate => 27,
            Rule::Sections => 28,
            Rule::Crc => 29,
            Rule::Stamps => 30,
            Rule::Unclocked => 31,
            Rule::Other(number) => number,
        }
    }
}

impl Rule {
    // A broken rule in words.
    pub fn words(self) -> &'static str
        ensures { result.now ≡ rule_words self }
    {
        match self {
            Rule::Sync => "the packet does not begin with 0x47",
            Rule::Header => "an error flag, scrambling, or a null packet that is more than filler",
            Rule::Pid => "the PID is not on the sheet",
            Rule::AdaptationField => "the adaptation field is malformed",
            Rule::Clock => "a clock value where none belongs, or one whose extension exceeds 299",
            Rule::Continuity => "the continuity counter is wrong",
            Rule::ClockGap => "clock values are too far apart",
            Rule::ClockRate => "the clock does not run at the byte rate",
            Rule::Sections => "the sections are malformed",
            Rule::Crc => "a section fails its CRC_32",
            Rule::Stamps => "the PES header or a time stamp is malformed",
            Rule::Unclocked => "a PID of the clock kind carries no clock value",
            Rule::Other(_) => "a rule of another watch is broken",
        }
    }
}

impl fmt::Display for Rule {
    ghost output = { λ rule. Some (rule_words rule) };

    fn fmt<W: fmt::Write>(&self, f: &mut fmt::Formatter<W>) -> fmt::Result {
        f.write_str(self.words())
    }
}

impl Error for Rule {}

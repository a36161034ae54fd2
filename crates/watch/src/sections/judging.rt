ghost use Rattle.std.specs.Prelude.{◌≡◌, Ok};
ghost use Rattle.model.specs.Packet.{Bytes};
ghost use Rattle.model.specs.Rules.{numbered};
ghost use Rattle.model.specs.Sections as spec;
ghost use Rattle.watch.specs.Readings.{reading_of, phase_in, offence_in};
ghost use Rattle.watch.specs.Assembled.{bytes_of};

use crate::sections::progress::{Next, Progress, Stage};
use crate::sections::reading::read_all;
use crate::sections::section::Section;
use model::rule::Rule;
use packet::header;
use packet::payload::payload_of;

// Stage and section are two arguments below: a row holds a result, and these are asked where it is Ok, with the section lent.

// Where a PID stands once a payload is read.
fn settled(progress: Progress) -> Stage
    ensures { (u : Bytes) → phase_in (Ok result) u ≡ spec.settled (reading_of (Ok progress) u) }
{
    match progress {
        Progress::Open => Stage::Inside,
        Progress::Ended | Progress::Filling => Stage::Between,
    }
}

// The bytes before a packet's first new section: they end the open section exactly.
fn leading(stage: Stage, section: &mut Section, bytes: &[u8]) -> Result<(), Rule>
    ensures { offence_in result ≡ spec.leading (phase_in (Ok stage) (bytes_of section.old)) bytes.now }
{
    match stage {
        Stage::Unstarted => Ok(()),
        Stage::Between if bytes.is_empty() => Ok(()),
        Stage::Between => Err(Rule::Sections),
        Stage::Inside => match read_all(Next::Nothing, section, bytes)? {
            Progress::Ended => Ok(()),
            Progress::Open | Progress::Filling => Err(Rule::Sections),
        },
    }
}

// A payload with the start flag: its first byte says how many bytes stand before the first new section.
fn with_start(stage: Stage, section: &mut Section, payload: &[u8]) -> Result<Stage, Rule>
    ensures { phase_in result (bytes_of section.new) ≡ spec.with_start (phase_in (Ok stage) (bytes_of section.old)) payload.now }
{
    let [pointer, ..] = payload else {
        return Err(Rule::Sections);
    };
    let start = 1 + *pointer as usize;
    if payload.len() <= start {
        return Err(Rule::Sections);
    }
    leading(stage, section, &payload[1..start])?;
    section.clear();
    let progress = read_all(Next::More, section, &payload[start..])?;
    Ok(settled(progress))
}

// A payload without the start flag: it continues the open section.
fn without_start(stage: Stage, section: &mut Section, payload: &[u8]) -> Result<Stage, Rule>
    ensures { phase_in result (bytes_of section.new) ≡ spec.without_start (phase_in (Ok stage) (bytes_of section.old)) payload.now }
{
    match stage {
        Stage::Unstarted => Ok(Stage::Unstarted),
        Stage::Between => Err(Rule::Sections),
        Stage::Inside => {
            let progress = read_all(Next::Stuffing, section, payload)?;
            Ok(settled(progress))
        }
    }
}

// Where a PID stands after a packet.
pub fn advance(
    stage: Result<Stage, Rule>,
    section: &mut Section,
    packet: &[u8; 188],
) -> Result<Stage, Rule>
    ensures { phase_in result (bytes_of section.new) ≡ spec.advance (phase_in stage (bytes_of section.old)) packet.now }
{
    let stage = stage?;
    let payload = payload_of(packet);
    if header::payload_unit_start(packet) {
        with_start(stage, section, payload)
    } else {
        without_start(stage, section, payload)
    }
}

// The offence, if any, between two packets.
pub fn offence(before: Result<Stage, Rule>, after: Result<Stage, Rule>) -> Option<Rule>
    ensures { (u v : Bytes) → numbered result ≡ spec.offence (phase_in before u) (phase_in after v) }
{
    match (before, after) {
        (Ok(_), Err(rule)) => Some(rule),
        _ => None,
    }
}

#![tactic(auto)]

// Plays a reel file: checks it, and writes its restamped rounds to standard output.
ghost use Rattle.player.specs.declared.progress.Token.{Token};
ghost use Rattle.reelplay.specs.Giving.{MayGiveUp};

use anyhow::{Context, anyhow};
use file::reading::read;
use player::progress::Token;
use player::progress::player::Player;
use reel::memory::Memory;
use report::report::House;
use std::io::{BufWriter, Write};
use std::{env, fs};
use verdict::verdict::Breach;

const USAGE: &str = "usage: reelplay FILE ROUNDS";

// This unit's number, which its tokens bear.
const UNIT: u32 = 1;

type Reels = Memory<Vec<u8>>;

// The file's name and the number of rounds.
fn arguments(rt: &HostRuntime) -> anyhow::Result<(String, u32)> {
    let mut args = env::args(rt)?;
    let _program = args.next();
    let name = args.next().context(USAGE)?;
    let rounds = args.next().context(USAGE)?.as_str().parse::<u32>()?;
    Ok((name, rounds))
}

// A player of the file, not checked yet, and how many packets a round has.
fn load(rt: &HostRuntime, name: &str) -> anyhow::Result<(Player<Reels, House>, usize)> {
    let mut bytes = fs::read(rt, name)?;
    let contents = read(bytes.as_slice())?;
    bytes.truncate(188 * contents.count);
    let reel = Memory::new(bytes).map_err(|(refusal, _bytes)| refusal)?;
    Ok((Player::new(reel, contents.sheet, UNIT), contents.count))
}

// Writes the packets of the open round.
fn send_round(
    out: &mut impl Write,
    player: &mut Player<Reels, House>,
    count: usize,
) -> anyhow::Result<()>
    ensures { (t : Token) → MayGiveUp player.old t → MayGiveUp player.new t }
{
    let mut packet = [0u8; 188];
    for _ in 0..count {
        player.send(&mut packet)?;
        out.write_all(&packet)?;
    }
    Ok(out.flush()?)
}

// Gives up the round of a token, which is not refused.
fn abandon(player: &mut Player<Reels, House>, token: Token)
    requires { MayGiveUp player.old token }
{
    match player.give_up(token) {
        Ok(()) => {}
        Err(_) => unreachable!(),
    }
}

// One round, from its token to its end; where it cannot be sent whole it is given up.
fn play_round(
    out: &mut impl Write,
    player: &mut Player<Reels, House>,
    count: usize,
) -> anyhow::Result<()> {
    let token = player.begin()?;
    match send_round(out, player, count) {
        Ok(()) => match player.end(token) {
            Ok(()) => Ok(()),
            Err((refusal, token)) => {
                abandon(player, token);
                Err(refusal.into())
            }
        },
        Err(error) => {
            abandon(player, token);
            Err(error)
        }
    }
}

// Says what the check found, and whether the reel may be played.
fn approve(rt: &HostRuntime, player: &mut Player<Reels, House>) -> anyhow::Result<()> {
    match player.check() {
        Ok(()) => Ok(eprintln!(rt; "approved for every number of rounds")?),
        Err(
            Breach {
                round,
                packet,
                rule,
            },
        ) => {
            let number = u32::from(rule);
            eprintln!(rt; "round {round}, packet {packet} breaks rule {number}: {rule}")?;
            Err(anyhow!("nothing is played"))
        }
    }
}

fn main(rt: HostRuntime) -> anyhow::Result<()> {
    let (name, rounds) = arguments(&rt)?;
    let (mut player, count) = load(&rt, name.as_str())?;
    approve(&rt, &mut player)?;
    let mut out = BufWriter::new(rt.alloc(), rt.stdout())?;
    for round in 0..rounds {
        play_round(&mut out, &mut player, count)?;
        eprintln!(rt; "round {round} played")?;
    }
    let counts = player.question();
    let ended = counts.ended;
    let packets = counts.packets;
    Ok(eprintln!(rt; "{ended} rounds, {packets} packets")?)
}

#![tactic(auto)]

// Leaves, exported for timing beside the same in plain Rust.
ghost use Rattle.std.specs.Prelude.{◌≡◌, Some};
ghost use Rattle.model.specs.Moves.{moved};
ghost use Rattle.packet.specs.Kinds.{Under};
ghost use Rattle.packet.specs.Payloads.{payload_or};
ghost use Rattle.bench.specs.Sizes.{size_of};

use model::entry::Kind;
use packet::moving::move_on_as;
use packet::payload::payload_of_kind;

// How long the payload of a packet of a PID of the clock kind is; 1,000 for an unsound one, as C has numbers only.
#[unsafe(no_mangle)]
pub extern "C" fn bench_payload(packet: &[u8; 188]) -> usize
    ensures { Under (Some Kind.Clock) packet.now (λ es. result ≡ size_of (payload_or es packet.now)) }
{
    match payload_of_kind(Some(Kind::Clock), packet) {
        Ok(Some(payload)) => payload.len(),
        Ok(None) => 0,
        Err(_) => 1000,
    }
}

// Moves a packet of a PID of the clock kind on.
#[unsafe(no_mangle)]
pub extern "C" fn bench_move(packet: &mut [u8; 188], steps: u64, ticks: u64)
    ensures { Under (Some Kind.Clock) packet.old (λ es. packet.new ≡ moved es steps ticks packet.old) }
{
    move_on_as(Some(Kind::Clock), packet, steps, ticks);
}

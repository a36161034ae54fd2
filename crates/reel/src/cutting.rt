ghost use Rattle.std.specs.Prelude.{◌≡◌, false, length};
ghost use Rattle.model.specs.Refusals.{outcome};
ghost use Rattle.model.specs.Reels.{bad_bytes, low, cut, fetched, filled};

use crate::reel::allow_fetch;
use model::count::is_bad_number;
use model::refusal::Refusal;

// Whether some bytes are not a whole number of packets, none, or too many. Each is below 256, as its type says.
#[tactic(auto, using(crate::specs::Cuts::low_same))]
pub fn is_bad_bytes(bytes: &[u8]) -> bool
    ensures answers { result ≡ bad_bytes bytes.now }
    ensures low { low bytes.now ≡ bytes.now }
{
    bytes.len() % 188 != 0 || is_bad_number(bytes.len() / 188)
}

// Copies a packet out of bytes that are a whole number of them.
pub fn fetch_in(bytes: &[u8], place: usize, buffer: &mut [u8]) -> Result<(), Refusal>
    requires { bad_bytes bytes.now ≡ false }
    ensures answers { outcome (λ u. u) result ≡ fetched (cut (low bytes.now)) place (length buffer.old) }
    ensures writes { buffer.new ≡ filled (cut (low bytes.now)) place buffer.old }
{
    allow_fetch(bytes.len() / 188, place, buffer.len())?;
    let at = 188 * place;
    buffer.copy_from_slice(&bytes[at..at + 188]);
    Ok(())
}

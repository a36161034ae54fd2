ghost use Rattle.std.specs.Prelude.{◌≡◌, ◌^◌, ◌<◌};
ghost use Rattle.model.specs.Packet as spec;

pub fn pid(packet: &[u8; 188]) -> u16
    ensures { result ≡ spec.pid packet.now }
{
    u16::from_be_bytes([packet[1] % 32, packet[2]])
}

// A null packet: PID 8191.
pub fn is_null(packet: &[u8; 188]) -> bool
    ensures { result ≡ spec.is_null packet.now }
{
    pid(packet) == 8191
}

// The flags are a bit each, and a function of a bit's place would read no better than the bit.
pub fn payload_unit_start(packet: &[u8; 188]) -> bool
    ensures { result ≡ spec.payload_unit_start packet.now }
{
    packet[1] / 64 % 2 == 1
}

pub fn has_payload(packet: &[u8; 188]) -> bool
    ensures { result ≡ spec.has_payload packet.now }
{
    packet[3] / 16 % 2 == 1
}

pub fn has_adaptation_field(packet: &[u8; 188]) -> bool
    ensures { result ≡ spec.has_adaptation_field packet.now }
{
    packet[3] / 32 % 2 == 1
}

pub fn continuity_counter(packet: &[u8; 188]) -> u8
    ensures { result ≡ spec.continuity_counter packet.now }
{
    packet[3] % 16
}

// The byte of flags of the adaptation field, or 0 where there is none.
fn adaptation_flags(packet: &[u8; 188]) -> u8
    ensures { result ≡ spec.adaptation_flags packet.now }
{
    if has_adaptation_field(packet) && packet[4] >= 1 {
        packet[5]
    } else {
        0
    }
}

pub fn has_pcr(packet: &[u8; 188]) -> bool
    ensures { result ≡ spec.has_pcr packet.now }
{
    adaptation_flags(packet) / 16 % 2 == 1
}

// The clock value that stands in the bytes 6 to 11, in ticks of 27 MHz.
pub fn pcr(packet: &[u8; 188]) -> u64
    ensures value { result ≡ spec.pcr packet.now }
    ensures small { result < 2 ^ 42 }
{
    let high = u32::from_be_bytes([packet[6], packet[7], packet[8], packet[9]]);
    let base = u64::from(high) * 2 + u64::from(packet[10] / 128);
    base * 300 + u64::from(u16::from_be_bytes([packet[10] % 2, packet[11]]))
}

// Where the payload begins: past the header and the adaptation field.
pub fn payload_place(packet: &[u8; 188]) -> usize
    ensures place { result ≡ spec.payload_place packet.now }
    ensures small { result < 261 }
{
    if has_adaptation_field(packet) {
        5 + packet[4] as usize
    } else {
        4
    }
}

ghost use Rattle.std.specs.Prelude.{◌≡◌};
ghost use Rattle.model.specs.Crc as spec;

mod table;

// One more byte.
fn step(running: u32, byte: u8) -> u32
    ensures { result ≡ spec.crc_byte running byte }
{
    let top = (running / 16_777_216) as u8;
    table::entry(top ^ byte) ^ running % 16_777_216 * 256
}

// The running value after some more bytes.
pub fn crc32_from(running: u32, bytes: &[u8]) -> u32
    ensures { result ≡ spec.crc_from running bytes.now }
{
    let mut crc = running;
    for byte in bytes {
        crc = step(crc, *byte);
    }
    crc
}

// CRC_32 of a section.
pub fn crc32(bytes: &[u8]) -> u32
    ensures { result ≡ spec.crc32 bytes.now }
{
    crc32_from(0xFFFF_FFFF, bytes)
}

ghost use Rattle.std.specs.Prelude.{◌≡◌};
ghost use Rattle.model.specs.Packet.{Bytes as ByteList};

// Bytes in memory, owned or lent.
pub trait Bytes {
    ghost list: { Self → ByteList };

    fn as_bytes(&self) -> &[u8]
        ensures { result.now ≡ list self.now };
}

impl Bytes for Vec<u8> {
    ghost list = { λ v. v.items };

    fn as_bytes(&self) -> &[u8] {
        self.as_slice()
    }
}

impl<'a> Bytes for &'a [u8] {
    ghost list = { λ s. s.now };

    fn as_bytes(&self) -> &[u8] {
        *self
    }
}

ghost use Rattle.std.specs.Prelude.{◌≡◌};
ghost use Rattle.model.specs.Tests.{all255};

// Whether all of some bytes are 255. It looks at each, with no way out between, so that many are compared at a time.
pub fn is_stuffing(bytes: &[u8]) -> bool
    ensures { result ≡ all255 bytes.now }
{
    let mut all = true;
    for byte in bytes {
        all = all & (*byte == 255);
    }
    all
}

ghost use Rattle.std.specs.Prelude.{◌≡◌};
ghost use Rattle.model.specs.File.{bad_number};

// Whether a reel cannot have this number of packets.
pub fn is_bad_number(count: usize) -> bool
    ensures { result ≡ bad_number count }
{
    !(1..=1_000_000_000).contains(&count)
}

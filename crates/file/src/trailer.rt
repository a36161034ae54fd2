ghost use Rattle.std.specs.Prelude.{◌≡◌, drop};
ghost use Rattle.model.specs.File.{mark};
ghost use Rattle.file.specs.Trailers.{trailer_of, trailer_in, bytes_of, Ends};

// The last four bytes of every reel file.
pub const MARK: [u8; 4] = [0x52, 0x45, 0x45, 0x4C];

// The fields of a trailer as they stand in a file, right or wrong.
#[derive(Clone, Copy, Debug, PartialEq, Eq)]
pub struct Trailer {
    pub rate: u32,
    pub round: u64,
    pub count: u32,
    pub distance: u32,
}

// The fields of the last 24 bytes.
fn fields(end: &[u8; 24]) -> Trailer
    ensures answers { result ≡ trailer_of end.now }
    ensures again { drop 20 end.now ≡ mark → bytes_of result ≡ end.now }
{
    Trailer {
        rate: u32::from_be_bytes(end[0..4].try_into().unwrap()),
        round: u64::from_be_bytes(end[4..12].try_into().unwrap()),
        count: u32::from_be_bytes(end[12..16].try_into().unwrap()),
        distance: u32::from_be_bytes(end[16..20].try_into().unwrap()),
    }
}

// The trailer of a file that ends with one.
pub fn read_trailer(file: &[u8]) -> Option<Trailer>
    ensures answers { result ≡ trailer_in file.now }
    ensures again { Ends file.now result }
{
    let end = file.last_chunk::<24>()?;
    if !end.ends_with(&MARK) {
        return None;
    }
    Some(fields(end))
}

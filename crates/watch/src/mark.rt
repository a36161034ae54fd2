// A clock value, in ticks of 27 MHz, and the place of its packet.
#[derive(Clone, Copy, Debug, PartialEq, Eq)]
pub struct Mark {
    pub place: u64,
    pub value: u64,
}

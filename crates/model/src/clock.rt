// How many values the clock of a stream has, in ticks of 27 MHz: 300 × 2^33.
pub const CLOCK_VALUES: u64 = 2_576_980_377_600;

#![tactic(auto)]

// The reel file: reading it, writing its tail, and making a whole one of packets.
pub mod contents;
mod entries;
pub mod packing;
mod puts;
pub mod reading;
mod trailer;
pub mod writing;

#![tactic(auto)]

// Reels: stores of packets behind one interface.
pub mod bytes;
mod cutting;
pub mod filler;
pub mod memory;
pub mod reel;
pub mod window;

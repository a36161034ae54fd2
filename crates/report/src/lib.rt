#![tactic(auto)]

// The report on a reel file, for a host program.
mod checking;
mod lines;
mod pen;
pub mod report;

#![tactic(auto)]

// Watches of a run: the trait, two in one, and the three of the house.
pub mod bank;
pub mod clock;
mod mark;
pub mod sections;
mod sound;
pub mod stamps;
pub mod watch;

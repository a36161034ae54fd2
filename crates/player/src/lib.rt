#![tactic(auto)]

// The player of a reel, its token, and every list of calls.
pub mod progress;

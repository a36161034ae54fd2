#![tactic(auto)]

// The verdict on a reel: continuity, tallies, rounds and the check.
pub mod check;
pub mod ledger;
pub mod restamping;
pub mod rounds;
pub mod tallying;
pub mod verdict;

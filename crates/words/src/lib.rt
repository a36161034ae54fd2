#![tactic(auto)]

// What the programs are told: their arguments.
pub mod arguments;

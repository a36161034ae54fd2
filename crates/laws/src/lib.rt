#![tactic(auto)]

// The laws of the definitions, each on the contract of a function.
pub mod theorems;

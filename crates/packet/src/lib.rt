#![tactic(auto)]

// What a transport packet says, whether it is sound, and its fields rewritten in place.
pub mod crc;
mod field;
pub mod form;
pub mod header;
pub mod moving;
pub mod payload;
pub mod pes;
pub mod stuffing;
#[cfg(test)]
mod tests;

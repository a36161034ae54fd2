#![tactic(auto)]

// The words of the subject as plain data: entries, the sheet, rules and refusals, with their numbers and limits. What they mean stands in
// specs/.
pub mod clock;
pub mod count;
pub mod entry;
pub mod refusal;
pub mod rule;
pub mod sheet;

// The header of a message: its fields, and the known field names.
#![tactic(auto)]

pub mod fields;
pub mod names;

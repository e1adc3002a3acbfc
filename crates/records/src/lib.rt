// Records of a table: their layout, and each stored and loaded by value.
#![tactic(auto)]

pub mod address;
pub mod field;
pub mod positions;

// Where a name, a body or an address starts and ends.
#[derive(Clone, Copy, Default)]
pub struct Span {
    pub start: usize,
    pub end: usize,
}

// The octet layer: the class of each byte, letter case, line ends, numbers stored in bytes, texts written, and the answer that every entry point gives.
#![tactic(auto)]

pub mod answers;
pub mod classes;
pub mod classes822;
pub mod letters;
pub mod lines;
pub mod numbers;
pub mod stored;
pub mod writing;

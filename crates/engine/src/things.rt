// What could stand next, as numbers: one sum of them is told, as the C interface has it. A word,
pub const WORD: usize = 1;
// "at" and "@", which are one class,
pub const AT: usize = 2 + 16;
// "<",
pub const LESS_THAN: usize = 4;
// ">",
pub const GREATER_THAN: usize = 8;
// ",",
pub const COMMA: usize = 32;
// ";",
pub const SEMICOLON: usize = 64;
// ":",
pub const COLON: usize = 128;
// and the end of the text.
pub const BODY_END: usize = 256;

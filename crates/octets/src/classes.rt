// The class of each of the 256 byte values, in one table.
ghost use Rattle.std.specs.Prelude.{◌≡◌, T, get_or};
ghost use Rattle.octets.specs.Believed.Classes.{class_of, by_range};

// Where a fault, a comment, a quoted-string or a domain literal may begin.
pub const CONTROL: u8 = 0;

pub const OPEN_PARENTHESIS: u8 = 1;

pub const QUOTE: u8 = 2;

pub const OPEN_BRACKET: u8 = 3;

pub const ABOVE_127: u8 = 4;

// White space.
pub const WHITE: u8 = 5;

// Specials that are symbols by themselves.
pub const CLOSE_PARENTHESIS: u8 = 6;

pub const CLOSE_BRACKET: u8 = 7;

pub const LESS_THAN: u8 = 8;

pub const GREATER_THAN: u8 = 9;

pub const AT_SIGN: u8 = 10;

pub const COMMA: u8 = 11;

pub const SEMICOLON: u8 = 12;

pub const COLON: u8 = 13;

pub const DOT: u8 = 14;

pub const BACKSLASH: u8 = 15;

// What atoms are made of.
pub const LETTER: u8 = 16;

pub const DIGIT: u8 = 17;

pub const OTHER: u8 = 18;

// A function that looks bytes up in a loop takes this table by reference.
pub const CLASSES: [u8; 256] = [
    0, 0, 0, 0, 0, 0, 0, 0, 0, 5, 0, 0, 0, 0, 0, 0, 0, 0, 0, 0, 0, 0, 0, 0, 0, 0, 0, 0, 0, 0, 0, 0,
    5, 18, 2, 18, 18, 18, 18, 18, 1, 6, 18, 18, 11, 18, 18, 18, 17, 17, 17, 17, 17, 17, 17, 17, 17,
    17, 13, 12, 8, 18, 9, 18, 10, 16, 16, 16, 16, 16, 16, 16, 16, 16, 16, 16, 16, 16, 16, 16, 16,
    16, 16, 16, 16, 16, 16, 16, 16, 16, 16, 18, 15, 18, 18, 18, 18, 16, 16, 16, 16, 16, 16, 16, 16,
    16, 16, 16, 16, 16, 16, 16, 16, 16, 16, 16, 16, 16, 16, 16, 16, 16, 16, 18, 18, 18, 18, 0, 4,
    4, 4, 4, 4, 4, 4, 4, 4, 4, 4, 4, 4, 4, 4, 4, 4, 4, 4, 4, 4, 4, 4, 4, 4, 4, 4, 4, 4, 4, 4, 4, 4,
    4, 4, 4, 4, 4, 4, 4, 4, 4, 4, 4, 4, 4, 4, 4, 4, 4, 4, 4, 4, 4, 4, 4, 4, 4, 4, 4, 4, 4, 4, 4, 4,
    4, 4, 4, 4, 4, 4, 4, 4, 4, 4, 4, 4, 4, 4, 4, 4, 4, 4, 4, 4, 4, 4, 4, 4, 4, 4, 4, 4, 4, 4, 4, 4,
    4, 4, 4, 4, 4, 4, 4, 4, 4, 4, 4, 4, 4, 4, 4, 4, 4, 4, 4, 4, 4, 4, 4, 4, 4, 4, 4, 4, 4, 4, 4,
];

// The class of a byte, in a table whose rule was tested over the whole.
fn entry(classes: &[u8; 256], b: u8) -> u8
    requires { T (by_range classes.now) }
    ensures { result ≡ class_of b }
{
    classes[b as usize]
}

// The class of a byte.
pub fn class(b: u8) -> u8
    ensures { result ≡ class_of b }
{
    let classes = &CLASSES;
    entry(classes, b)
}

// The class of a byte in a table that is handed on.
pub fn class_in(classes: &[u8; 256], b: u8) -> u8
    ensures { result ≡ get_or classes.now b 0 }
{
    classes[b as usize]
}

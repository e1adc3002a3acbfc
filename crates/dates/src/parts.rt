// The parts of a date, found one after the other.
ghost use Rattle.std.specs.Prelude.{◌≡◌, ◌≤◌, ◌<◌, length};
ghost use Rattle.dates.specs.Believed.Parts.{is_run, key_of};
ghost use Rattle.dates.specs.Ties.Steps.{key_number, Within, left, TokenIs, RunEnds, token_at};

use octets::classes::{DIGIT, LETTER};
use scanner::{Class, Next};

// What a part is: a run, a mark, or no part of a date; or that there is none left.
#[derive(Clone, Copy, PartialEq, Eq)]
pub(crate) enum Key {
    Digits,
    Letters,
    Comma,
    Colon,
    Plus,
    Minus,
    Other,
    End,
}

impl Key {
    // Whether bytes of a key form runs.
    fn forms_runs(self) -> bool
        ensures { result ≡ is_run (key_number self) }
    {
        matches!(self, Key::Digits | Key::Letters)
    }
}

// A part: its key, where it starts and stops, and the end of the symbol that it stands in.
#[derive(Clone, Copy)]
pub(crate) struct Token {
    pub key: Key,
    pub start: usize,
    pub stop: usize,
    pub end: usize,
}

impl Token {
    // A part of no bytes.
    pub(crate) fn empty(key: Key, at: usize) -> Token
        ensures { result ≡ token_at key at }
    {
        Token {
            key,
            start: at,
            stop: at,
            end: at,
        }
    }
}

// The key of a byte.
fn key_of(classes: &[u8; 256], b: u8) -> Key
    ensures { key_number result ≡ key_of classes.now b }
{
    match octets::classes::class_in(classes, b) {
        DIGIT => Key::Digits,
        LETTER => Key::Letters,
        _ => match b {
            b',' => Key::Comma,
            b':' => Key::Colon,
            b'+' => Key::Plus,
            b'-' => Key::Minus,
            _ => Key::Other,
        },
    }
}

// These take the fields of a cursor one by one: a method would need its invariant, which holds only once the part is found.

// The end of the bytes of one key from a position up to an end.
fn run_end(classes: &[u8; 256], text: &[u8], at: usize, end: usize, key: Key) -> usize
    requires { Within text.now at end }
    ensures { RunEnds classes.now text.now at end (key_number key) result }
{
    let same = text[at..end]
        .iter()
        .take_while(|b| key_of(classes, **b) == key)
        .count();
    at + same
}

// The first part of the rest of a symbol.
fn first_part(classes: &[u8; 256], text: &[u8], at: usize, end: usize) -> Token
    requires { (at < end) × (end ≤ length text.now) }
    ensures { TokenIs classes.now text.now (left classes.now text.now at end) result }
{
    let key = key_of(classes, text[at]);
    let stop = if key.forms_runs() {
        run_end(classes, text, at + 1, end, key)
    } else {
        at + 1
    };
    Token {
        key,
        start: at,
        stop,
        end,
    }
}

// The first part from a position on, of the rest of a symbol or of what comes after it.
// Inlined, or each part is copied once more.
#[inline(always)]
pub(crate) fn part_from(classes: &[u8; 256], text: &[u8], at: usize, end: usize) -> Token
    requires { Within text.now at end }
    ensures { TokenIs classes.now text.now (left classes.now text.now at end) result }
{
    if at < end {
        return first_part(classes, text, at, end);
    }
    match scanner::next_by(classes, text, end) {
        Next::Found(symbol) => match symbol.class {
            Class::Quoted | Class::Literal => Token::empty(Key::Other, symbol.end),
            _ => first_part(classes, text, symbol.start, symbol.end),
        },
        Next::Ended | Next::Fault(_, _) => Token::empty(Key::End, end),
    }
}

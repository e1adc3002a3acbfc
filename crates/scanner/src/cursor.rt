// A cursor: the symbol ahead of a walk, held in place and moved on in place.
ghost use Rattle.std.specs.Prelude.{◌≡◌, ◌≤◌, ◌<◌, ltb, length, get_or};
ghost use Rattle.octets.specs.Believed.Classes.{quote, close_bracket, letter};
ghost use Rattle.scanner.specs.Believed.Kinds.{kind_of_class};
ghost use Rattle.scanner.specs.Believed.Scanning.{scan_by};
ghost use Rattle.scanner.specs.Believed.Answers.{found_at, next_of};
ghost use Rattle.scanner.specs.Ties.Steps.{ReturnIsControl, DataPasses, quote_at};
ghost use Rattle.scanner.specs.Ties.Cursors.{IsSingle, comes_at, cursor_at, without_symbol, moved};

use crate::{Class, Next, atom_class, next_by, plain_end};
use octets::classes::{
    AT_SIGN, BACKSLASH, CLOSE_BRACKET, COLON, COMMA, CONTROL, DOT, GREATER_THAN, LESS_THAN, LETTER,
    QUOTE, SEMICOLON, WHITE, class_in,
};

// What stands ahead: a symbol of a class, the end of the text, or a fault of a number.
#[derive(Clone, Copy, PartialEq, Eq)]
pub enum Ahead {
    Symbol(Class),
    End,
    Faulty(u8),
}

// What stands ahead, and its start; of a symbol its end and the length of its meaning, else 0; and the position from which
// it was looked for: it stands apart where it starts after that. At the end of the text its start is 0.
#[derive(Clone, Copy)]
pub struct Cursor {
    pub ahead: Ahead,
    pub start: usize,
    pub end: usize,
    pub length: usize,
    pub from: usize,
}

// The class of the symbol that a byte with this class is by itself.
fn single(class: u8) -> Class
    requires { (close_bracket < class) × (class < letter) }
    ensures { IsSingle (kind_of_class class) result }
{
    match class {
        LESS_THAN => Class::LessThan,
        GREATER_THAN => Class::GreaterThan,
        AT_SIGN => Class::At,
        COMMA => Class::Comma,
        SEMICOLON => Class::Semicolon,
        COLON => Class::Colon,
        DOT => Class::Dot,
        _ => Class::Stray,
    }
}

// The first byte at or after a position that a quoted-string may take for other than data, by a table of classes in
// which CR is a control byte.
fn past_data(classes: &[u8; 256], text: &[u8], at: usize) -> usize
    requires { (at ≤ length text.now) × ReturnIsControl classes.now }
    ensures { DataPasses classes.now text.now at result }
{
    // by hand: a `for` over the positions costs two more instructions a byte
    let mut p = at;
    while p < text.len() {
        let class = class_in(classes, text[p]);
        if class < WHITE || class == BACKSLASH {
            return p;
        }
        p += 1;
    }
    p
}

// Whether a quote stands at a position.
fn quote_at(classes: &[u8; 256], text: &[u8], at: usize) -> bool
    ensures { result ≡ quote_at classes.now text.now at }
{
    at < text.len() && class_in(classes, text[at]) == QUOTE
}

impl Cursor {
    // A cursor that is to look from a position on.
    pub fn new(at: usize) -> Cursor
        ensures { result ≡ cursor_at at }
    {
        Cursor {
            ahead: Ahead::End,
            start: at,
            end: at,
            length: 0,
            from: at,
        }
    }

    // Put a symbol ahead.
    fn put(&mut self, class: Class, start: usize, end: usize, length: usize)
        ensures { self.new ≡ moved (found_at class start end length (ltb self.old.from start)) self.old.from }
    {
        self.ahead = Ahead::Symbol(class);
        self.start = start;
        self.end = end;
        self.length = length;
    }

    // Put the end of the text or a fault ahead.
    fn put_no_symbol(&mut self, ahead: Ahead, start: usize)
        ensures { self.new ≡ without_symbol ahead start self.old.from }
    {
        self.ahead = ahead;
        self.start = start;
        self.end = 0;
        self.length = 0;
    }

    // Move on to the first symbol at or after a position, whatever stands there; apart, so that `step` needs no room of its own.
    #[inline(never)]
    fn step_any(&mut self, classes: &[u8; 256], text: &[u8], at: usize)
        ensures { self.new ≡ moved (comes_at classes.now text.now self.old.from at) self.old.from }
    {
        match next_by(classes, text, at) {
            Next::Found(symbol) => {
                self.put(symbol.class, symbol.start, symbol.end, symbol.length)
            }
            Next::Ended => self.put_no_symbol(Ahead::End, 0),
            Next::Fault(number, position) => self.put_no_symbol(Ahead::Faulty(number), position),
        }
    }

    // Move on to the quoted-string whose opening quote stands at a position, fast where its data stand for themselves.
    fn step_quoted(&mut self, classes: &[u8; 256], text: &[u8], at: usize)
        requires { (at < length text.now) × (get_or classes.now (get_or text.now at 0) 0 ≡ quote) × ReturnIsControl classes.now }
        ensures { self.new ≡ moved (comes_at classes.now text.now self.old.from at) self.old.from }
    {
        let end = past_data(classes, text, at + 1);
        if quote_at(classes, text, end) {
            self.put(Class::Quoted, at, end + 1, end - at - 1);
        } else {
            self.step_any(classes, text, at);
        }
    }

    // Move on to the symbol that comes after the one ahead: white space, atoms and marks are told by few comparisons of classes.
    pub fn step(&mut self, classes: &[u8; 256], text: &[u8])
        ensures { self.new ≡ moved (next_of (scan_by classes.now text.now self.old.end)) self.old.end }
    {
        let at = self.end;
        self.from = at;
        if class_in(classes, b'\r') != CONTROL {
            return self.step_any(classes, text, at);
        }
        for p in at..text.len() {
            let class = class_in(classes, text[p]);
            if LETTER <= class {
                let end = plain_end(classes, text, p + 1);
                return self.put(atom_class(text, p, end), p, end, end - p);
            }
            if CLOSE_BRACKET < class {
                return self.put(single(class), p, p + 1, 1);
            }
            if class == QUOTE {
                return self.step_quoted(classes, text, p);
            }
            if class != WHITE {
                return self.step_any(classes, text, p);
            }
        }
        self.put_no_symbol(Ahead::End, 0);
    }
}

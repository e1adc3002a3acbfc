// A cursor over the parts of a date.
ghost use Rattle.std.specs.Prelude.{◌≡◌, ◌≤◌, length, eqb};
ghost use Rattle.dates.specs.Executable.Form.{first_key, after, done};
ghost use Rattle.dates.specs.Ties.Steps.{key_number, left, PastIs, RunIs};

use crate::parts::{Key, Token, part_from};
use std::marker::Model;

// The part ahead, in a text. A clause sees the parts from the one ahead on.
#[derive(Drop)]
pub(crate) struct Cursor<'a> {
    classes: &'a [u8; 256],
    text: &'a [u8],
    ahead: Token,
}

impl<'a> Model for Cursor<'a> {
    ghost use Rattle.std.specs.Prelude.{List};
    ghost use Rattle.dates.specs.Believed.Parts.{Part};

    ghost Value = { List Part };

    ghost use Rattle.dates.specs.Ties.Cursor.{parts_ahead, IsCursor};

    ghost view = { parts_ahead };

    ghost invariant = { IsCursor };
}

impl<'a> Cursor<'a> {
    // Before the first part from a position on.
    pub(crate) fn new(classes: &'a [u8; 256], text: &'a [u8], at: usize) -> Cursor<'a>
        requires { at ≤ length text.now }
        ensures { result ≡ left classes.now text.now at at }
    {
        Cursor {
            classes,
            text,
            ahead: part_from(classes, text, at, at),
        }
    }

    // Move on to the part after the one ahead.
    pub(crate) fn step(&mut self)
        ensures { self.new ≡ after self.old }
    {
        self.ahead = part_from(self.classes, self.text, self.ahead.stop, self.ahead.end);
    }

    // Whether a part of a key is ahead.
    pub(crate) fn sees(&self, key: Key) -> bool
        ensures { result ≡ eqb (first_key self.now) (key_number key) }
    {
        self.ahead.key == key
    }

    // Whether no part is left.
    pub(crate) fn is_done(&self) -> bool
        ensures { result ≡ done self.now }
    {
        self.ahead.key == Key::End
    }

    // Whether a mark is ahead; past it, if it is.
    pub(crate) fn past(&mut self, mark: Key) -> bool
        ensures { PastIs self.old (key_number mark) self.new result }
    {
        let seen = self.sees(mark);
        if seen {
            self.step();
        }
        seen
    }

    // The bytes of the part ahead, if it is of a key.
    pub(crate) fn run(&self, key: Key) -> Option<&'a [u8]>
        ensures { RunIs self.now (key_number key) result }
    {
        if self.ahead.key != key {
            return None;
        }
        Some(&self.text[self.ahead.start..self.ahead.stop])
    }
}

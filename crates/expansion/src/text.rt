// A text, and what its Includes lead to, and where they begin and end.
ghost use Rattle.std.specs.Prelude.{◌≡◌, ◌≤◌, length};
ghost use Rattle.octets.specs.Believed.Classes.{class_table};
ghost use Rattle.octets.specs.Believed.Numbers.{message_limit};

use crate::levels::Levels;
use octets::numbers::STORE_NAME_SIZE;
use plain::places::Place;
use scanner::{Class, Next, Symbol};

// What an Include holds.
#[derive(Clone, Copy)]
enum Held {
    // A mailbox.
    Single,
    // An angle list, from after its "<".
    Angled(usize),
}

// What is read so far of an address in an angle list: nothing, words without nodes, or nodes.
#[derive(Clone, Copy, PartialEq, Eq)]
enum Seen {
    Nothing,
    Words,
    Nodes,
}

// The kind of an Include.
const INCLUDE: u8 = 5;

// A text, with the classes by which its bytes are read.
//
// The scanner is called with the two fields: a method between copies each answer, and an expansion takes 7 % more instructions.
#[derive(Clone, Copy)]
pub(crate) struct Text<'a> {
    pub(crate) classes: &'a [u8; 256],
    pub(crate) bytes: &'a [u8],
    ghost known: { classes.now ≡ class_table },
    ghost short: { length bytes.now ≤ message_limit },
}

impl Text<'_> {
    ghost use Rattle.std.specs.Prelude.{true, false};
    ghost use Rattle.std.proofs.lemmas.List.Edits.{sets};
    ghost use Rattle.expansion.specs.Believed.Store.{lowest as lowest_named};
    ghost use Rattle.expansion.specs.Ties.Walk.{held_by, only, first_of};
    ghost use Rattle.expansion.specs.Ties.Steps.{as_held, skip_to, symbols_at, address_at, named_if, IncludeWordIs, IncludeIs, OpenedIs};

    // The plain text of the address that starts at a position, as far as there is room: its length.
    fn address_text(&self, at: usize, own: &mut [u8]) -> usize
        ensures { (result ≡ length (address_at self.now at)) × (own.new ≡ sets own.old 0 (address_at self.now at)) }
    {
        let mut n: usize = 0;
        let mut place = Place::Start;
        let mut coming = scanner::next_by(self.classes, self.bytes, at);
        loop {
            let Next::Found(symbol) = coming else {
                return n;
            };
            match symbol.class {
                Class::GreaterThan | Class::Comma | Class::Semicolon => return n,
                _ => {
                    coming = scanner::next_by(self.classes, self.bytes, symbol.end);
                    let colon = plain::is_colon(coming);
                    n = plain::write_symbol(self.classes, self.bytes, symbol, place, colon, own, n);
                    place = plain::places::after(symbol.class, place, colon);
                }
            }
        }
    }

    // The lowest record whose name is the plain text of the address that starts at a position.
    fn named_by(&self, at: usize, store: &[u8]) -> Option<usize>
        ensures { result ≡ lowest_named store.now (address_at self.now at) }
    {
        let mut own: [u8; STORE_NAME_SIZE] = [0; STORE_NAME_SIZE];
        let n = self.address_text(at, &mut own);
        if STORE_NAME_SIZE < n {
            return None;
        }
        crate::lowest(store, &own[..n])
    }

    // What an Include holds, from after its second ":", if either.
    fn held_at(&self, at: usize) -> Option<Held>
        ensures { held_by (symbols_at self.now at) ≡ as_held self.now.classes.now self.now.bytes.now result }
    {
        let mut p = at;
        loop {
            let Next::Found(symbol) = scanner::next_by(self.classes, self.bytes, p) else {
                return None;
            };
            match symbol.class {
                Class::Atom | Class::Quoted => p = symbol.end,
                Class::At => return Some(Held::Single),
                Class::LessThan => return Some(Held::Angled(symbol.end)),
                _ => return None,
            }
        }
    }

    // Whether the list of an angle list, from a position on, holds mailboxes only.
    fn only_mailboxes(&self, at: usize) -> bool
        ensures { result ≡ only Seen.Nothing (symbols_at self.now at) }
    {
        let mut p = at;
        let mut seen = Seen::Nothing;
        loop {
            let Next::Found(symbol) = scanner::next_by(self.classes, self.bytes, p) else {
                return false;
            };
            match symbol.class {
                Class::Atom | Class::Quoted => {
                    if seen == Seen::Nothing {
                        seen = Seen::Words;
                    }
                }
                Class::At => seen = Seen::Nodes,
                Class::Comma => {
                    if seen == Seen::Words {
                        return false;
                    }
                    seen = Seen::Nothing;
                }
                Class::GreaterThan => return seen != Seen::Words,
                _ => return false,
            }
            p = symbol.end;
        }
    }

    // The record named by the address that starts at a position, if one starts there.
    fn named_if(&self, at: usize, store: &[u8], starts: bool) -> Option<usize>
        ensures { result ≡ named_if self.now.classes.now self.now.bytes.now at store.now starts }
    {
        if starts {
            return self.named_by(at, store);
        }
        None
    }

    // Of the mailboxes of an angle list, from a position on, the first that is a record's name.
    fn first_stored(&self, at: usize, store: &[u8]) -> Option<usize>
        ensures { result ≡ first_of store.now true (symbols_at self.now at) }
    {
        let mut p = at;
        let mut starts = true;
        loop {
            let Next::Found(symbol) = scanner::next_by(self.classes, self.bytes, p) else {
                return None;
            };
            match symbol.class {
                Class::GreaterThan => return None,
                Class::Comma => {
                    starts = true;
                    p = symbol.end;
                }
                _ => match self.named_if(p, store, starts) {
                    Some(i) => return Some(i),
                    None => {
                        starts = false;
                        p = symbol.end;
                    }
                },
            }
        }
    }

    // The record that an Include leads to, from after its second ":"; one that stands directly in another typed address leads nowhere.
    pub(crate) fn leads_to(&self, at: usize, levels: Levels, store: &[u8]) -> Option<usize>
        ensures { OpenedIs self.now.classes.now self.now.bytes.now at levels store.now result }
    {
        if levels.in_typed() {
            return None;
        }
        match self.held_at(at)? {
            Held::Single => self.named_by(at, store),
            Held::Angled(behind) => {
                if self.only_mailboxes(behind) {
                    return self.first_stored(behind, store);
                }
                None
            }
        }
    }

    // If the atom of an Include and ":" come next, at or after a position: the position behind them.
    fn include_word(&self, at: usize) -> Option<usize>
        ensures { IncludeWordIs self.now.classes.now self.now.bytes.now at result }
    {
        let Next::Found(word) = scanner::next_by(self.classes, self.bytes, at) else {
            return None;
        };
        if word.class != Class::Atom {
            return None;
        }
        if grammar::typed_kind(&self.bytes[word.start..word.end]) != INCLUDE {
            return None;
        }
        let Next::Found(mark) = scanner::next_by(self.classes, self.bytes, word.end) else {
            return None;
        };
        if mark.class != Class::Colon {
            return None;
        }
        Some(mark.end)
    }

    // If an Include begins with a symbol that stands at a place: the position behind its second ":".
    pub(crate) fn include_at(&self, symbol: Symbol, place: Place) -> Option<usize>
        ensures { IncludeIs self.now.classes.now self.now.bytes.now symbol.class place symbol.end result }
    {
        if symbol.class != Class::Colon {
            return None;
        }
        match place {
            Place::Typing | Place::Word | Place::Node | Place::Closed => None,
            _ => self.include_word(symbol.end),
        }
    }

    // Where the symbols of an Include end, from after its first ":" or further on.
    pub(crate) fn include_end(&self, at: usize) -> usize
        ensures { (symbols_at self.now result ≡ skip_to false (symbols_at self.now at)) × (at ≤ result) }
    {
        let mut p = at;
        // In the angle list of the Include.
        let mut inner = false;
        loop {
            let Next::Found(symbol) = scanner::next_by(self.classes, self.bytes, p) else {
                return p;
            };
            match symbol.class {
                Class::LessThan => {
                    inner = true;
                    p = symbol.end;
                }
                Class::GreaterThan => {
                    if !inner {
                        return p;
                    }
                    inner = false;
                    p = symbol.end;
                }
                Class::Comma | Class::Semicolon => {
                    if !inner {
                        return p;
                    }
                    p = symbol.end;
                }
                _ => p = symbol.end,
            }
        }
    }
}

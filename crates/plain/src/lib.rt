// The plain text of an address list, by one walk over its symbols.
//
// A text is written into a lent part from a place on; past the part's end nothing is stored, and it is counted all the same,
// so that the same walk measures a text and writes it.
#![tactic(auto)]

ghost use Rattle.std.specs.Prelude.{◌≡◌, [], ◌∷◌, ◌++◌, ◌+◌, ◌*◌, ◌-◌, ◌≤◌, ◌<◌, length};
ghost use Rattle.std.proofs.lemmas.List.Edits.{sets};
ghost use Rattle.octets.specs.Believed.Fitting.{fitting_answer, fitting_text};
ghost use Rattle.octets.specs.Believed.Octets.{line_feed_byte, return_byte};
ghost use Rattle.octets.specs.Ties.Writing.{count_limit, Wrote};
ghost use Rattle.scanner.specs.Ties.Meanings.{data_at, meaning_at};
ghost use Rattle.plain.specs.Believed.PlainText.{needs_backslash, backslash_text, data_text, quoted_text};
ghost use Rattle.plain.specs.Ties.Walking.{gap_text, symbol_text, written_text};
ghost use Rattle.addresses.specs.Believed.Outcome.{AnsweredBy};
ghost use Rattle.plain.specs.Believed.Condition2.{Condition2};
ghost use Rattle.plain.specs.Believed.Written.{plain_outcome};
ghost use Rattle.plain.specs.Ties.Sinks.{Puts};
ghost use Rattle.plain.specs.Ties.Writing.{text_limit, is_colon, colon_ahead, can_write, symbol_if};

use octets::answers::Answer;
use octets::classes::CLASSES;
use places::{Gap, Place};
use scanner::cursor::{Ahead, Cursor};
use scanner::{Class, Datum, Next, Symbol};

pub mod places;

// The most bytes of a text whose symbols are written, and the most that are written before one.
const TEXT_LIMIT: usize = 1 << 30;

const WRITTEN_LIMIT: usize = 1 << 62;

// The most bytes of plain text that a byte of a body leads to.
const MOST_FOR_A_BYTE: usize = 4;

// Whether a backslash is to stand before a byte of data.
fn needs_backslash(b: u8) -> bool
    ensures { result ≡ needs_backslash b }
{
    matches!(b, b'"' | b'\\' | b'\r' | b'\n')
}

// A lent part with so many bytes of a text written in it: past the part's end nothing is stored, and it is counted all the same.
#[derive(Drop)]
struct Sink<'a> {
    out: &'a mut [u8],
    n: usize,
}

impl Sink<'_> {
    // One byte.
    fn put(&mut self, b: u8)
        requires { self.old.n < count_limit }
        ensures { Puts (λ rest. b ∷ rest) 1 self.old self.new }
    {
        octets::stored::store_byte(self.out, self.n, b);
        self.n += 1;
    }

    // The bytes of an atom.
    fn put_bytes(&mut self, bytes: &[u8])
        requires { self.old.n + length bytes.now ≤ count_limit }
        ensures { Puts (λ rest. bytes.now ++ rest) (length bytes.now) self.old self.new }
    {
        octets::writing::store_bytes(self.out, self.n, bytes);
        self.n += bytes.len();
    }

    // What stands before a symbol.
    fn put_gap(&mut self, gap: Gap)
        requires { self.old.n + 2 ≤ count_limit }
        ensures { Puts (gap_text gap) 2 self.old self.new }
    {
        match gap {
            Gap::Nothing => (),
            Gap::Space => self.put(b' '),
            Gap::CommaSpace => self.put_bytes(b", "),
        }
    }

    // One byte of data, after a backslash where it needs one.
    fn put_datum(&mut self, b: u8)
        requires { self.old.n + 2 ≤ count_limit }
        ensures { Puts (λ rest. backslash_text (needs_backslash b) (b ∷ rest)) 2 self.old self.new }
    {
        if needs_backslash(b) {
            self.put(b'\\');
        }
        self.put(b);
    }

    // CR and LF as data, each after a backslash, and the white space after them.
    fn put_line_end(&mut self, white: u8)
        requires { self.old.n + 6 ≤ count_limit }
        ensures { Puts (data_text (return_byte ∷ line_feed_byte ∷ white ∷ [])) 6 self.old self.new }
    {
        self.put_bytes(b"\\\r\\\n");
        self.put_datum(white);
    }

    // The data of a quoted-string from a position inside it on.
    fn put_data(&mut self, classes: &[u8; 256], text: &[u8], at: usize)
        requires { (at ≤ length text.now) × (self.old.n + 2 * (length text.now - at) ≤ count_limit) }
        ensures { Puts (data_text (data_at classes.now text.now at)) (2 * (length text.now - at)) self.old self.new }
    {
        let mut p = at;
        while let Some(datum) = scanner::next_datum(classes, text, p) {
            match datum {
                Datum::Byte(b, behind) => {
                    self.put_datum(b);
                    p = behind;
                }
                Datum::LineEnd(white, behind) => {
                    self.put_line_end(white);
                    p = behind;
                }
            }
        }
    }

    // A quoted-string whose opening quote stands at start.
    fn put_quoted(&mut self, classes: &[u8; 256], text: &[u8], start: usize)
        requires { (start < length text.now) × (self.old.n + 2 * length text.now ≤ count_limit) }
        ensures { Puts (quoted_text (data_at classes.now text.now (start + 1))) (2 * length text.now) self.old self.new }
    {
        self.put(b'"');
        self.put_data(classes, text, start + 1);
        self.put(b'"');
    }

    // A symbol with what stands before it.
    fn put_symbol(
        &mut self,
        classes: &[u8; 256],
        text: &[u8],
        symbol: Symbol,
        place: Place,
        colon: bool,
    )
        requires { (symbol.start < symbol.end) × (symbol.end ≤ length text.now) × (self.old.n + 2 * length text.now + 3 ≤ count_limit) }
        ensures { Puts (symbol_text symbol.class (meaning_at classes.now text.now symbol.class symbol.start symbol.end) place colon) (2 * length text.now + 3) self.old self.new }
    {
        match symbol.class {
            Class::Atom => {
                self.put_gap(place.gap_before(colon));
                self.put_bytes(&text[symbol.start..symbol.end]);
            }
            Class::Quoted => {
                self.put_gap(place.gap_before(false));
                self.put_quoted(classes, text, symbol.start);
            }
            Class::At => self.put_bytes(b" at"),
            Class::LessThan => {
                self.put_gap(place.gap_before(false));
                self.put(b'<');
            }
            Class::GreaterThan => self.put(b'>'),
            Class::Semicolon => self.put(b';'),
            Class::Colon => {
                self.put_gap(place.gap_before_colon());
                self.put(b':');
            }
            Class::Comma | Class::Stray | Class::Dot | Class::Literal => (),
        }
    }
}

// Whether a symbol stands in a text, and a count holds the text written from n on.
fn can_write(text: &[u8], symbol: Symbol, n: usize) -> bool
    ensures { result ≡ can_write text.now symbol.start symbol.end n }
{
    symbol.start < symbol.end
        && symbol.end <= text.len()
        && text.len() <= TEXT_LIMIT
        && n <= WRITTEN_LIMIT
}

// A symbol with what stands before it, as far as there is room: the next place. Nothing, where it cannot be written.
// `expansion` hands the part and the place apart, and this name and these parameters stay.
pub fn write_symbol(
    classes: &[u8; 256],
    text: &[u8],
    symbol: Symbol,
    place: Place,
    colon: bool,
    out: &mut [u8],
    n: usize,
) -> usize
    ensures { Wrote (symbol_if (can_write text.now symbol.start symbol.end n) symbol.class (meaning_at classes.now text.now symbol.class symbol.start symbol.end) place colon) out.old n out.new result × (result ≤ n + 2 * length text.now + 3) }
{
    let mut sink = Sink { out, n };
    if can_write(text, symbol, n) {
        sink.put_symbol(classes, text, symbol, place, colon);
    }
    sink.n
}

// Whether a symbol is ":".
pub fn is_colon(next: Next) -> bool
    ensures { result ≡ is_colon next }
{
    matches!(next, Next::Found(symbol) if symbol.class == Class::Colon)
}

// Whether ":" stands ahead.
fn colon_ahead(ahead: Ahead) -> bool
    ensures { result ≡ colon_ahead ahead }
{
    ahead == Ahead::Symbol(Class::Colon)
}

// Write the plain text of the body that runs from start to the text's end, as far as there is room: the answer is its length.
fn write_by(classes: &[u8; 256], text: &[u8], start: usize, out: &mut [u8]) -> usize
    requires { length text.now ≤ text_limit }
    ensures { (result ≡ length (written_text classes.now text.now start)) × (out.new ≡ sets out.old 0 (written_text classes.now text.now start)) }
{
    let mut cursor = Cursor::new(start);
    cursor.step(classes, text);
    let mut sink = Sink { out, n: 0 };
    let mut place = Place::Start;
    while let Ahead::Symbol(class) = cursor.ahead {
        let symbol = Symbol {
            class,
            start: cursor.start,
            end: cursor.end,
            length: cursor.length,
            apart: cursor.from < cursor.start,
        };
        cursor.step(classes, text);
        let colon_next = colon_ahead(cursor.ahead);
        sink.put_symbol(classes, text, symbol, place, colon_next);
        place = places::after(class, place, colon_next);
    }
    sink.n
}

// Write that plain text if it fits; else write nothing and tell its length. It is measured first only where the room may not be enough.
fn write_fitting(classes: &[u8; 256], text: &[u8], start: usize, out: &mut [u8]) -> Answer
    requires { (start ≤ length text.now) × (length text.now ≤ text_limit) }
    ensures { (result ≡ fitting_answer (written_text classes.now text.now start) out.old) × (out.new ≡ fitting_text (written_text classes.now text.now start) out.old) }
{
    if (text.len() - start) * MOST_FOR_A_BYTE <= out.len() {
        return Answer::Accepted(write_by(classes, text, start, out));
    }
    let needed = write_by(classes, text, start, &mut out[..0]);
    if out.len() < needed {
        return Answer::NoRoom(needed);
    }
    Answer::Accepted(write_by(classes, text, start, out))
}

// Write plainly the address list in the body of a message from start up to end.
pub fn write_plain(message: &[u8], start: usize, end: usize, text: &mut [u8]) -> Answer
    ensures outcome { AnsweredBy (plain_outcome message.now start end text.old) result text.new }
    ensures condition2 { Condition2 message.now start end text.old result text.new }
{
    match addresses::read_addresses(message, start, end, &mut text[..0]) {
        Answer::Refused(number, place) => Answer::Refused(number, place),
        _ => {
            let classes = &CLASSES;
            write_fitting(classes, &message[..end], start, text)
        }
    }
}

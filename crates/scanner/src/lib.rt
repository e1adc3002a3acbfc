// The symbols of a structured body.
//
// The class table and the text go by reference through every function that looks at bytes. They are no struct: the public
// functions take the two apart from one another, so each would build it anew, and every clause would be longer by it.
// A loop over characters or symbols goes on where the last one ended, so it counts no index that a `for` could count.
#![tactic(auto)]

ghost use Rattle.std.specs.Prelude.{◌≡◌, ◌+◌, ◌≤◌, ◌<◌, [], length, Ok};
ghost use Rattle.scanner.specs.Believed.Kinds.{kind_of};
ghost use Rattle.scanner.specs.Believed.Characters.{fold_at, characters_at};
ghost use Rattle.scanner.specs.Believed.Scanning.{outside, in_atom, in_quoted, in_literal, atom_class, scan_from, scan_by};
ghost use Rattle.octets.specs.Believed.Answers.{told};
ghost use Rattle.octets.specs.declared.answers.Answer.TheVariants.{Accepted, Refused};
ghost use Rattle.scanner.specs.Believed.Answers.{body_checked, next_of, next_told, next_in_body, fault_of, scanned_by, body_scanned};
ghost use Rattle.scanner.specs.Believed.Categories.{of_symbol, between, category_of, category_at};
ghost use Rattle.scanner.specs.Ties.Steps.{symbol_of, first_of, found as found_first, as_next, FirstIs, CharacterIs, TakenIs, InsideIs, AtomEnds, ReturnIsControl, plain_at, PlainEnds, LiteralPasses, CommentIs, Faultless, FaultlessIs, FaultsFrom};
ghost use Rattle.scanner.specs.Ties.Meanings.{taken_datum, datum_at};
ghost use Rattle.scanner.specs.Ties.Gaps.{gap_depth, GapCategoryIs, PassedIs, PassedLow};
ghost use Rattle.scanner.specs.declared.Gap.TheVariants.{Comment as comment_gap};
ghost use Rattle.octets.specs.Believed.Text.{part};
ghost use Rattle.octets.specs.Ties.Writing.{count_limit};

pub mod cursor;

use octets::answers::{Answer, Fault};
use octets::classes::CLASSES;
use octets::numbers::{
    BODY_OUT_OF_ORDER, BYTE_ABOVE_127, COMMENT_NOT_CLOSED, LITERAL_NOT_CLOSED, MESSAGE_LIMIT,
    MESSAGE_TOO_LONG, QUOTED_NOT_CLOSED, STRAY_CONTROL,
};

// The classes of symbols: the words, "at" and "@", the marks of the address rules, and a symbol that fits no rule.
#[derive(Clone, Copy, PartialEq, Eq)]
pub enum Class {
    Atom,
    Quoted,
    At,
    LessThan,
    GreaterThan,
    Comma,
    Semicolon,
    Colon,
    Stray,
    Dot,
    Literal,
}

// A symbol: its class; its place, from its first byte to the position after its last; the length of its meaning in bytes; and
// whether it stands apart: white space or a comment stands right before it.
#[derive(Clone, Copy, PartialEq, Eq)]
pub struct Symbol {
    pub class: Class,
    pub start: usize,
    pub end: usize,
    pub length: usize,
    pub apart: bool,
}

// The next symbol, the end of the text, or a fault: its number and its place.
#[derive(Clone, Copy)]
pub enum Next {
    Found(Symbol),
    Ended,
    Fault(u8, usize),
}

// One of the data of a quoted-string, with the position after it: a byte; or CR and LF, which a backslash took, and the white
// space that follows them.
#[derive(Clone, Copy, PartialEq, Eq)]
pub enum Datum {
    Byte(u8, usize),
    LineEnd(u8, usize),
}

// What a byte of a body is: white space, comment, part of a word, "at", a bracket or mark, or nothing of these.
#[derive(Clone, Copy, PartialEq, Eq)]
pub enum Category {
    White,
    Comment,
    Word,
    At,
    Mark,
    Nothing,
}

// What the scanner tells apart in a byte.
#[derive(Clone, Copy, PartialEq, Eq)]
enum ByteKind {
    White,
    Control,
    Return,
    Plain,
    Open,
    Close,
    Quote,
    Backslash,
    Mark(Class),
    Above,
    OpenBracket,
    CloseBracket,
}

// A character: its kind, its position and the position after it.
#[derive(Clone, Copy, PartialEq, Eq)]
struct Character {
    kind: ByteKind,
    here: usize,
    next: usize,
}

// Where scanning stands between symbols: outside, in a comment that lies in so many others, or there after a backslash.
#[derive(Clone, Copy, PartialEq, Eq)]
enum Gap {
    Outside,
    Comment(usize),
    Taking(usize),
}

// The kind of a byte.
#[tactic(auto, unfolding(crate::specs::Believed::Kinds::kind_of))]
fn kind_of(classes: &[u8; 256], b: u8) -> ByteKind
    ensures { result ≡ kind_of classes.now b }
{
    if b == b'\r' {
        return ByteKind::Return;
    }
    let class = octets::classes::class_in(classes, b);
    match class {
        octets::classes::WHITE => ByteKind::White,
        octets::classes::CONTROL => ByteKind::Control,
        octets::classes::OPEN_PARENTHESIS => ByteKind::Open,
        octets::classes::CLOSE_PARENTHESIS => ByteKind::Close,
        octets::classes::LESS_THAN => ByteKind::Mark(Class::LessThan),
        octets::classes::GREATER_THAN => ByteKind::Mark(Class::GreaterThan),
        octets::classes::AT_SIGN => ByteKind::Mark(Class::At),
        octets::classes::COMMA => ByteKind::Mark(Class::Comma),
        octets::classes::SEMICOLON => ByteKind::Mark(Class::Semicolon),
        octets::classes::COLON => ByteKind::Mark(Class::Colon),
        octets::classes::BACKSLASH => ByteKind::Backslash,
        octets::classes::QUOTE => ByteKind::Quote,
        octets::classes::ABOVE_127 => ByteKind::Above,
        octets::classes::DOT => ByteKind::Mark(Class::Dot),
        octets::classes::OPEN_BRACKET => ByteKind::OpenBracket,
        octets::classes::CLOSE_BRACKET => ByteKind::CloseBracket,
        _ => ByteKind::Plain,
    }
}

// Whether a fold starts at a position. CR and LF are looked at here, and not by a call, for the sake of the loops around it.
fn folds(text: &[u8], at: usize) -> bool
    requires { at < length text.now }
    ensures { result ≡ fold_at text.now at }
{
    text[at] == b'\r'
        && 3 <= text.len() - at
        && text[at + 1] == b'\n'
        && octets::lines::is_white(text[at + 2])
}

// The first character at or after a position, folds dropped.
fn character_at(classes: &[u8; 256], text: &[u8], at: usize) -> Option<Character>
    ensures { CharacterIs classes.now text.now at result }
{
    let b = *text.get(at)?;
    // the kind first of all but CR, which kind_of would tell too: a quarter fewer instructions (callgrind)
    if b != b'\r' {
        return Some(Character {
            kind: kind_of(classes, b),
            here: at,
            next: at + 1,
        });
    }
    if folds(text, at) {
        return Some(Character {
            kind: ByteKind::White,
            here: at + 2,
            next: at + 3,
        });
    }
    Some(Character {
        kind: ByteKind::Return,
        here: at,
        next: at + 1,
    })
}

// The end of an atom that has run from start up to a position, by any table of classes.
fn atom_end_any(classes: &[u8; 256], text: &[u8], start: usize, at: usize) -> usize
    requires { (start ≤ at) × (at ≤ length text.now) }
    ensures { AtomEnds classes.now text.now start at result }
{
    let mut p = at;
    while let Some(Character { kind, next, .. }) = character_at(classes, text, p) {
        if kind != ByteKind::Plain {
            return p;
        }
        p = next;
    }
    p
}

// Whether the class of the byte at a position is one that atoms are made of.
fn plain_at(classes: &[u8; 256], text: &[u8], at: usize) -> bool
    requires { at < length text.now }
    ensures { result ≡ plain_at classes.now text.now at }
{
    octets::classes::LETTER <= octets::classes::class_in(classes, text[at])
}

// The end of an atom that has run up to a position, by a table of classes in which CR is a control byte.
fn plain_last(classes: &[u8; 256], text: &[u8], at: usize) -> usize
    requires { (at ≤ length text.now) × ReturnIsControl classes.now }
    ensures { PlainEnds classes.now text.now at result }
{
    for p in at..text.len() {
        if !plain_at(classes, text, p) {
            return p;
        }
    }
    text.len()
}

// .. four bytes a turn: by plain_last alone a list of long mailboxes takes 22 % more instructions (callgrind)
fn plain_end(classes: &[u8; 256], text: &[u8], at: usize) -> usize
    requires { (at ≤ length text.now) × ReturnIsControl classes.now }
    ensures { PlainEnds classes.now text.now at result }
{
    let mut p = at;
    while 4 <= text.len() - p {
        if !plain_at(classes, text, p) {
            return p;
        }
        if !plain_at(classes, text, p + 1) {
            return p + 1;
        }
        if !plain_at(classes, text, p + 2) {
            return p + 2;
        }
        if !plain_at(classes, text, p + 3) {
            return p + 3;
        }
        p += 4;
    }
    plain_last(classes, text, p)
}

// The end of an atom that has run from start up to a position.
fn atom_end(classes: &[u8; 256], text: &[u8], start: usize, at: usize) -> usize
    requires { (start ≤ at) × (at ≤ length text.now) }
    ensures { AtomEnds classes.now text.now start at result }
{
    if octets::classes::class_in(classes, b'\r') != octets::classes::CONTROL {
        return atom_end_any(classes, text, start, at);
    }
    plain_end(classes, text, at)
}

// The class of the atom that stands from start to end.
fn atom_class(text: &[u8], start: usize, end: usize) -> Class
    requires { (start ≤ end) × (end ≤ length text.now) }
    ensures { result ≡ atom_class (part text.now start end) }
{
    let word = &text[start..end];
    if octets::letters::same_letters(word, b"at") {
        Class::At
    } else {
        Class::Atom
    }
}

// The atom that has run from start up to a position.
fn atom_from(classes: &[u8; 256], text: &[u8], start: usize, at: usize, apart: bool) -> Symbol
    requires { (start ≤ at) × (at ≤ length text.now) }
    ensures { FirstIs apart start (scan_from classes.now (characters_at text.now at) (in_atom start at (part text.now start at))) (Ok result) }
{
    let end = atom_end(classes, text, start, at);
    let class = atom_class(text, start, end);
    let length = end - start;
    Symbol {
        class,
        start,
        end,
        length,
        apart,
    }
}

// The symbol of one byte.
fn one_byte(class: Class, start: usize, end: usize, apart: bool) -> Symbol
    ensures { result ≡ symbol_of class start end 1 apart }
{
    Symbol {
        class,
        start,
        end,
        length: 1,
        apart,
    }
}

// The position after the character that a backslash takes, or the fault there: where the text ends, `unclosed`.
fn taken(classes: &[u8; 256], text: &[u8], at: usize, unclosed: Fault) -> Result<usize, Fault>
    ensures { TakenIs classes.now text.now at unclosed result }
{
    let Character { kind, here, next } = character_at(classes, text, at).ok_or(unclosed)?;
    if kind == ByteKind::Above {
        return Err(Fault {
            number: BYTE_ABOVE_127,
            position: here,
        });
    }
    Ok(next)
}

// The next character of a quoted-string, a domain literal or a comment, a backslash together with what it takes; or the fault
// there: where the text ends, `unclosed`.
// It is inlined, for else the loops of its callers take twice the instructions (callgrind).
#[inline(always)]
fn inside(classes: &[u8; 256], text: &[u8], at: usize, unclosed: Fault) -> Result<Character, Fault>
    ensures { InsideIs classes.now text.now at unclosed result }
{
    let Character { kind, here, next } = character_at(classes, text, at).ok_or(unclosed)?;
    match kind {
        ByteKind::Return => Err(Fault {
            number: STRAY_CONTROL,
            position: here,
        }),
        ByteKind::Above => Err(Fault {
            number: BYTE_ABOVE_127,
            position: here,
        }),
        ByteKind::Backslash => {
            let next = taken(classes, text, next, unclosed)?;
            Ok(Character { kind, here, next })
        }
        _ => Ok(Character { kind, here, next }),
    }
}

// The rest of a quoted-string whose opening quote stands at start. The length of its data is counted on the way.
fn quoted_end(
    classes: &[u8; 256],
    text: &[u8],
    start: usize,
    at: usize,
    apart: bool,
) -> Result<Symbol, Fault>
    requires { at ≤ length text.now }
    ensures { FirstIs apart start (scan_from classes.now (characters_at text.now at) (in_quoted start [])) result }
{
    let unclosed = Fault {
        number: QUOTED_NOT_CLOSED,
        position: start,
    };
    let mut p = at;
    let mut length: usize = 0;
    loop {
        let Character { kind, here, next } = inside(classes, text, p, unclosed)?;
        match kind {
            ByteKind::Quote => return Ok(Symbol {
                class: Class::Quoted,
                start,
                end: next,
                length,
                apart,
            }),
            ByteKind::Backslash => length += next - here - 1,
            _ => length += 1,
        }
        p = next;
    }
}

// What a backslash in a quoted-string takes, from the position after it on: the CRLF of a fold, or the next byte.
fn taken_datum(text: &[u8], at: usize) -> Option<Datum>
    ensures { result ≡ taken_datum (characters_at text.now at) }
{
    let b = *text.get(at)?;
    if folds(text, at) {
        return Some(Datum::LineEnd(text[at + 2], at + 3));
    }
    Some(Datum::Byte(b, at + 1))
}

// The next of the data of a quoted-string, from a position inside it on, by a table of classes that is handed on.
pub fn next_datum(classes: &[u8; 256], text: &[u8], at: usize) -> Option<Datum>
    ensures { result ≡ datum_at classes.now text.now at }
{
    let Character { kind, here, next } = character_at(classes, text, at)?;
    match kind {
        ByteKind::Quote => None,
        ByteKind::Backslash => taken_datum(text, next),
        _ => Some(Datum::Byte(text[here], next)),
    }
}

// The first byte at or after a position that may end a domain literal, be a fault in it or take others with it. Without it a long
// literal takes a fifth more instructions; with it one of escapes alone a fifth more, for each is looked at twice (callgrind).
fn past_literal_text(classes: &[u8; 256], text: &[u8], at: usize) -> usize
    requires { at ≤ length text.now }
    ensures { LiteralPasses classes.now text.now at result }
{
    for p in at..text.len() {
        match kind_of(classes, text[p]) {
            ByteKind::Return
            | ByteKind::Backslash
            | ByteKind::Above
            | ByteKind::OpenBracket
            | ByteKind::CloseBracket => return p,
            _ => {}
        }
    }
    text.len()
}

// The rest of a domain literal whose "[" stands at start. It has no meaning.
fn literal_end(
    classes: &[u8; 256],
    text: &[u8],
    start: usize,
    at: usize,
    apart: bool,
) -> Result<Symbol, Fault>
    requires { at ≤ length text.now }
    ensures { FirstIs apart start (scan_from classes.now (characters_at text.now at) (in_literal start)) result }
{
    let unclosed = Fault {
        number: LITERAL_NOT_CLOSED,
        position: start,
    };
    let mut p = at;
    loop {
        p = past_literal_text(classes, text, p);
        let Character { kind, next, .. } = inside(classes, text, p, unclosed)?;
        match kind {
            ByteKind::CloseBracket => return Ok(Symbol {
                class: Class::Literal,
                start,
                end: next,
                length: 0,
                apart,
            }),
            ByteKind::OpenBracket => return Err(unclosed),
            _ => p = next,
        }
    }
}

// The position after a comment whose "(" stands at start, or the fault in it.
fn comment_end(classes: &[u8; 256], text: &[u8], start: usize, at: usize) -> Result<usize, Fault>
    requires { at ≤ length text.now }
    ensures { CommentIs classes.now text.now at start result }
{
    let unclosed = Fault {
        number: COMMENT_NOT_CLOSED,
        position: start,
    };
    let mut p = at;
    let mut depth: usize = 0;
    loop {
        let Character { kind, next, .. } = inside(classes, text, p, unclosed)?;
        match kind {
            ByteKind::Open => depth += 1,
            ByteKind::Close => {
                if depth == 0 {
                    return Ok(next);
                }
                depth -= 1;
            }
            _ => {}
        }
        p = next;
    }
}

// What was found, told as what comes next.
fn told(found: Result<Symbol, Fault>) -> Next
    ensures { result ≡ as_next (found_first found) }
{
    match found {
        Ok(symbol) => Next::Found(symbol),
        Err(fault) => Next::Fault(fault.number, fault.position),
    }
}

// The first symbol of a text at or after a position, by a table of classes that is handed on. It tells what comes next in the form
// in which its callers take it: turned from a `Result` on the way, it costs the expansion a fifth more instructions (callgrind).
pub fn next_by(classes: &[u8; 256], text: &[u8], at: usize) -> Next
    ensures { result ≡ next_of (scan_by classes.now text.now at) }
{
    let mut p = at;
    let mut apart = false;
    while let Some(Character { kind, here, next }) = character_at(classes, text, p) {
        match kind {
            ByteKind::White => {
                p = next;
                apart = true; // by white space
            }
            ByteKind::Open => match comment_end(classes, text, here, next) {
                Ok(after) => {
                    p = after;
                    apart = true; // by a comment
                }
                Err(fault) => return Next::Fault(fault.number, fault.position),
            },
            ByteKind::Quote => return told(quoted_end(classes, text, here, next, apart)),
            ByteKind::Plain => return Next::Found(atom_from(classes, text, here, next, apart)),
            ByteKind::Mark(class) => return Next::Found(one_byte(class, here, next, apart)),
            ByteKind::Close | ByteKind::Backslash | ByteKind::CloseBracket => {
                return Next::Found(one_byte(Class::Stray, here, next, apart));
            }
            ByteKind::Control | ByteKind::Return => return Next::Fault(STRAY_CONTROL, here),
            ByteKind::Above => return Next::Fault(BYTE_ABOVE_127, here),
            ByteKind::OpenBracket => return told(literal_end(classes, text, here, next, apart)),
        }
    }
    Next::Ended
}

// The first symbol of a text at or after a position, if there is one, or the fault before it.
#[inline(always)]
fn first(classes: &[u8; 256], text: &[u8], at: usize) -> Result<Option<Symbol>, Fault>
    ensures { result ≡ first_of (scan_by classes.now text.now at) }
{
    match next_by(classes, text, at) {
        Next::Found(symbol) => Ok(Some(symbol)),
        Next::Ended => Ok(None),
        Next::Fault(number, position) => Err(Fault { number, position }),
    }
}

// The checks before a body is looked at: number 1, then 13.
pub fn check_body(message: &[u8], start: usize, end: usize) -> Answer
    ensures { result ≡ body_checked Refused message.now start end (Accepted 0) }
{
    if MESSAGE_LIMIT < message.len() {
        return Answer::Refused(MESSAGE_TOO_LONG, MESSAGE_LIMIT);
    }
    if end < start || message.len() < end {
        return Answer::Refused(BODY_OUT_OF_ORDER, 0);
    }
    Answer::Accepted(0)
}

// The next symbol at or after a position of a message's body that ends at end.
pub fn next_symbol(message: &[u8], at: usize, end: usize) -> Next
    ensures outcome { (next_told result ≡ next_told (next_in_body message.now at end)) × (result ≡ next_in_body message.now at end) }
{
    if let Answer::Refused(number, place) = check_body(message, at, end) {
        return Next::Fault(number, place);
    }
    next_by(&CLASSES, &message[..end], at)
}

// The first byte at or after a position that may be a fault, or may open a quoted-string or a comment.
fn past_harmless(classes: &[u8; 256], text: &[u8], at: usize) -> usize
    ensures { FaultsFrom classes.now text.now at result }
{
    for p in at..text.len() {
        match kind_of(classes, text[p]) {
            ByteKind::White
            | ByteKind::Plain
            | ByteKind::Close
            | ByteKind::Backslash
            | ByteKind::Mark(_) => {}
            _ => return p,
        }
    }
    at.max(text.len())
}

// The first fault of a text from a position on, if there is one.
fn faultless(classes: &[u8; 256], text: &[u8], at: usize) -> Result<(), Fault>
    ensures { FaultlessIs classes.now text.now at result }
{
    let mut p = past_harmless(classes, text, at);
    loop {
        match next_by(classes, text, p) {
            Next::Found(symbol) => p = past_harmless(classes, text, symbol.end),
            Next::Ended => return Ok(()),
            Next::Fault(number, position) => return Err(Fault { number, position }),
        }
    }
}

// The first fault of a text from a position on, by a table of classes that is handed on.
pub fn fault_by(classes: &[u8; 256], text: &[u8], at: usize) -> Answer
    ensures { result ≡ fault_of (scan_by classes.now text.now at) }
{
    match faultless(classes, text, at) {
        Ok(()) => Answer::Accepted(0),
        Err(fault) => Answer::Refused(fault.number, fault.position),
    }
}

// Scan the body of a message from start up to end by a table of classes that is handed on: refused by the checks or the first fault, or accepted.
pub fn scan_by(classes: &[u8; 256], message: &[u8], start: usize, end: usize) -> Answer
    ensures { result ≡ scanned_by classes.now message.now start end }
{
    if let Answer::Refused(number, place) = check_body(message, start, end) {
        return Answer::Refused(number, place);
    }
    fault_by(classes, &message[..end], start)
}

// Scan the body of a message from start up to end: accepted, or the first fault.
pub fn scan_body(message: &[u8], start: usize, end: usize) -> Answer
    ensures outcome { (told result ≡ told (body_scanned message.now start end)) × (result ≡ body_scanned message.now start end) }
{
    scan_by(&CLASSES, message, start, end)
}

// What each byte of a symbol is.
fn symbol_category(text: &[u8], symbol: Symbol) -> Category
    requires { (symbol.start ≤ symbol.end) × (symbol.end ≤ length text.now) }
    ensures { result ≡ of_symbol symbol.class (part text.now symbol.start symbol.end) }
{
    match symbol.class {
        Class::Atom | Class::Quoted => Category::Word,
        Class::At if octets::letters::same_letters(&text[symbol.start..symbol.end], b"at") =>
            Category::At,
        Class::Stray => Category::Nothing,
        _ => Category::Mark,
    }
}

// What a character of a kind is where scanning stands there.
fn gap_category(gap: Gap, kind: ByteKind) -> Category
    ensures { GapCategoryIs gap kind result }
{
    match (gap, kind) {
        (Gap::Outside, ByteKind::White) => Category::White,
        (Gap::Outside, ByteKind::Open) => Category::Comment,
        (Gap::Outside, _) => Category::Nothing,
        _ => Category::Comment,
    }
}

// Where scanning stands after a character of a kind in a comment that lies in so many others, if still between symbols.
fn pass_comment(depth: usize, kind: ByteKind) -> Option<Gap>
    requires { depth < count_limit }
    ensures { PassedIs (comment_gap depth) kind result × PassedLow (depth + 1) result }
{
    match kind {
        ByteKind::Open => Some(Gap::Comment(depth + 1)),
        ByteKind::Close if depth == 0 => Some(Gap::Outside),
        ByteKind::Close => Some(Gap::Comment(depth - 1)),
        ByteKind::Backslash => Some(Gap::Taking(depth)),
        ByteKind::Return | ByteKind::Above => None,
        _ => Some(Gap::Comment(depth)),
    }
}

// Where scanning stands after a character of a kind, if still between symbols.
fn pass(gap: Gap, kind: ByteKind) -> Option<Gap>
    requires { gap_depth gap < count_limit }
    ensures { PassedIs gap kind result × PassedLow (gap_depth gap + 1) result }
{
    match (gap, kind) {
        (Gap::Outside, ByteKind::White) => Some(Gap::Outside),
        (Gap::Outside, ByteKind::Open) => Some(Gap::Comment(0)),
        (Gap::Outside, _) => None,
        (Gap::Comment(depth), _) => pass_comment(depth, kind),
        (Gap::Taking(_), ByteKind::Above) => None,
        (Gap::Taking(depth), _) => Some(Gap::Comment(depth)),
    }
}

// What the byte at a place is that lies between symbols, from the position after the symbol before it on.
fn between_by(classes: &[u8; 256], text: &[u8], at: usize, place: usize) -> Category
    ensures { result ≡ between classes.now place (characters_at text.now at) outside }
{
    let mut p = at;
    let mut gap = Gap::Outside;
    while let Some(Character { kind, next, .. }) = character_at(classes, text, p) {
        if place < next {
            return gap_category(gap, kind);
        }
        let Some(passed) = pass(gap, kind) else {
            return Category::Nothing;
        };
        gap = passed;
        p = next;
    }
    Category::Nothing
}

// What the byte at a place of a text is that has no fault from a position on, by a table of classes that is handed on.
fn category_by(classes: &[u8; 256], text: &[u8], at: usize, place: usize) -> Category
    requires { (at ≤ place) × Faultless classes.now text.now at }
    ensures { result ≡ category_of classes.now text.now place at (scan_by classes.now text.now at) }
{
    let mut p = at;
    while let Ok(Some(symbol)) = first(classes, text, p) {
        if place < symbol.start {
            return between_by(classes, text, p, place);
        }
        if place < symbol.end {
            return symbol_category(text, symbol);
        }
        p = symbol.end;
    }
    between_by(classes, text, p, place)
}

// What the byte at a place of a message is, in the body from start up to end.
pub fn category_at(message: &[u8], start: usize, end: usize, place: usize) -> Category
    ensures { result ≡ category_at message.now start end place }
{
    if let Answer::Refused(_, _) = scan_body(message, start, end) {
        return Category::Nothing;
    }
    if !(start..end).contains(&place) {
        return Category::Nothing;
    }
    category_by(&CLASSES, &message[..end], start, place)
}

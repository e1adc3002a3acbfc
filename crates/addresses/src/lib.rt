// The address reader.
//
// The list reader and the address reader call each other, what is left of the text and the levels left falling.
// Two of the calls go down one level, read_enclosed's of the list reader and read_typed's of the address reader; the others keep the level. So at most 64 are open.
// The table of classes and the text stay parameters of their own: in a lent struct the table is no constant to the compiler, and callgrind counts about a tenth more instructions.
#![tactic(auto)]

ghost use Rattle.std.specs.Prelude.{◌≡◌, ◌+◌, ◌*◌, ◌-◌, ◌≤◌, ◌<◌, length};
ghost use Rattle.std.proofs.lemmas.List.Edits.{sets};
ghost use Rattle.octets.specs.Believed.Answers.{fault};
ghost use Rattle.octets.specs.Believed.Numbers.{message_limit, level_limit};
ghost use Rattle.octets.specs.declared.answers.Answer.TheVariants.{Refused};
ghost use Rattle.records.specs.Believed.AddressRecords.{record_by, record_bytes, address_record_size};
ghost use Rattle.scanner.specs.Believed.Scanning.{scan_by};
ghost use Rattle.scanner.specs.Believed.Answers.{unless_fault};
ghost use Rattle.grammar.specs.Executable.Machine733.{answer};
ghost use Rattle.addresses.specs.Ties.Steps.{is_ahead, word_ahead, ends_ahead, closes_ahead, refusal_ahead, number_told, place_told, enclosure_kind, PhraseIs, NodesAre, TypedAtomIs, MarkAhead, MailboxIs, LoneAhead, LoneIs, CloseIs, Entered, ListIs, BeginsAddress, AddressAhead, NamedFirst, EnclosedIs, ColonFirst, TypedAhead, TypedIs};
ghost use Rattle.addresses.specs.Ties.Whole.{Fitting, once_limit, Staged, BodyRead, FaultFirst};
ghost use Rattle.addresses.specs.Believed.Outcome.{AnsweredBy, outcome};
ghost use Rattle.addresses.specs.Believed.Within.{list_within};
ghost use Rattle.addresses.specs.Believed.Condition3.{Condition3};

use grammar::{Whole, typed_kind};
use octets::answers::{Answer, Fault};
use octets::classes::CLASSES;
use octets::numbers::{ENDS_TOO_SOON, LEVEL_LIMIT, NO_LIST_GOES_ON, TOO_MANY_LEVELS};
use octets::writing::copy_front;
use records::Span;
use records::address::{ADDRESS_RECORD_SIZE, AddressRecord, store};
use scanner::Class;
use scanner::cursor::{Ahead, Cursor};

// The records of a body of up to so many bytes are held beside the table, so that it is read once.
const ONCE_LIMIT: usize = 1024;

// Their bytes: it has at most one record for each two bytes.
const STAGED: usize = ONCE_LIMIT / 2 * ADDRESS_RECORD_SIZE;

// The kinds of addresses that are not typed, as their records have them.
const MAILBOX: u8 = 1;

const ANGLE_LIST: u8 = 2;

const GROUP: u8 = 3;

const QUOTED_STRING: u8 = 4;

// What encloses a list.
#[derive(Clone, Copy, PartialEq, Eq)]
enum Enclosure {
    Angle,
    Group,
}

// Why a list is refused: no list goes on with what stands ahead, the text ends too soon, or there are too many levels.
#[derive(Clone, Copy, PartialEq, Eq)]
enum Refusal {
    Unfit,
    Unfinished,
    TooDeep,
}

// Where a list or an address stands: the levels left, and its parent's number plus 1.
#[derive(Clone, Copy)]
struct Level {
    left: usize,
    parent: usize,
}

// Where a record stands: the level of its address, and its own number.
#[derive(Clone, Copy)]
struct Frame {
    level: Level,
    number: usize,
}

// A walk through a list: what stands ahead, the next free record number, and the end of the last symbol read.
#[derive(Clone, Copy)]
struct Walk {
    cursor: Cursor,
    free: usize,
    last: usize,
}

impl Frame {
    // Write a record at its place in the table; past the end nothing is stored.
    #[inline(always)]
    fn put(self, table: &mut [u8], kind: u8, end: usize, start: usize, name: Span)
        requires { (self.level.left ≤ level_limit) × (self.number ≤ message_limit) }
        ensures { table.new ≡ sets table.old (self.number * address_record_size) (record_bytes (record_by kind (level_limit - self.level.left) self.level.parent start end name.start name.end)) }
    {
        let address = AddressRecord {
            kind,
            depth: (LEVEL_LIMIT - self.level.left) as u8,
            parent: self.level.parent,
            start,
            end,
            name,
        };
        store(table, self.number, address);
    }
}

// Whether a word stands ahead.
fn is_word(ahead: Ahead) -> bool
    ensures { result ≡ word_ahead ahead }
{
    matches!(ahead, Ahead::Symbol(Class::Atom | Class::Quoted))
}

// Whether a symbol of a class stands ahead.
fn is_ahead(class: Class, ahead: Ahead) -> bool
    ensures { result ≡ is_ahead class ahead }
{
    ahead == Ahead::Symbol(class)
}

// Whether what stands ahead may stand after an address.
fn ends_address(ahead: Ahead) -> bool
    ensures { result ≡ ends_ahead ahead }
{
    match ahead {
        Ahead::Symbol(class) => {
            matches!(class, Class::Comma | Class::GreaterThan | Class::Semicolon)
        }
        _ => true,
    }
}

impl Enclosure {
    // Whether what stands ahead closes an enclosed list.
    fn closes(self, ahead: Ahead) -> bool
        ensures { result ≡ closes_ahead self ahead }
    {
        let mark = match self {
            Enclosure::Angle => Class::GreaterThan,
            Enclosure::Group => Class::Semicolon,
        };
        is_ahead(mark, ahead)
    }

    // The kind of an enclosed list.
    fn kind(self) -> u8
        ensures { result ≡ enclosure_kind self }
    {
        match self {
            Enclosure::Angle => ANGLE_LIST,
            Enclosure::Group => GROUP,
        }
    }
}

impl Walk {
    // A walk that begins at a position.
    fn new(at: usize) -> Walk
        ensures { (result.cursor.end ≡ at) × (result.free ≡ 0) }
    {
        Walk {
            cursor: Cursor::new(at),
            free: 0,
            last: at,
        }
    }

    // The refusal of what stands ahead.
    fn refusal(&self) -> Refusal
        ensures { result ≡ refusal_ahead self.now.cursor.ahead }
    {
        match self.cursor.ahead {
            Ahead::Symbol(_) => Refusal::Unfit,
            _ => Refusal::Unfinished,
        }
    }

    // A refusal by its number, and its place: where the walk stands, or the end of the text.
    fn fault(&self, refusal: Refusal, text: &[u8]) -> Fault
        ensures { result ≡ fault (number_told refusal) (place_told (length text.now) refusal self.now) }
    {
        match refusal {
            Refusal::Unfit => Fault {
                number: NO_LIST_GOES_ON,
                position: self.cursor.start,
            },
            Refusal::Unfinished => Fault {
                number: ENDS_TOO_SOON,
                position: text.len(),
            },
            Refusal::TooDeep => Fault {
                number: TOO_MANY_LEVELS,
                position: self.cursor.start,
            },
        }
    }

    // The words of a phrase whose first stands ahead, and whether they are one quoted-string; lone: whether the first is one.
    fn read_words(&mut self, classes: &[u8; 256], text: &[u8], lone: bool) -> bool
        requires { self.old.cursor.end ≤ length text.now }
        ensures { PhraseIs classes.now text.now self.old lone result self.new }
    {
        let mut single = lone;
        loop {
            let last = self.cursor.end;
            self.cursor.step(classes, text);
            if !is_word(self.cursor.ahead) {
                self.last = last;
                return single;
            }
            single = false;
        }
    }

    // The nodes after the "at" that stands ahead, to the end of the address.
    #[inline(always)]
    fn read_nodes(&mut self, classes: &[u8; 256], text: &[u8]) -> Result<(), Refusal>
        ensures { NodesAre classes.now text.now self.old result self.new }
    {
        loop {
            self.cursor.step(classes, text);
            if !is_word(self.cursor.ahead) {
                return Err(self.refusal());
            }
            let last = self.cursor.end;
            self.cursor.step(classes, text);
            if ends_address(self.cursor.ahead) {
                self.last = last;
                return Ok(());
            }
            if !is_ahead(Class::At, self.cursor.ahead) {
                return Err(self.refusal());
            }
        }
    }

    // The atom before the ":" that makes a typed address of the ":" that stands ahead; if there is one, the second ":" stands ahead.
    fn typed_atom(&mut self, classes: &[u8; 256], text: &[u8]) -> Option<Span>
        ensures { TypedAtomIs classes.now text.now self.old result self.new }
    {
        self.cursor.step(classes, text);
        if !is_ahead(Class::Atom, self.cursor.ahead) {
            return None;
        }
        let atom = Span {
            start: self.cursor.start,
            end: self.cursor.end,
        };
        self.cursor.step(classes, text);
        if !is_ahead(Class::Colon, self.cursor.ahead) {
            return None;
        }
        Some(atom)
    }

    // A mailbox, after its phrase; the "at" stands ahead.
    #[inline(always)]
    fn read_mailbox(
        &mut self,
        classes: &[u8; 256],
        text: &[u8],
        table: &mut [u8],
        level: Level,
        name: Span,
    ) -> Result<(), Refusal>
        requires { MarkAhead classes.now text.now self.old level name }
        ensures { MailboxIs classes.now text.now self.old level name table.old table.new result self.new }
    {
        self.read_nodes(classes, text)?;
        let number = self.free;
        Frame { level, number }.put(table, MAILBOX, self.last, name.start, name);
        self.free = number + 1;
        Ok(())
    }

    // A phrase that no mark follows: one quoted-string alone is an address.
    fn read_lone(
        &mut self,
        classes: &[u8; 256],
        text: &[u8],
        table: &mut [u8],
        level: Level,
        lone: bool,
        name: Span,
    ) -> Result<(), Refusal>
        requires { LoneAhead classes.now text.now self.old level name }
        ensures { LoneIs classes.now text.now self.old level lone name table.old table.new result self.new }
    {
        if !lone || !ends_address(self.cursor.ahead) {
            return Err(self.refusal());
        }
        let number = self.free;
        Frame { level, number }.put(table, QUOTED_STRING, name.end, name.start, name);
        self.free = number + 1;
        Ok(())
    }

    // The end of an enclosed list, whose addresses are read: its closing mark, and what may stand after it.
    #[inline(always)]
    fn close_list(
        &mut self,
        classes: &[u8; 256],
        text: &[u8],
        table: &mut [u8],
        frame: Frame,
        enclosure: Enclosure,
        name: Span,
    ) -> Result<(), Refusal>
        requires { (frame.level.left ≤ level_limit) × (frame.number ≤ message_limit) }
        ensures { CloseIs classes.now text.now self.old frame enclosure name table.old table.new result self.new }
    {
        if !enclosure.closes(self.cursor.ahead) {
            return Err(self.refusal());
        }
        let end = self.cursor.end;
        self.cursor.step(classes, text);
        if !ends_address(self.cursor.ahead) {
            return Err(self.refusal());
        }
        frame.put(table, enclosure.kind(), end, name.start, name);
        self.last = end;
        Ok(())
    }

    // A list from the end of what stands ahead on, up to what may stand after it.
    #[cycle(reading)]
    fn read_list(
        &mut self,
        classes: &[u8; 256],
        text: &[u8],
        table: &mut [u8],
        level: Level,
    ) -> Result<(), Refusal>
        requires { Entered classes.now text.now self.old level }
        ensures { ListIs classes.now text.now self.old level table.old table.new result self.new }
    {
        self.cursor.step(classes, text);
        loop {
            let Ahead::Symbol(class) = self.cursor.ahead else {
                return Ok(());
            };
            match class {
                Class::Comma => self.cursor.step(classes, text),
                Class::GreaterThan | Class::Semicolon => return Ok(()),
                _ => self.read_address(classes, text, table, level)?,
            }
        }
    }

    // An address whose first symbol stands ahead.
    #[cycle(reading)]
    fn read_address(
        &mut self,
        classes: &[u8; 256],
        text: &[u8],
        table: &mut [u8],
        level: Level,
    ) -> Result<(), Refusal>
        requires { BeginsAddress classes.now text.now self.old level }
        ensures { AddressAhead classes.now text.now self.old level table.old table.new result self.new }
    {
        let Ahead::Symbol(class) = self.cursor.ahead else {
            return Err(self.refusal());
        };
        match class {
            Class::Atom | Class::Quoted => self.read_named(classes, text, table, level),
            Class::LessThan => {
                let start = self.cursor.start;
                let name = Span { start, end: start };
                self.read_enclosed(classes, text, table, level, Enclosure::Angle, name)
            }
            Class::Colon => self.read_colon(classes, text, table, level),
            _ => Err(self.refusal()),
        }
    }

    // An address that begins with a word.
    #[cycle(reading)]
    fn read_named(
        &mut self,
        classes: &[u8; 256],
        text: &[u8],
        table: &mut [u8],
        level: Level,
    ) -> Result<(), Refusal>
        requires { NamedFirst classes.now text.now self.old level }
        ensures { AddressAhead classes.now text.now self.old level table.old table.new result self.new }
    {
        let start = self.cursor.start;
        let quoted = is_ahead(Class::Quoted, self.cursor.ahead);
        let lone = self.read_words(classes, text, quoted);
        let name = Span {
            start,
            end: self.last,
        };
        let Ahead::Symbol(mark) = self.cursor.ahead else {
            return self.read_lone(classes, text, table, level, lone, name);
        };
        match mark {
            Class::At => self.read_mailbox(classes, text, table, level, name),
            Class::LessThan => self.read_enclosed(
                classes,
                text,
                table,
                level,
                Enclosure::Angle,
                name,
            ),
            Class::Colon => self.read_enclosed(classes, text, table, level, Enclosure::Group, name),
            _ => self.read_lone(classes, text, table, level, lone, name),
        }
    }

    // An angle list or a group, after its name, if it has one; its opening mark stands ahead.
    #[cycle(reading)]
    fn read_enclosed(
        &mut self,
        classes: &[u8; 256],
        text: &[u8],
        table: &mut [u8],
        level: Level,
        enclosure: Enclosure,
        name: Span,
    ) -> Result<(), Refusal>
        requires { MarkAhead classes.now text.now self.old level name }
        ensures { EnclosedIs classes.now text.now self.old level enclosure name table.old table.new result self.new }
    {
        if level.left == 0 {
            return Err(Refusal::TooDeep); // at its opening mark
        }
        let number = self.free;
        let below = number + 1;
        self.free = below;
        let inner = Level {
            left: level.left - 1,
            parent: below,
        };
        self.read_list(classes, text, table, inner)?;
        self.close_list(
            classes,
            text,
            table,
            Frame { level, number },
            enclosure,
            name,
        )
    }

    // An address that begins with ":": a typed address, or a nameless group.
    #[cycle(reading)]
    fn read_colon(
        &mut self,
        classes: &[u8; 256],
        text: &[u8],
        table: &mut [u8],
        level: Level,
    ) -> Result<(), Refusal>
        requires { ColonFirst classes.now text.now self.old level }
        ensures { AddressAhead classes.now text.now self.old level table.old table.new result self.new }
    {
        let colon = self.cursor;
        let start = colon.start;
        if let Some(atom) = self.typed_atom(classes, text) {
            return self.read_typed(classes, text, table, level, start, atom);
        }
        self.cursor = colon;
        let name = Span { start, end: start };
        self.read_enclosed(classes, text, table, level, Enclosure::Group, name)
    }

    // A typed address whose first ":" stands at start, after its atom; its second ":" stands ahead.
    #[cycle(reading)]
    fn read_typed(
        &mut self,
        classes: &[u8; 256],
        text: &[u8],
        table: &mut [u8],
        level: Level,
        start: usize,
        atom: Span,
    ) -> Result<(), Refusal>
        requires { TypedAhead classes.now text.now self.old level start atom }
        ensures { TypedIs classes.now text.now self.old level start atom table.old table.new result self.new }
    {
        if level.left == 0 {
            self.cursor.start = start; // its first ":"
            return Err(Refusal::TooDeep);
        }
        self.cursor.step(classes, text);
        if ends_address(self.cursor.ahead) {
            return Err(self.refusal());
        }
        let number = self.free;
        let child = number + 1;
        self.free = child;
        let inner = Level {
            left: level.left - 1,
            parent: child,
        };
        self.read_address(classes, text, table, inner)?;
        let kind = typed_kind(&text[atom.start..atom.end]);
        Frame { level, number }.put(table, kind, self.last, start, atom);
        Ok(())
    }
}

// The list of at most so many levels from a position of a text on to its end. A fault in it is taken for its end, and looked for afterwards.
fn read_whole(classes: &[u8; 256], text: &[u8], table: &mut [u8], at: usize, levels: usize) -> Whole
    requires { Fitting text.now at × (levels ≤ level_limit) }
    ensures { BodyRead classes.now text.now levels at table.old table.new result }
{
    let mut walk = Walk::new(at);
    let outermost = Level {
        left: levels,
        parent: 0,
    };
    if let Err(refusal) = walk.read_list(classes, text, table, outermost) {
        let fault = walk.fault(refusal, text);
        return Whole::Refused(fault.number, fault.position);
    }
    match walk.cursor.ahead {
        Ahead::End => Whole::Listed(walk.free),
        _ => Whole::Refused(NO_LIST_GOES_ON, walk.cursor.start),
    }
}

// A refusal, unless there is a fault: that comes first.
fn fault_or(classes: &[u8; 256], text: &[u8], at: usize, number: u8, place: usize) -> Answer
    ensures { result ≡ unless_fault Refused (scan_by classes.now text.now at) (Refused number place) }
{
    match scanner::fault_by(classes, text, at) {
        Answer::Refused(first, position) => Answer::Refused(first, position),
        _ => Answer::Refused(number, place),
    }
}

// Read a body, its records beside the table first; then, if the table has room for all, copy them, or read again where they were too many:
// only of a longer body can they be, for a short one has at most one for each two bytes.
fn read_body(
    classes: &[u8; 256],
    text: &[u8],
    table: &mut [u8],
    staged: &mut [u8],
    at: usize,
) -> Answer
    requires { Fitting text.now at × Staged text.now at staged.old }
    ensures { FaultFirst (answer level_limit) classes.now text.now at table.old table.new result }
{
    match read_whole(classes, text, staged, at, LEVEL_LIMIT) {
        Whole::Refused(number, place) => fault_or(classes, text, at, number, place),
        Whole::Listed(count) => {
            if table.len() / ADDRESS_RECORD_SIZE < count {
                return Answer::NoRoom(count);
            }
            if count <= staged.len() / ADDRESS_RECORD_SIZE {
                copy_front(table, staged, count * ADDRESS_RECORD_SIZE);
            } else {
                prove!(ONCE_LIMIT < text.len() - at);
                read_whole(classes, text, table, at, LEVEL_LIMIT);
            }
            Answer::Accepted(count)
        }
    }
}

// Read a short body. It is a function apart, for else each that reads addresses, and those that it calls, would hold the room for the
// records on the stack: that of RFC 822, and the expansion at each list that it opens.
#[inline(never)]
fn read_short(classes: &[u8; 256], text: &[u8], table: &mut [u8], at: usize) -> Answer
    requires { Fitting text.now at × (length text.now ≤ at + once_limit) }
    ensures { FaultFirst (answer level_limit) classes.now text.now at table.old table.new result }
{
    read_body(classes, text, table, &mut [0; STAGED], at)
}

// Read the address list in the body of a message from start up to end, and write its records into the table.
pub fn read_addresses(message: &[u8], start: usize, end: usize, table: &mut [u8]) -> Answer
    ensures outcome { AnsweredBy (outcome message.now start end table.old) result table.new }
    ensures condition3 { Condition3 message.now start end table.old result table.new }
{
    if let Answer::Refused(number, place) = scanner::check_body(message, start, end) {
        return Answer::Refused(number, place);
    }
    // a longer one gets no room, for to clear it takes some 6,000 instructions
    if ONCE_LIMIT < end - start {
        return read_body(&CLASSES, &message[..end], table, &mut [], start);
    }
    read_short(&CLASSES, &message[..end], table, start)
}

// Whether a text is, whole, an address list of at most so many levels; never of more than 64.
pub fn is_list_within(text: &[u8], levels: usize) -> bool
    ensures { result ≡ list_within levels text.now }
{
    if let Answer::Refused(_, _) = scanner::check_body(text, 0, text.len()) {
        return false;
    }
    let used = levels.min(LEVEL_LIMIT);
    matches!(
        read_whole(&CLASSES, text, &mut [], 0, used),
        Whole::Listed(_)
    )
}

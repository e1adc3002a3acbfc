// The address reader of either edition, RFC 733 and RFC 822. That of RFC 733 is the crate `addresses`; that of RFC 822 is here.
//
// In RFC 822 a group holds mailboxes and nothing holds a group, so that one loop over the symbols reads a list: the place and the
// class of a symbol give the next place, and coming to a place begins a record or comes to its end.
#![tactic(auto)]

ghost use Rattle.std.specs.Prelude.{◌≡◌, ◌+◌, ◌*◌, ◌≤◌, ◌<◌, is_none};
ghost use Rattle.std.proofs.lemmas.List.Edits.{sets};
ghost use Rattle.octets.specs.Believed.Choice.{both};
ghost use Rattle.octets.specs.Believed.Numbers.{message_limit};
ghost use Rattle.records.specs.Believed.AddressRecords.{address_record_size, record_bytes};
ghost use Rattle.grammar.specs.Believed.Rfc733.{kind_number};
ghost use Rattle.grammar.specs.Ties.Kinds.{kind_of};
ghost use Rattle.addresses.specs.Believed.Editions.{class_in822};
ghost use Rattle.addresses.specs.Ties.Whole.{Body, WholeIs, TwiceIs};
ghost use Rattle.addresses.specs.Believed.Outcome.{AnsweredBy};
ghost use Rattle.editions.specs.Believed.Outcome.{verdict822, outcome822, outcome_of, Condition3Of, NeverTooDeep};
ghost use Rattle.editions.specs.declared.places.Place.TheVariants.{Slot};
ghost use Rattle.editions.specs.Ties.Numbers.{EditionIs};
ghost use Rattle.editions.specs.Ties.Places.{ends_at};
ghost use Rattle.editions.specs.Ties.Walks.{Fine, new_by, walk_by, StepIs};

use crate::places::{Place, next_place};
use grammar::{Kind, Whole};
use octets::answers::Answer;
use octets::classes822::CLASSES_822;
use octets::numbers::{EDITION_UNKNOWN, ENDS_TOO_SOON, NO_LIST_GOES_ON};
use records::Span;
use records::address::{ADDRESS_RECORD_SIZE, AddressRecord, store, store_end};
use scanner::{Class, Next};

mod places;

// What the loop keeps: its place; the name so far; the number of the open group and of the open angle address; and how many
// records there are.
#[derive(Clone, Copy)]
struct Walk {
    place: Place,
    name: Span,
    group: Option<usize>,
    angle: Option<usize>,
    free: usize,
}

impl Walk {
    // The loop before its first symbol.
    fn new() -> Walk
        ensures { result ≡ walk_by Slot 0 0 None None 0 }
    {
        let name = Span { start: 0, end: 0 };
        Walk {
            place: Place::Slot,
            name,
            group: None,
            angle: None,
            free: 0,
        }
    }

    // Whether a list may end here.
    fn may_end(self) -> bool
        ensures { result ≡ both (ends_at self.place) (is_none self.group) }
    {
        matches!(
            self.place,
            Place::Slot | Place::Domain | Place::AngleClosed | Place::GroupClosed
        ) && self.group.is_none()
    }

    // A record begins after the others: in the open group and angle address, from its name on, with an end for now. Its number.
    fn begin(&mut self, table: &mut [u8], kind: Kind, end: usize) -> usize
        requires { Fine self.old × (self.old.free ≤ message_limit) }
        ensures stored { table.new ≡ sets table.old (self.old.free * address_record_size) (record_bytes (new_by (kind_number (kind_of kind)) self.old end)) }
        ensures more { self.new ≡ record self.old { free = self.old.free + 1 } }
        ensures number { result ≡ self.old.free }
    {
        let address = AddressRecord {
            kind: kind as u8,
            depth: u8::from(self.group.is_some()) + u8::from(self.angle.is_some()),
            parent: self.angle.or(self.group).map_or(0, |number| number + 1),
            start: self.name.start,
            end,
            name: self.name,
        };
        let number = self.free;
        store(table, number, address);
        self.free += 1;
        number
    }

    // One symbol; none where it leads nowhere.
    fn step(&mut self, table: &mut [u8], class: Class, span: Span) -> Option<()>
        requires { Fine self.old × (self.old.free ≤ message_limit) }
        ensures { StepIs self.old class span table.old table.new self.new result }
    {
        self.place = next_place(self.place, class)?;
        match self.place {
            Place::Word | Place::AngleWord => self.name = span,
            Place::Phrase | Place::Local | Place::AngleLocal => self.name.end = span.end,
            Place::AtSign | Place::AngleAt => {
                self.begin(table, Kind::Mailbox, span.end);
            }
            Place::Domain | Place::AngleDomain => {
                store_end(table, self.free.checked_sub(1)?, span.end);
            }
            Place::Opened => self.angle = Some(self.begin(table, Kind::AngleList, span.end)),
            Place::AngleClosed => store_end(table, self.angle.take()?, span.end),
            Place::GroupOpened => {
                if self.group.is_some() {
                    return None;
                }
                self.group = Some(self.begin(table, Kind::Group, span.end));
            }
            Place::GroupClosed => store_end(table, self.group.take()?, span.end),
            _ => {}
        }
        Some(())
    }
}

// The class of a symbol in RFC 822: the atom "at" is an atom.
fn class_in(class: Class, span: Span) -> Class
    requires { span.start < span.end }
    ensures { result ≡ class_in822 class span.start span.end }
{
    if matches!(class, Class::At) && span.end != span.start + 1 {
        Class::Atom
    } else {
        class
    }
}

// The list from a position of a text on to its end.
fn read_whole(classes: &[u8; 256], text: &[u8], table: &mut [u8], at: usize) -> Whole
    requires { Body classes.now text.now at }
    ensures { WholeIs verdict822 classes.now text.now at table.old table.new result }
{
    let mut p = at;
    let mut w = Walk::new();
    while let Next::Found(symbol) = scanner::next_by(classes, text, p) {
        let span = Span {
            start: symbol.start,
            end: symbol.end,
        };
        let class = class_in(symbol.class, span);
        let Some(()) = w.step(table, class, span) else {
            return Whole::Refused(NO_LIST_GOES_ON, symbol.start);
        };
        p = symbol.end;
    }
    if w.may_end() {
        Whole::Listed(w.free)
    } else {
        Whole::Refused(ENDS_TOO_SOON, text.len())
    }
}

// A text without fault: a run on the empty part of the table for the answer, and then, if there is room, the run that writes.
fn read_twice(classes: &[u8; 256], text: &[u8], table: &mut [u8], at: usize) -> Answer
    requires { Body classes.now text.now at }
    ensures { TwiceIs verdict822 classes.now text.now at table.old table.new result }
{
    match read_whole(classes, text, &mut table[..0], at) {
        Whole::Refused(number, place) => Answer::Refused(number, place),
        Whole::Listed(count) => {
            if table.len() / ADDRESS_RECORD_SIZE < count {
                return Answer::NoRoom(count);
            }
            read_whole(classes, text, table, at);
            Answer::Accepted(count)
        }
    }
}

// Read the address list of RFC 822 in the body of a message.
fn read_822(message: &[u8], start: usize, end: usize, table: &mut [u8]) -> Answer
    ensures { AnsweredBy (outcome822 message.now start end table.old) result table.new }
{
    let classes = &CLASSES_822;
    if let Answer::Refused(number, place) = scanner::scan_by(classes, message, start, end) {
        return Answer::Refused(number, place);
    }
    read_twice(classes, &message[..end], table, start)
}

// An edition of the address rules.
#[derive(Clone, Copy, PartialEq, Eq)]
enum Edition {
    Rfc733,
    Rfc822,
}

// A number that no edition has.
#[derive(Clone, Copy, PartialEq, Eq)]
struct UnknownEdition;

impl TryFrom<usize> for Edition {
    type Error = UnknownEdition;

    ghost try_from_gives = { EditionIs };

    fn try_from(number: usize) -> Result<Edition, UnknownEdition> {
        match number {
            733 => Ok(Edition::Rfc733),
            822 => Ok(Edition::Rfc822),
            _ => Err(UnknownEdition),
        }
    }
}

// Read the address list in the body of a message from start up to end by the rules of an edition, 733 or 822, and write its records
// into the table.
pub fn read_addresses(
    message: &[u8],
    start: usize,
    end: usize,
    edition: usize,
    table: &mut [u8],
) -> Answer
    ensures outcome { AnsweredBy (outcome_of edition message.now start end table.old) result table.new }
    ensures condition3 { Condition3Of edition message.now start end table.old result table.new }
    ensures levels { NeverTooDeep edition result }
{
    match Edition::try_from(edition) {
        Ok(Edition::Rfc733) => addresses::read_addresses(message, start, end, table),
        Ok(Edition::Rfc822) => read_822(message, start, end, table),
        Err(UnknownEdition) => {
            if let Answer::Refused(number, place) = scanner::check_body(message, 0, 0) {
                return Answer::Refused(number, place);
            }
            Answer::Refused(EDITION_UNKNOWN, 0)
        }
    }
}

// The places of the loop of RFC 822, and how symbols lead from one to another.
ghost use Rattle.std.specs.Prelude.{◌≡◌};
ghost use Rattle.editions.specs.Ties.Places.{next_place};

use Place::{
    AngleAt, AngleClosed, AngleDomain, AngleDomainDot, AngleDot, AngleLocal, AngleWord, AtSign,
    Domain, DomainDot, EmptyHop, GroupClosed, GroupOpened, HopAt, HopComma, HopDomain, Local,
    LocalDot, Opened, Phrase, RouteColon, Slot, Word,
};
use scanner::Class::{
    self, At, Atom, Colon, Comma, Dot, GreaterThan, LessThan, Literal, Quoted, Semicolon,
};

// Where the loop stands.
#[derive(Clone, Copy, PartialEq, Eq)]
pub enum Place {
    // At a place of a list or of a group: at its start, or after a comma.
    Slot,
    // After the first word of an address.
    Word,
    // After further words of a phrase.
    Phrase,
    // After a word of a local-part that follows a dot.
    Local,
    // After a dot of a local-part.
    LocalDot,
    // After the "@" of a mailbox without brackets.
    AtSign,
    // After a part of its domain.
    Domain,
    // After a dot of its domain.
    DomainDot,
    // After "<".
    Opened,
    // After the first word of the local-part in it.
    AngleWord,
    // After a further word of that local-part.
    AngleLocal,
    // After a dot of that local-part.
    AngleDot,
    // After its "@".
    AngleAt,
    // After a part of its domain.
    AngleDomain,
    // After a dot of its domain.
    AngleDomainDot,
    // After a comma before the first "@" of a route.
    EmptyHop,
    // After an "@" of a route, or a dot of a domain there.
    HopAt,
    // After a part of a domain of a route.
    HopDomain,
    // After a comma of a route after a domain.
    HopComma,
    // After the ":" of a route.
    RouteColon,
    // After ">".
    AngleClosed,
    // After the ":" of a group.
    GroupOpened,
    // After ";".
    GroupClosed,
}

// The next place, from a place by a symbol of a class; none where no list goes on.
pub fn next_place(place: Place, class: Class) -> Option<Place>
    ensures { result ≡ next_place place class }
{
    let next = match (place, class) {
        (Slot | GroupOpened, Atom | Quoted) => Word,
        (Word | Phrase, Atom | Quoted) => Phrase,
        (Word | Phrase, Colon) => GroupOpened,
        (Word | Phrase, LessThan) => Opened,
        (Word | Local, Dot) => LocalDot,
        (Word | Local, At) => AtSign,
        (LocalDot, Atom | Quoted) => Local,
        (AtSign | DomainDot, Atom | Literal) => Domain,
        (Domain, Dot) => DomainDot,
        (Opened | EmptyHop, Comma) => EmptyHop,
        (Opened | EmptyHop | HopComma, At) => HopAt,
        (HopAt, Atom | Literal) => HopDomain,
        (HopDomain, Dot) => HopAt,
        (HopDomain | HopComma, Comma) => HopComma,
        (HopDomain | HopComma, Colon) => RouteColon,
        (Opened | RouteColon, Atom | Quoted) => AngleWord,
        (AngleWord | AngleLocal, Dot) => AngleDot,
        (AngleWord | AngleLocal, At) => AngleAt,
        (AngleDot, Atom | Quoted) => AngleLocal,
        (AngleAt | AngleDomainDot, Atom | Literal) => AngleDomain,
        (AngleDomain, Dot) => AngleDomainDot,
        (AngleDomain, GreaterThan) => AngleClosed,
        (Slot | GroupOpened | Domain | AngleClosed, Semicolon) => GroupClosed,
        (Slot | GroupOpened | Domain | AngleClosed | GroupClosed, Comma) => Slot,
        _ => return None,
    };
    Some(next)
}

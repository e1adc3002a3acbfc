// Where the walk over the symbols stands, and what follows from it.
ghost use Rattle.std.specs.Prelude.{◌≡◌};
ghost use Rattle.plain.specs.Ties.Walking.{gap_before, gap_before_colon, after_atom, after_colon, after_comma, after as place_after};

use scanner::Class;

#[derive(Clone, Copy, PartialEq, Eq)]
pub enum Place {
    // At the start of a list, or after "<", and commas.
    Start,
    // After a ":" that opens an address, ..
    Bare,
    // .. and commas.
    BareComma,
    // After the ":" of a group with a name or the second one of a typed address, and commas.
    Named,
    // After the atom of a typed address.
    Typing,
    // After a word.
    Word,
    // After "at".
    Node,
    // After ">" or ";".
    Closed,
    // After an address and commas.
    Parted,
}

// What stands before a symbol.
#[derive(Clone, Copy, PartialEq, Eq)]
pub enum Gap {
    Nothing,
    Space,
    CommaSpace,
}

impl Place {
    // What stands before a word or "<"; colon: the word is an atom and ":" comes next.
    pub(crate) fn gap_before(self, colon: bool) -> Gap
        ensures { result ≡ gap_before self colon }
    {
        match self {
            Place::Bare if colon => Gap::Nothing,
            Place::BareComma if colon => Gap::CommaSpace,
            Place::Start | Place::Typing | Place::Closed => Gap::Nothing,
            Place::Bare | Place::BareComma | Place::Named | Place::Word | Place::Node => Gap::Space,
            Place::Parted => Gap::CommaSpace,
        }
    }

    // What stands before ":".
    pub(crate) fn gap_before_colon(self) -> Gap
        ensures { result ≡ gap_before_colon self }
    {
        match self {
            Place::Bare | Place::BareComma | Place::Named => Gap::Space,
            Place::Parted => Gap::CommaSpace,
            _ => Gap::Nothing,
        }
    }

    // The place after ":".
    pub(crate) fn after_colon(self) -> Place
        ensures { result ≡ after_colon self }
    {
        match self {
            Place::Typing | Place::Word => Place::Named,
            _ => Place::Bare,
        }
    }
}

// ---- what `expansion` calls, too: these names and parameters stay

// The place after an atom.
pub fn after_atom(place: Place, colon: bool) -> Place
    ensures { result ≡ after_atom place colon }
{
    match place {
        Place::Bare if colon => Place::Typing,
        _ => Place::Word,
    }
}

// The place after a comma.
pub fn after_comma(place: Place) -> Place
    ensures { result ≡ after_comma place }
{
    match place {
        Place::Start | Place::Named => place,
        Place::Bare | Place::BareComma => Place::BareComma,
        Place::Typing | Place::Word | Place::Node | Place::Closed | Place::Parted => Place::Parted,
    }
}

// The place after a symbol.
pub fn after(class: Class, place: Place, colon: bool) -> Place
    ensures { result ≡ place_after class place colon }
{
    match class {
        Class::Atom => after_atom(place, colon),
        Class::Quoted => Place::Word,
        Class::At => Place::Node,
        Class::LessThan => Place::Start,
        Class::GreaterThan | Class::Semicolon => Place::Closed,
        Class::Comma => after_comma(place),
        Class::Colon => place.after_colon(),
        Class::Stray | Class::Dot | Class::Literal => place,
    }
}

// The table of modes and classes: what is done at a symbol, and the mode after it.

ghost use Rattle.std.specs.Prelude.{◌≡◌};
ghost use Rattle.engine.specs.Ties.Actions.{row_of, action_of, mode_number, action_table};

use grammar::class_number;
use scanner::Class;

// Where the reader is in a list.
#[derive(Clone, Copy, PartialEq, Eq)]
pub enum Mode {
    // At a place,
    AtPlace,
    // right after the ":" of a nameless group,
    AtStart,
    // after one atom there,
    AtFirstAtom,
    // after the two colons of a typed address,
    Wanting,
    // after one atom,
    AtAtom,
    // one quoted-string,
    AtQuoted,
    // or more words,
    AtWords,
    // after "at",
    AfterAt,
    // after a node,
    AtNode,
    // and after another address.
    AfterAddress,
}

// What is done at a symbol.
#[derive(Clone, Copy, PartialEq, Eq)]
pub enum Act {
    // It is refused.
    Refuse,
    // A word begins an address.
    Begin,
    // A further word.
    Add,
    // Only the mode changes.
    Pass,
    // A level is opened, without a name,
    Open,
    // and with one.
    OpenNamed,
    // The nameless group that was opened turns typed.
    TurnTyped,
    // An address ends.
    EndAtComma,
    // A level is closed.
    Close,
    // An address ends, and a level is closed.
    EndAndClose,
}

// .. and the mode after it.
#[derive(Clone, Copy, PartialEq, Eq)]
pub struct Action {
    pub act: Act,
    pub next: Mode,
}

// What the end of the text is: too soon, the end of a list, or that of an address and a list.
#[derive(Clone, Copy, PartialEq, Eq)]
pub enum End {
    TooSoon,
    OfList,
    OfAddress,
}

impl Mode {
    // The number of its row.
    fn number(self) -> usize
        ensures { result ≡ mode_number self }
    {
        self as usize
    }
}

const CLASSES: usize = 11;

const MODES: usize = 10;

const NO: Action = Action {
    act: Act::Refuse,
    next: Mode::AtPlace,
};

const ATOM: Action = Action {
    act: Act::Begin,
    next: Mode::AtAtom,
};

const FIRST_ATOM: Action = Action {
    act: Act::Begin,
    next: Mode::AtFirstAtom,
};

const QUOTED: Action = Action {
    act: Act::Begin,
    next: Mode::AtQuoted,
};

const WORD: Action = Action {
    act: Act::Add,
    next: Mode::AtWords,
};

const AT: Action = Action {
    act: Act::Pass,
    next: Mode::AfterAt,
};

const NODE: Action = Action {
    act: Act::Pass,
    next: Mode::AtNode,
};

const COMMA: Action = Action {
    act: Act::Pass,
    next: Mode::AtPlace,
};

const LIST: Action = Action {
    act: Act::Open,
    next: Mode::AtPlace,
};

const GROUP: Action = Action {
    act: Act::Open,
    next: Mode::AtStart,
};

const NAMED: Action = Action {
    act: Act::OpenNamed,
    next: Mode::AtPlace,
};

const TYPED: Action = Action {
    act: Act::TurnTyped,
    next: Mode::Wanting,
};

const CLOSE: Action = Action {
    act: Act::Close,
    next: Mode::AfterAddress,
};

const END_COMMA: Action = Action {
    act: Act::EndAtComma,
    next: Mode::AtPlace,
};

const END_CLOSE: Action = Action {
    act: Act::EndAndClose,
    next: Mode::AfterAddress,
};

pub type Table = [[Action; CLASSES]; MODES];

// A row for each mode and a column for each class, in their order: atom, quoted-string, "at", "<", ">", ",", ";", ":", any other,
// and a dot and a domain literal, which RFC 733 has not.
pub const ACTIONS: Table = [
    [
        ATOM, QUOTED, NO, LIST, CLOSE, COMMA, CLOSE, GROUP, NO, NO, NO,
    ],
    [
        FIRST_ATOM, QUOTED, NO, LIST, CLOSE, COMMA, CLOSE, GROUP, NO, NO, NO,
    ],
    [WORD, WORD, AT, NAMED, NO, NO, NO, TYPED, NO, NO, NO],
    [ATOM, QUOTED, NO, LIST, NO, NO, NO, GROUP, NO, NO, NO],
    [WORD, WORD, AT, NAMED, NO, NO, NO, NAMED, NO, NO, NO],
    [
        WORD, WORD, AT, NAMED, END_CLOSE, END_COMMA, END_CLOSE, NAMED, NO, NO, NO,
    ],
    [WORD, WORD, AT, NAMED, NO, NO, NO, NAMED, NO, NO, NO],
    [NODE, NODE, NO, NO, NO, NO, NO, NO, NO, NO, NO],
    [
        NO, NO, AT, NO, END_CLOSE, END_COMMA, END_CLOSE, NO, NO, NO, NO,
    ],
    [NO, NO, NO, NO, CLOSE, COMMA, CLOSE, NO, NO, NO, NO],
];

// The column of the end of the text. It stands by itself, for rows that are structs with arrays are built anew at each look.
const ENDS: [End; MODES] = [
    End::OfList,
    End::OfList,
    End::TooSoon,
    End::TooSoon,
    End::TooSoon,
    End::OfAddress,
    End::TooSoon,
    End::TooSoon,
    End::OfAddress,
    End::OfList,
];

// What is done in a mode at a symbol of a class. The table is lent, for else it is built anew at each look.
pub(crate) fn action_at(actions: &Table, mode: Mode, class: Class) -> Action
    requires { actions.now ≡ action_table }
    ensures { result ≡ action_of mode class }
{
    actions[mode.number()][class_number(class)]
}

// What the end of the text is in a mode.
pub(crate) fn end_at(mode: Mode) -> End
    ensures { result ≡ (row_of mode).end }
{
    ENDS[mode.number()]
}

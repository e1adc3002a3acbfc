// The second address reader: driven by a table of modes and classes, with its own stack of at most 64 levels in an array.
// It says, too, what could stand where it stops.
//
// No function here calls itself, directly or through others.
#![tactic(auto)]

ghost use Rattle.std.specs.Prelude.{◌≡◌, ◌≤◌, ◌<◌, eqb, leb};
ghost use Rattle.octets.specs.Believed.Numbers.{message_limit, level_limit};
ghost use Rattle.grammar.specs.Executable.Machine733.{answer};
ghost use Rattle.addresses.specs.Ties.Whole.{Body, WholeIs, TwiceIs};
ghost use Rattle.addresses.specs.Ties.Steps.{symbols_from};
ghost use Rattle.addresses.specs.Believed.Outcome.{AnsweredBy, outcome};
ghost use Rattle.addresses.specs.Believed.Condition3.{Condition3};
ghost use Rattle.expected.specs.Believed.Things.{if_named, sum_of};
ghost use Rattle.expected.specs.Executable.Named.{named, expected_in};
ghost use Rattle.engine.specs.Ties.Actions.{action_table};
ghost use Rattle.engine.specs.Ties.Turns.{is_angle, kind_if, lone_kind, kind_at, span, engine_by, PushIs, IsNew, SomeHere, ParentIs, SomeLevel, PutLevelIs, SomeClosing, CloseTypedIs, SomeEnded, CompleteIs, Fits, OpenLevelIs, SomeAtClose, CloseLevelIs, SomeTyped, MakeTypedIs, SomeTurning, TurnIs, SomeFinishing, FinishIs};
ghost use Rattle.engine.specs.Ties.Expecting.{RunIs, UnderTypedIs, SomeStands, CouldIs, CouldEndIs, ExpectedIs};

use crate::actions::{ACTIONS, Act, Action, End, Mode, Table, action_at, end_at};
use crate::things::{AT, BODY_END, COLON, COMMA, GREATER_THAN, LESS_THAN, SEMICOLON, WORD};
use grammar::{Whole, typed_kind};
use octets::answers::{Answer, Fault};
use octets::classes::CLASSES;
use octets::numbers::{ENDS_TOO_SOON, LEVEL_LIMIT, NO_LIST_GOES_ON, TOO_MANY_LEVELS};
use records::Span;
use records::address::{ADDRESS_RECORD_SIZE, AddressRecord, store};
use scanner::{Class, Next, Symbol};

mod actions;
mod things;

// Kinds are numbers here, for document 01 has them so in the records, and `grammar::typed_kind` gives one. That of a mailbox,
const MAILBOX: u8 = 1;
// of an angle list,
const ANGLE_LIST: u8 = 2;
// of a group,
const GROUP: u8 = 3;
// of one quoted-string,
const QUOTED_STRING: u8 = 4;
// and the lowest of a typed address.
const FIRST_TYPED: u32 = 5;

// An open level: the number of its record, its kind, its start, and where its name starts and ends. Positions have 4 bytes here
// and are no Span, for all levels are to lie in 1,280 bytes of the stack.
#[derive(Clone, Copy)]
struct OpenLevel {
    number: u32,
    kind: u32,
    start: u32,
    name_start: u32,
    name_end: u32,
}

// The open levels, the outermost first, and how many they are.
#[derive(Drop)]
struct Stack {
    levels: [OpenLevel; LEVEL_LIMIT],
    depth: usize,
}

// Where the reader stands: its mode, the next free record number, the start of the address that is read and the end of its
// name, and the end of the last symbol.
#[derive(Clone, Copy)]
struct Engine {
    mode: Mode,
    free: usize,
    name: Span,
    at: usize,
}

// Where the reader stops: at the end of the text, or before a symbol that is refused so.
#[derive(Clone, Copy)]
struct Stopped {
    engine: Engine,
    fault: Option<Fault>,
}

// The kind of record that a bracket or mark opens or closes.
fn enclosure(class: Class) -> u8
    ensures { result ≡ kind_if (is_angle class) }
{
    match class {
        Class::LessThan | Class::GreaterThan => ANGLE_LIST,
        _ => GROUP,
    }
}

// The kind of an address that ends in a mode.
fn lone_kind(mode: Mode) -> u8
    ensures { result ≡ lone_kind mode }
{
    match mode {
        Mode::AtQuoted => QUOTED_STRING,
        _ => MAILBOX,
    }
}

impl Engine {
    // No address is read.
    fn at_place(mode: Mode, free: usize, at: usize) -> Engine
        ensures { result ≡ engine_by mode free (span at at) at }
    {
        let name = Span { start: at, end: at };
        Engine {
            mode,
            free,
            name,
            at,
        }
    }

    // No record gets a number.
    fn goes_on(self, mode: Mode, name: Span, at: usize) -> Engine
        ensures { result ≡ engine_by mode self.free name at }
    {
        Engine {
            mode,
            name,
            at,
            ..self
        }
    }

    // A level is opened here, without a name.
    fn nameless(self, start: usize) -> Engine
        ensures { result ≡ engine_by self.mode self.free (span start start) self.at }
    {
        let name = Span { start, end: start };
        Engine { name, ..self }
    }
}

impl Stack {
    fn new() -> Self
        ensures { IsNew result }
    {
        let none = OpenLevel {
            number: 0,
            kind: 0,
            start: 0,
            name_start: 0,
            name_end: 0,
        };
        Stack {
            levels: [none; LEVEL_LIMIT],
            depth: 0,
        }
    }

    // Whether the innermost of so many levels is a typed address.
    fn is_typed(&self, depth: usize) -> bool
        requires { depth ≤ level_limit }
        ensures { result ≡ leb 5 (kind_at self.now.levels depth) }
    {
        0 < depth && FIRST_TYPED <= self.levels[depth - 1].kind
    }

    // Whether the innermost of so many levels is of a kind.
    fn is_of(&self, depth: usize, kind: u8) -> bool
        requires deep { depth ≤ level_limit }
        requires told { 0 < kind }
        ensures { result ≡ eqb (kind_at self.now.levels depth) kind }
    {
        0 < depth && self.levels[depth - 1].kind == kind as u32
    }

    // The parent of what lies at a depth: the record number of the level around it plus 1, or 0.
    fn parent(&self, depth: usize) -> usize
        requires { SomeHere self.now.levels depth }
        ensures { ParentIs self.now.levels depth result }
    {
        if depth == 0 {
            return 0;
        }
        self.levels[depth - 1].number as usize + 1
    }

    // A level is opened, if there are fewer than 64.
    fn push(&mut self, level: OpenLevel) -> Result<(), u8>
        ensures { PushIs self.old level self.new result }
    {
        if LEVEL_LIMIT <= self.depth {
            return Err(TOO_MANY_LEVELS);
        }
        self.levels[self.depth] = level;
        self.depth += 1;
        Ok(())
    }

    // Write the record of an open level, whose end is known now.
    fn put_level(&self, table: &mut [u8], level: usize, end: usize)
        requires { SomeLevel self.now.levels level }
        ensures { PutLevelIs self.now.levels table.old table.new level end }
    {
        let open = self.levels[level];
        let name = Span {
            start: open.name_start as usize,
            end: open.name_end as usize,
        };
        let address = AddressRecord {
            kind: open.kind as u8,
            depth: level as u8,
            parent: self.parent(level),
            start: open.start as usize,
            end,
            name,
        };
        store(table, open.number as usize, address);
    }

    // An address has ended: so have the typed addresses right around it. The levels still open.
    fn close_typed(&self, table: &mut [u8], depth: usize, end: usize) -> usize
        requires { SomeClosing self.now.levels table.old depth end }
        ensures { CloseTypedIs self.now.levels table.old table.new depth end result }
    {
        let mut left = depth;
        while self.is_typed(left) {
            left -= 1;
            self.put_level(table, left, end);
        }
        left
    }

    // The levels that stay open where an address ends: all but the typed ones right around it.
    fn under_typed(&self) -> usize
        requires { SomeHere self.now.levels self.now.depth }
        ensures { UnderTypedIs self.now.levels self.now.depth result }
    {
        let mut left = self.depth;
        while self.is_typed(left) {
            left -= 1;
        }
        left
    }
}

// The mailbox or quoted-string that is read has ended. The levels still open.
fn complete(stack: &Stack, table: &mut [u8], engine: Engine) -> usize
    requires { SomeEnded stack.now table.old engine }
    ensures { CompleteIs stack.now table.old table.new engine result }
{
    let address = AddressRecord {
        kind: lone_kind(engine.mode),
        depth: stack.depth as u8,
        parent: stack.parent(stack.depth),
        start: engine.name.start,
        end: engine.at,
        name: engine.name,
    };
    store(table, engine.free, address);
    stack.close_typed(table, stack.depth, engine.at)
}

// A level is opened, if there are fewer than 64; else the levels stay as they were.
fn open_level(
    stack: &mut Stack,
    engine: Engine,
    kind: u8,
    mode: Mode,
    end: usize,
) -> Result<Engine, u8>
    requires { Fits engine kind end }
    ensures { OpenLevelIs stack.old stack.new engine kind mode end result }
{
    stack.push(OpenLevel {
        number: engine.free as u32,
        kind: kind as u32,
        start: engine.name.start as u32,
        name_start: engine.name.start as u32,
        name_end: engine.name.end as u32,
    })?;
    Ok(Engine {
        mode,
        free: engine.free + 1,
        at: end,
        ..engine
    })
}

// A level is closed, if its mark is right; else the levels stay as they were.
fn close_level(
    stack: &mut Stack,
    table: &mut [u8],
    depth: usize,
    kind: u8,
    end: usize,
) -> Result<(), u8>
    requires { SomeAtClose depth kind end stack.old.levels table.old }
    ensures { CloseLevelIs stack.old table.old stack.new table.new depth kind end result }
{
    if !stack.is_of(depth, kind) {
        return Err(NO_LIST_GOES_ON);
    }
    let level = depth - 1;
    stack.put_level(table, level, end);
    stack.depth = stack.close_typed(table, level, end);
    Ok(())
}

// The nameless group that has just been opened turns typed; no level is opened.
fn make_typed(text: &[u8], stack: &mut Stack, engine: Engine, mode: Mode, end: usize) -> Engine
    requires { SomeTyped text.now engine mode end stack.old }
    ensures { MakeTypedIs text.now stack.old stack.new engine mode end result }
{
    let Span {
        start,
        end: name_end,
    } = engine.name;
    let level = stack.depth - 1;
    stack.levels[level] = OpenLevel {
        kind: typed_kind(&text[start..name_end]) as u32,
        name_start: start as u32,
        name_end: name_end as u32,
        ..stack.levels[level]
    };
    engine.goes_on(mode, engine.name, end)
}

// What is done at a symbol; where it is refused, the levels stay as they were.
fn turn(
    actions: &Table,
    text: &[u8],
    stack: &mut Stack,
    table: &mut [u8],
    engine: Engine,
    symbol: Symbol,
) -> Result<Engine, u8>
    requires { (actions.now ≡ action_table) × SomeTurning text.now engine symbol stack.old table.old }
    ensures { TurnIs text.now stack.old table.old stack.new table.new engine symbol result }
{
    let Symbol {
        class,
        start,
        end,
        ..
    } = symbol;
    let Action { act, next } = action_at(actions, engine.mode, class);
    match act {
        Act::Refuse => Err(NO_LIST_GOES_ON),
        Act::Begin => Ok(engine.goes_on(next, Span { start, end }, end)),
        Act::Add => Ok(engine.goes_on(next, Span { end, ..engine.name }, end)),
        Act::Pass => Ok(engine.goes_on(next, engine.name, end)),
        Act::Open => open_level(stack, engine.nameless(start), enclosure(class), next, end),
        Act::OpenNamed => open_level(stack, engine, enclosure(class), next, end),
        Act::TurnTyped => Ok(make_typed(text, stack, engine, next, end)),
        Act::EndAtComma => {
            stack.depth = complete(stack, table, engine);
            Ok(Engine::at_place(next, engine.free + 1, end))
        }
        Act::Close => {
            let depth = stack.depth;
            close_level(stack, table, depth, enclosure(class), end)?;
            Ok(Engine::at_place(next, engine.free, end))
        }
        Act::EndAndClose => {
            let depth = complete(stack, table, engine);
            close_level(stack, table, depth, enclosure(class), end)?;
            Ok(Engine::at_place(next, engine.free + 1, end))
        }
    }
}

// The end of the text.
fn finish(text: &[u8], stack: &Stack, table: &mut [u8], engine: Engine) -> Whole
    requires { SomeFinishing text.now engine stack.now table.old }
    ensures { FinishIs text.now stack.now table.old table.new engine result }
{
    let (depth, count) = match end_at(engine.mode) {
        End::TooSoon => return Whole::Refused(ENDS_TOO_SOON, text.len()),
        End::OfList => (stack.depth, engine.free),
        End::OfAddress => (complete(stack, table, engine), engine.free + 1),
    };
    if depth == 0 {
        return Whole::Listed(count);
    }
    Whole::Refused(ENDS_TOO_SOON, text.len())
}

// The symbols from a position of a text on, one turn each, up to where the reader stops. The tables are lent, so
// that the proof sees a name for each.
fn run(
    classes: &[u8; 256],
    actions: &Table,
    text: &[u8],
    stack: &mut Stack,
    table: &mut [u8],
    at: usize,
) -> Stopped
    requires { Body classes.now text.now at × (actions.now ≡ action_table) × IsNew stack.old }
    ensures { RunIs classes.now text.now table.old at stack.new table.new result }
{
    let mut engine = Engine::at_place(Mode::AtPlace, 0, at);
    loop {
        let Next::Found(symbol) = scanner::next_by(classes, text, engine.at) else {
            return Stopped {
                engine,
                fault: None,
            };
        };
        match turn(actions, text, stack, table, engine, symbol) {
            Ok(after) => engine = after,
            Err(number) => {
                let position = symbol.start;
                return Stopped {
                    engine,
                    fault: Some(Fault { number, position }),
                };
            }
        }
    }
}

// The list from a position of a text on to its end.
fn read_whole(
    classes: &[u8; 256],
    actions: &Table,
    text: &[u8],
    table: &mut [u8],
    at: usize,
) -> Whole
    requires { Body classes.now text.now at × (actions.now ≡ action_table) }
    ensures { WholeIs (answer level_limit) classes.now text.now at table.old table.new result }
{
    let mut stack = Stack::new();
    let Stopped { engine, fault } = run(classes, actions, text, &mut stack, table, at);
    match fault {
        Some(fault) => Whole::Refused(fault.number, fault.position),
        None => finish(text, &stack, table, engine),
    }
}

// A text without fault: a run on the empty part of the table for the answer, and then, if there is room, the run that writes.
fn read_twice(
    classes: &[u8; 256],
    actions: &Table,
    text: &[u8],
    table: &mut [u8],
    at: usize,
) -> Answer
    requires { Body classes.now text.now at × (actions.now ≡ action_table) }
    ensures { TwiceIs (answer level_limit) classes.now text.now at table.old table.new result }
{
    match read_whole(classes, actions, text, &mut table[..0], at) {
        Whole::Refused(number, place) => Answer::Refused(number, place),
        Whole::Listed(count) => {
            if table.len() / ADDRESS_RECORD_SIZE < count {
                return Answer::NoRoom(count);
            }
            read_whole(classes, actions, text, table, at);
            Answer::Accepted(count)
        }
    }
}

// Read the address list in the body of a message from start up to end, and write its records into the table.
pub fn read_addresses(message: &[u8], start: usize, end: usize, table: &mut [u8]) -> Answer
    ensures outcome { AnsweredBy (outcome message.now start end table.old) result table.new }
    ensures condition3 { Condition3 message.now start end table.old result table.new }
{
    if let Answer::Refused(number, place) = scanner::scan_body(message, start, end) {
        return Answer::Refused(number, place);
    }
    read_twice(&CLASSES, &ACTIONS, &message[..end], table, start)
}

// Whether a symbol of a class could stand next.
fn could(stack: &Stack, actions: &Table, engine: Engine, class: Class) -> bool
    requires { SomeStands stack.now engine × (actions.now ≡ action_table) }
    ensures { CouldIs stack.now engine class result }
{
    match action_at(actions, engine.mode, class).act {
        Act::Refuse => false,
        Act::Open | Act::OpenNamed => stack.depth < LEVEL_LIMIT,
        Act::Close => stack.is_of(stack.depth, enclosure(class)),
        Act::EndAndClose => stack.is_of(stack.under_typed(), enclosure(class)),
        Act::Begin | Act::Add | Act::Pass | Act::TurnTyped | Act::EndAtComma => true,
    }
}

// Whether the text could end here.
fn could_end(stack: &Stack, engine: Engine) -> bool
    requires { SomeStands stack.now engine }
    ensures { CouldEndIs stack.now engine result }
{
    match end_at(engine.mode) {
        End::TooSoon => false,
        End::OfList => stack.depth == 0,
        End::OfAddress => stack.under_typed() == 0,
    }
}

// A number, if it counts; else 0.
fn counted(counts: bool, n: usize) -> usize
    ensures most { result ≤ n }
    ensures is { result ≡ if_named counts n }
{
    if counts { n } else { 0 }
}

// What could stand next, summed.
fn expected_here(stack: &Stack, actions: &Table, engine: Engine) -> usize
    requires { SomeStands stack.now engine × (actions.now ≡ action_table) }
    ensures { ExpectedIs stack.now engine result }
{
    counted(could(stack, actions, engine, Class::Atom), WORD)
        + counted(could(stack, actions, engine, Class::At), AT)
        + counted(could(stack, actions, engine, Class::LessThan), LESS_THAN)
        + counted(
            could(stack, actions, engine, Class::GreaterThan),
            GREATER_THAN,
        )
        + counted(could(stack, actions, engine, Class::Comma), COMMA)
        + counted(could(stack, actions, engine, Class::Semicolon), SEMICOLON)
        + counted(could(stack, actions, engine, Class::Colon), COLON)
        + counted(could_end(stack, engine), BODY_END)
}

// What could stand where the reader stops in a text without fault, summed. It writes no records.
fn expected_at_stop(classes: &[u8; 256], actions: &Table, text: &[u8], at: usize) -> usize
    requires { Body classes.now text.now at × (actions.now ≡ action_table) }
    ensures { result ≡ sum_of (named level_limit (symbols_from classes.now text.now at)) }
{
    let mut stack = Stack::new();
    let mut none: [u8; 1] = [0; 1];
    let stopped = run(classes, actions, text, &mut stack, &mut none[..0], at);
    expected_here(&stack, actions, stopped.engine)
}

// What could stand where the reader stops in the body of a message from start up to end, summed; 0 where it does not read it.
pub fn expected(message: &[u8], start: usize, end: usize) -> usize
    ensures { result ≡ expected_in message.now start end }
{
    if let Answer::Refused(_, _) = scanner::scan_body(message, start, end) {
        return 0;
    }
    expected_at_stop(&CLASSES, &ACTIONS, &message[..end], start)
}

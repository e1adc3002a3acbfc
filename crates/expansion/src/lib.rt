// Stored lists opened in place of the Includes of an address list.
//
// One walk over symbols goes on through the stored lists, each of them as if it stood between two commas. No list is copied; the plain
// text of one mailbox at a time is, to compare it with names. An opening calls the walk again, at most 64 deep.
#![tactic(auto)]

ghost use Rattle.std.specs.Prelude.{true, false, ◌≡◌, ◌+◌, ◌*◌, ◌-◌, ◌≤◌, ◌<◌, leb, length, take, ℕ, ◌≢◌, MatchOption, EachIndex, slice_index};
ghost use Rattle.std.proofs.lemmas.List.Edits.{sets};
ghost use Rattle.octets.specs.Believed.Answers.{fault};
ghost use Rattle.octets.specs.Believed.Choice.{both};
ghost use Rattle.octets.specs.Believed.Letters.{same_bytes};
ghost use Rattle.octets.specs.Believed.Numbers.{level_limit, store_record_size};
ghost use Rattle.addresses.specs.Believed.Within.{list_within};
ghost use Rattle.plain.specs.Ties.Writing.{written_limit};
ghost use Rattle.expansion.specs.Believed.Store.{without_zeros, name_in, list_in, lowest as lowest_named};
ghost use Rattle.expansion.specs.Ties.Steps.{place_of, levels_around, joined_stage, stopped_at, WriteOnIs, fault_in, VerdictIs, RecordReady, RecordWalked, WalkReady, TextWalked, BodyWalked, ListExpanded};
ghost use Rattle.expansion.specs.Believed.Outcome.{AnsweredBy, expand_outcome};
ghost use Rattle.expansion.specs.Believed.Promises.{Promises};

mod levels;
mod text;

use levels::Levels;
use octets::answers::{Answer, Fault};
use octets::classes::CLASSES;
use octets::numbers::{
    LEADS_NOWHERE, LEVEL_LIMIT, OPENING_LIMIT, STORE_NAME_SIZE, STORE_RECORD_SIZE, TOO_MANY_LEVELS,
    TOO_MANY_OPENINGS,
};
use plain::places::Place;
use scanner::{Next, Symbol};
use text::Text;

// ---- the store

// The last byte that is no zero, if there is one.
fn last_other(name: &[u8]) -> Option<usize>
    ensures { MatchOption result (EachIndex name.now (λ k. slice_index name.now k ≡ 0)) (λ i. (i < length name.now) × (slice_index name.now i ≢ 0) × ((k : ℕ) → i < k → k < length name.now → slice_index name.now k ≡ 0)) }
{
    name.iter().rposition(|&b| b != 0)
}

// The length of a name without the zeros at its end.
fn name_length(name: &[u8]) -> usize
    ensures { (take result name.now ≡ without_zeros name.now) × (result ≤ length name.now) }
{
    last_other(name).map_or(0, |last| last + 1)
}

// Whether a record has a name. Most records differ early, so the zeros at the end are looked at last.
fn has_name(store: &[u8], i: usize, name: &[u8]) -> bool
    requires { i * store_record_size + store_record_size ≤ length store.now }
    ensures { result ≡ same_bytes (name_in store.now i) name.now }
{
    let at = i * STORE_RECORD_SIZE;
    let whole = &store[at..at + STORE_NAME_SIZE];
    if STORE_NAME_SIZE < name.len() {
        return false;
    }
    // With "starts_with" a look-up takes 2.5 times the instructions.
    octets::letters::same_bytes(&whole[..name.len()], name) && name_length(whole) == name.len()
}

// The lowest record with a name.
fn lowest(store: &[u8], name: &[u8]) -> Option<usize>
    ensures { result ≡ lowest_named store.now name.now }
{
    for i in 0..store.len() / STORE_RECORD_SIZE {
        if has_name(store, i, name) {
            return Some(i);
        }
    }
    None
}

// The list of a record, whole.
fn list_in(store: &[u8], i: usize) -> &[u8]
    requires { i * store_record_size + store_record_size ≤ length store.now }
    ensures { result.now ≡ list_in store.now i }
{
    let at = i * STORE_RECORD_SIZE;
    &store[at + STORE_NAME_SIZE..at + STORE_RECORD_SIZE]
}

// ---- openings

// Where an Include stands: the position in the body that counts for it, and the levels open around it.
#[derive(Clone, Copy)]
struct Spot {
    position: usize,
    depth: usize,
}

impl Spot {
    // A fault that is counted as the Include's.
    fn fault(self, number: u8) -> Fault
        ensures { result ≡ fault number self.position }
    {
        Fault {
            number,
            position: self.position,
        }
    }
}

// Whether a text is, whole, an address list whose levels and so many around it are at most 64 together.
fn fits_around(list: &[u8], depth: usize) -> bool
    ensures { result ≡ both (leb depth level_limit) (list_within (level_limit - depth) list.now) }
{
    if LEVEL_LIMIT < depth {
        return false;
    }
    addresses::is_list_within(list, LEVEL_LIMIT - depth)
}

// The fault of a record's list that does not fit: its own number with the record's; or 10.
fn fault_of(list: &[u8], i: usize, spot: Spot) -> Fault
    ensures { result ≡ fault_in list.now i spot.position }
{
    let mut none: [u8; 1] = [0; 1];
    match addresses::read_addresses(list, 0, list.len(), &mut none[..0]) {
        Answer::Refused(number, _) => Fault {
            number,
            position: i,
        },
        _ => spot.fault(TOO_MANY_LEVELS),
    }
}

// Whether a record can be opened in place of an Include, after so many openings.
fn verdict_on(store: &[u8], i: usize, spot: Spot, openings: usize) -> Result<(), Fault>
    requires { i * store_record_size + store_record_size ≤ length store.now }
    ensures { VerdictIs store.now i spot.position spot.depth openings result }
{
    if OPENING_LIMIT <= openings {
        return Err(spot.fault(TOO_MANY_OPENINGS));
    }
    let list = list_in(store, i);
    if fits_around(list, spot.depth) {
        return Ok(());
    }
    Err(fault_of(list, i, spot))
}

// ---- the walk

// Where an Include stands which starts at a position of a text, with these levels open in that text. The text is the body, or the list
// of an Include that stands at a spot.
fn spot_of(around: Option<Spot>, start: usize, levels: Levels) -> Spot
    requires { levels_around around ≤ level_limit }
    ensures { (result.position ≡ place_of around start) × (result.depth ≡ levels_around around + levels.many) }
{
    match around {
        None => Spot {
            position: start,
            depth: levels.many,
        },
        Some(spot) => Spot {
            position: spot.position,
            depth: spot.depth + levels.many,
        },
    }
}

// How far a walk has come: the place in the text that is written, the openings, and the length of that text.
#[derive(Clone, Copy)]
struct Stage {
    place: Place,
    openings: usize,
    written: usize,
}

// Why a walk stopped, and the openings until then.
#[derive(Clone, Copy)]
struct Stopped {
    fault: Fault,
    openings: usize,
}

impl Stage {
    // The stage, as a comma leaves it, with so many openings.
    fn joined(self, openings: usize) -> Self
        ensures { result ≡ joined_stage self openings }
    {
        Stage {
            place: plain::places::after_comma(self.place),
            openings,
            written: self.written,
        }
    }

    // The walk stops here.
    fn stopped(self, fault: Fault) -> Stopped
        ensures { result ≡ stopped_at self fault }
    {
        Stopped {
            fault,
            openings: self.openings,
        }
    }

    // Write a symbol: the stage after it.
    fn write_on(self, text: &Text, symbol: Symbol, colon: bool, out: &mut [u8]) -> Self
        requires { (symbol.start < symbol.end) × (symbol.end ≤ length text.now.bytes.now) × (self.written ≤ written_limit) }
        ensures { WriteOnIs text.now.classes.now text.now.bytes.now symbol.class symbol.start symbol.end colon self out.old out.new result }
    {
        Stage {
            place: plain::places::after(symbol.class, self.place, colon),
            openings: self.openings,
            written: plain::write_symbol(
                text.classes,
                text.bytes,
                symbol,
                self.place,
                colon,
                out,
                self.written,
            ),
        }
    }
}

// Walk the list of a record in place of an Include.
#[cycle(walking)]
fn walk_record(
    text: &Text,
    store: &[u8],
    i: usize,
    spot: Spot,
    stage: Stage,
    out: &mut [u8],
) -> Result<Stage, Stopped>
    requires { RecordReady store.now i stage }
    ensures { RecordWalked store.now i spot.position spot.depth stage out.old out.new result }
{
    verdict_on(store, i, spot, stage.openings).map_err(|fault| stage.stopped(fault))?;
    let list = Text {
        classes: text.classes,
        bytes: list_in(store, i),
    };
    walk(
        &&list,
        store,
        0,
        Some(spot),
        stage.joined(stage.openings + 1),
        out,
    )
}

// Walk a text from a position on: its symbols are written, and the lists of its Includes walked in their places.
#[cycle(walking)]
fn walk(
    text: &Text,
    store: &[u8],
    start: usize,
    around: Option<Spot>,
    stage: Stage,
    out: &mut [u8],
) -> Result<Stage, Stopped>
    requires { WalkReady around stage }
    ensures { TextWalked text.now.classes.now store.now text.now.bytes.now start around stage out.old out.new result }
{
    let mut here = stage;
    let mut levels = Levels::none();
    let mut coming = scanner::next_by(text.classes, text.bytes, start);
    loop {
        let Next::Found(symbol) = coming else {
            return Ok(here.joined(here.openings));
        };
        let place = here.place;
        match text.include_at(symbol, place) {
            None => {
                coming = scanner::next_by(text.classes, text.bytes, symbol.end);
                let colon = plain::is_colon(coming);
                levels = levels.after(symbol.class, place, colon);
                here = here.write_on(text, symbol, colon, out);
            }
            Some(behind) => {
                let spot = spot_of(around, symbol.start, levels);
                let Some(i) = text.leads_to(behind, levels, store) else {
                    return Err(here.stopped(spot.fault(LEADS_NOWHERE)));
                };
                here = walk_record(text, store, i, spot, here, out)?;
                coming = scanner::next_by(text.classes, text.bytes, text.include_end(symbol.end));
            }
        }
    }
}

// ---- the entry point

// Walk the body of a message that ends with the text, from its start on.
fn walk_body(text: &Text, store: &[u8], start: usize, out: &mut [u8]) -> Result<Stage, Stopped>
    ensures { BodyWalked text.now.classes.now store.now text.now.bytes.now start out.old out.new result }
{
    let stage = Stage {
        place: Place::Start,
        openings: 0,
        written: 0,
    };
    walk(text, store, start, None, stage, out)
}

// The answer, and the number of openings.
#[derive(Clone, Copy)]
pub struct Expanded {
    pub answer: Answer,
    pub openings: usize,
}

// A list: a walk on the empty part of the lent text for the answer, and then, if there is room, the walk that writes.
fn expand_list(text: &Text, store: &[u8], start: usize, out: &mut [u8]) -> Expanded
    ensures { ListExpanded text.now.classes.now store.now text.now.bytes.now start out.old out.new result }
{
    match walk_body(text, store, start, &mut out[..0]) {
        Err(Stopped { fault, openings }) => Expanded {
            answer: Answer::Refused(fault.number, fault.position),
            openings,
        },
        Ok(stage) => {
            let needed = stage.written;
            let openings = stage.openings;
            if out.len() < needed {
                return Expanded {
                    answer: Answer::NoRoom(needed),
                    openings,
                };
            }
            let _ = walk_body(text, store, start, out);
            Expanded {
                answer: Answer::Accepted(needed),
                openings,
            }
        }
    }
}

// Write plainly the address list in the body of a message from start up to end, with the lists of a store in place of its Includes.
pub fn expand(message: &[u8], start: usize, end: usize, store: &[u8], text: &mut [u8]) -> Expanded
    ensures outcome { AnsweredBy (expand_outcome message.now start end store.now text.old) result text.new }
    ensures promises { Promises message.now start end store.now text.old result text.new }
{
    match addresses::read_addresses(message, start, end, &mut text[..0]) {
        Answer::Refused(number, position) => Expanded {
            answer: Answer::Refused(number, position),
            openings: 0,
        },
        _ => {
            let body = Text {
                classes: &CLASSES,
                bytes: &message[..end],
            };
            expand_list(&body, store, start, text)
        }
    }
}

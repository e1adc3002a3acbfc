// The libraries for C: lent memory is a pointer with a length, and answers are numbers. Each function refuses as the library does.
//
// `told` is an array of three: an answer's number, position and count; of four for an expansion, of five for a touched byte, of seven for a symbol. Of a shorter one the front is filled.
#![tactic(auto)]

ghost use Rattle.std.specs.Prelude.{◌≡◌, ◌∷◌, []};
ghost use Rattle.std.proofs.lemmas.List.Edits.{sets};
ghost use Rattle.octets.specs.Believed.Choice.{pick};
ghost use Rattle.scanner.specs.Believed.Answers.{body_scanned, next_in_body};
ghost use Rattle.header.specs.Believed.Names.{known_of, known_number, compared_of};
ghost use Rattle.header.specs.Believed.Split.{split_answer, split_table};
ghost use Rattle.addresses.specs.Believed.Outcome.{outcome};
ghost use Rattle.editions.specs.Believed.Outcome.{outcome_of};
ghost use Rattle.dates.specs.Believed.Answers.{value_of};
ghost use Rattle.dates.specs.Believed.Outcome.{date_answer};
ghost use Rattle.plain.specs.Believed.Written.{plain_outcome};
ghost use Rattle.expansion.specs.Believed.Outcome.{expand_outcome};
ghost use Rattle.touch.specs.Believed.Touched.{touched};
ghost use Rattle.capi.specs.Believed.Told.{told_in, expansion_told_in, date_told_in, touch_told_in, class_number, symbol_told_in, reply_number};

use expansion::Expanded;
use octets::answers::Answer;
use octets::stored::store_number;
use scanner::{Class, Next};
use touch::Touched;

// Three numbers at the front of an array.
fn put_three(array: &mut [u64], number: u8, position: usize, count: usize)
    ensures { array.new ≡ sets array.old 0 (number ∷ position ∷ count ∷ []) }
{
    store_number(array, 0, number as u64);
    store_number(array, 1, position as u64);
    store_number(array, 2, count as u64);
}

// A symbol's place, the length of its meaning and whether it stands apart, after three numbers.
fn put_places(array: &mut [u64], start: usize, end: usize, length: usize, apart: bool)
    ensures { array.new ≡ sets array.old 3 (start ∷ end ∷ length ∷ pick apart 1 0 ∷ []) }
{
    store_number(array, 3, start as u64);
    store_number(array, 4, end as u64);
    store_number(array, 5, length as u64);
    store_number(array, 6, apart as u64);
}

// The number, position and count of an answer.
fn tell(array: &mut [u64], answer: Answer)
    ensures { array.new ≡ told_in array.old answer }
{
    let number = octets::answers::number(answer);
    let position = octets::answers::position(answer);
    put_three(array, number, position, octets::answers::count(answer));
}

// The number, position and count of what is answered for a touched byte, then what the byte is and what could have stood there.
fn tell_touched(array: &mut [u64], answer: Touched)
    ensures { array.new ≡ touch_told_in array.old answer }
{
    let number = touch::number(answer);
    let position = touch::position(answer);
    put_three(array, number, position, touch::count(answer));
    store_number(array, 3, touch::category(answer) as u64);
    store_number(array, 4, touch::names(answer) as u64);
}

// The number, position and count of an expansion, then its openings.
fn tell_expanded(array: &mut [u64], expanded: Expanded)
    ensures { array.new ≡ expansion_told_in array.old expanded.answer expanded.openings }
{
    let answer = expanded.answer;
    tell(array, answer);
    store_number(array, 3, expanded.openings as u64);
}

// The number of a class of symbols.
fn class_number(class: Class) -> u8
    ensures { result ≡ class_number class }
{
    match class {
        Class::Atom => 1,
        Class::Quoted => 2,
        Class::At => 3,
        Class::LessThan => 4,
        Class::GreaterThan => 5,
        Class::Comma => 6,
        Class::Semicolon => 7,
        Class::Colon => 8,
        Class::Stray => 9,
        Class::Dot => 9,
        Class::Literal => 9,
    }
}

// The number and position of a fault, then the number of the symbol's class, its start, its end, the length of its meaning and
// whether it stands apart; zeros for what is not there.
fn tell_symbol(array: &mut [u64], next: Next)
    ensures { array.new ≡ symbol_told_in array.old next }
{
    match next {
        Next::Found(symbol) => {
            let class = symbol.class;
            put_three(array, 0, 0, class_number(class) as usize);
            put_places(array, symbol.start, symbol.end, symbol.length, symbol.apart)
        }
        Next::Ended => {
            put_three(array, 0, 0, 0);
            put_places(array, 0, 0, 0, false)
        }
        Next::Fault(number, place) => {
            put_three(array, number, place, 0);
            put_places(array, 0, 0, 0, false)
        }
    }
}

// Split a message into fields: field records in the table.
#[unsafe(no_mangle)]
pub extern "C" fn rfc733_split(message: &[u8], table: &mut [u8], array: &mut [u64])
    ensures { (table.new ≡ split_table message.now table.old) × (array.new ≡ told_in array.old (split_answer message.now table.old)) }
{
    tell(array, header::fields::split(message, table));
}

// Which known field name a name is: 1 Date, 2 From, 3 Reply-To, 4 To, 5 cc, 6 Bcc, 0 any other; and how many of them were compared with it letter by letter.
#[unsafe(no_mangle)]
pub extern "C" fn rfc733_known_name(name: &[u8], compared: &mut u64) -> u32
    ensures { (result ≡ known_number (known_of name.now)) × (compared.new ≡ compared_of name.now) }
{
    let looked_up = header::names::known_name(name);
    let known = looked_up.known;
    *compared = looked_up.compared as u64;
    header::names::known_number(known) as u32
}

// Scan the body of a message from start up to end: accepted, or its first fault.
#[unsafe(no_mangle)]
pub extern "C" fn rfc733_scan(message: &[u8], start: usize, end: usize, array: &mut [u64])
    ensures { array.new ≡ told_in array.old (body_scanned message.now start end) }
{
    tell(array, scanner::scan_body(message, start, end));
}

// The next symbol at or after a position of a message's body that ends at end.
#[unsafe(no_mangle)]
pub extern "C" fn rfc733_next_symbol(message: &[u8], at: usize, end: usize, array: &mut [u64])
    ensures { array.new ≡ symbol_told_in array.old (next_in_body message.now at end) }
{
    tell_symbol(array, scanner::next_symbol(message, at, end));
}

// Read the address list in the body of a message from start up to end by the rules of an edition, 733 or 822: address records in the table.
#[unsafe(no_mangle)]
pub extern "C" fn rfc733_addresses(
    message: &[u8],
    start: usize,
    end: usize,
    edition: usize,
    table: &mut [u8],
    array: &mut [u64],
)
    ensures { (table.new ≡ (outcome_of edition message.now start end table.old).table) × (array.new ≡ told_in array.old (outcome_of edition message.now start end table.old).answer) }
{
    tell(
        array,
        editions::read_addresses(message, start, end, edition, table),
    );
}

// The address list of RFC 733 by the second reader, which calls itself nowhere and keeps its levels in an array.
#[unsafe(no_mangle)]
pub extern "C" fn rfc733_addresses_by_table(
    message: &[u8],
    start: usize,
    end: usize,
    table: &mut [u8],
    array: &mut [u64],
)
    ensures { (table.new ≡ (outcome message.now start end table.old).table) × (array.new ≡ told_in array.old (outcome message.now start end table.old).answer) }
{
    tell(array, engine::read_addresses(message, start, end, table));
}

// Touch a place of the body of a message from start up to end: what the byte is, and the records around it in the path.
#[unsafe(no_mangle)]
pub extern "C" fn rfc733_touch(
    message: &[u8],
    start: usize,
    end: usize,
    place: usize,
    path: &mut [u64],
    array: &mut [u64],
)
    ensures { (path.new ≡ (touched message.now start end place path.old).path) × (array.new ≡ touch_told_in array.old (touched message.now start end place path.old).answer) }
{
    tell_touched(array, touch::touch(message, start, end, place, path));
}

// Read the date in the body of a message from start up to end: seconds from 1 January 1900, 00:00 GMT, and 0 with a refusal.
#[unsafe(no_mangle)]
pub extern "C" fn rfc733_date(
    message: &[u8],
    start: usize,
    end: usize,
    array: &mut [u64],
    value: &mut i64,
)
    ensures { (array.new ≡ date_told_in array.old (date_answer message.now start end)) × (value.new ≡ value_of (date_answer message.now start end)) }
{
    let answer = dates::read_date(message, start, end);
    put_three(
        array,
        dates::number(answer),
        dates::position(answer),
        dates::count(answer),
    );
    *value = dates::value(answer);
}

// Write plainly the address list in the body of a message from start up to end.
#[unsafe(no_mangle)]
pub extern "C" fn rfc733_plain(
    message: &[u8],
    start: usize,
    end: usize,
    text: &mut [u8],
    array: &mut [u64],
)
    ensures { (text.new ≡ (plain_outcome message.now start end text.old).table) × (array.new ≡ told_in array.old (plain_outcome message.now start end text.old).answer) }
{
    tell(array, plain::write_plain(message, start, end, text));
}

// Write plainly the address list in the body of a message from start up to end, with the lists of a store in place of its Includes.
#[unsafe(no_mangle)]
pub extern "C" fn rfc733_expand(
    message: &[u8],
    start: usize,
    end: usize,
    store: &[u8],
    text: &mut [u8],
    array: &mut [u64],
)
    ensures { (text.new ≡ (expand_outcome message.now start end store.now text.old).text) × (array.new ≡ expansion_told_in array.old (expand_outcome message.now start end store.now text.old).answer (expand_outcome message.now start end store.now text.old).openings) }
{
    tell_expanded(array, expansion::expand(message, start, end, store, text));
}

// Which of two bodies to reply to: 0 for Reply-To's, 1 for From's.
#[unsafe(no_mangle)]
pub extern "C" fn rfc733_reply(reply: &[u8], from: &[u8]) -> u32
    ensures { result ≡ reply_number reply.now }
{
    if reply::left_for_from(reply) { 1 } else { 0 }
}

// Splitting a message into its header fields.
ghost use Rattle.std.specs.Prelude.{◌≡◌, ◌+◌, ◌*◌, ◌≤◌, ◌<◌, length, drop};
ghost use Rattle.std.proofs.lemmas.List.Edits.{sets};
ghost use Rattle.octets.specs.Believed.Answers.{Answered, fault as fault_at};
ghost use Rattle.octets.specs.Believed.Numbers.{message_limit};
ghost use Rattle.records.specs.Believed.FieldRecords.{field_record_size, field_table};
ghost use Rattle.header.specs.Believed.Fields.{name_holds, name_starts_with, ends_body, line_start, in_name, in_body, fields_of, header_at, header_of};
ghost use Rattle.header.specs.Believed.Split.{split_answer, split_table};
ghost use Rattle.header.specs.Ties.Steps.{first_of, given, count_in, plain, GoesOn, staged_fields};

use octets::answers::{Answer, Fault};
use octets::lines::{is_crlf, is_white};
use octets::numbers::{
    BYTE_ABOVE_127, HEADER_NOT_ENDED, MESSAGE_LIMIT, MESSAGE_TOO_LONG, NAME_FAULT,
};
use octets::writing::copy_front;
use records::Span;
use records::field::{FIELD_RECORD_SIZE, FieldRecord, store};

// A fault at a position, by its number.
fn fault(number: u8, position: usize) -> Fault
    ensures { result ≡ fault_at number position }
{
    Fault { number, position }
}

// Whether a name may hold a byte.
#[tactic(auto, unfolding(crate::specs::Believed::Fields::name_holds))]
fn name_holds(b: u8) -> bool
    ensures { result ≡ name_holds b }
{
    is_white(b) || matches!(b, 33..=126) && b != b':'
}

// Whether a name may start with a byte.
#[tactic(auto, unfolding(crate::specs::Believed::Fields::name_starts_with))]
fn name_starts_with(b: u8) -> bool
    ensures { result ≡ name_starts_with b }
{
    name_holds(b) && !is_white(b)
}

// Whether CR and LF stand there that SPACE or HTAB does not follow.
#[tactic(auto, using(std::proofs::lemmas::Option::gets), unfolding(crate::specs::Believed::Fields::ends_body, crate::specs::Believed::Fields::crlf))]
fn ends_body(message: &[u8], at: usize) -> bool
    requires { at < length message.now }
    ensures { result ≡ ends_body (drop at message.now) }
{
    is_crlf(message, at) && !message.get(at + 2).is_some_and(|b| is_white(*b))
}

// Whether a byte is plain: it neither ends a body nor is a fault in it.
fn is_plain(b: u8) -> bool
    ensures { result ≡ plain b }
{
    matches!(b, 14..=127)
}

// The first byte at or after a position that is not plain, one by one.
fn past_last(message: &[u8], at: usize) -> usize
    requires { at ≤ length message.now }
    ensures { GoesOn message.now at result }
{
    for p in at..message.len() {
        if !is_plain(message[p]) {
            return p;
        }
    }
    message.len()
}

// .. by fours: one by one takes twice the instructions. Each byte is looked at once, for bodies of many folds stop often. With a
// slice pattern in place of indices these take a tenth more instructions (callgrind).
fn past_plain(message: &[u8], at: usize) -> usize
    requires { at ≤ length message.now }
    ensures { GoesOn message.now at result }
{
    let mut p = at;
    while 4 <= message.len() - p {
        if !is_plain(message[p]) {
            return p;
        }
        if !is_plain(message[p + 1]) {
            return p + 1;
        }
        if !is_plain(message[p + 2]) {
            return p + 2;
        }
        if !is_plain(message[p + 3]) {
            return p + 3;
        }
        p += 4;
    }
    past_last(message, p)
}

// The field whose body starts at a position.
fn body_rest(message: &[u8], name: Span, start: usize) -> Result<FieldRecord, Fault>
    requires { start ≤ length message.now }
    ensures { given result ≡ first_of (header_at message.now start (in_body name.start name.end start)) }
{
    // one call of `past_plain`, for it is inlined
    let mut from = start;
    loop {
        let end = past_plain(message, from);
        if message.len() <= end {
            return Err(fault(HEADER_NOT_ENDED, end));
        }
        if 127 < message[end] {
            return Err(fault(BYTE_ABOVE_127, end));
        }
        if ends_body(message, end) {
            let body = Span { start, end };
            return Ok(FieldRecord { name, body });
        }
        from = end + 1;
    }
}

// The field whose name starts at a position.
fn name_rest(message: &[u8], start: usize) -> Result<FieldRecord, Fault>
    requires { start < length message.now }
    ensures { given result ≡ first_of (header_at message.now (start + 1) (in_name start (start + 1))) }
{
    let mut end = start + 1;
    for at in start + 1..message.len() {
        let b = message[at];
        if b == b':' {
            return body_rest(message, Span { start, end }, at + 1);
        }
        if !name_holds(b) {
            return Err(fault(NAME_FAULT, at));
        }
        if !is_white(b) {
            end = at + 1;
        }
    }
    Err(fault(HEADER_NOT_ENDED, message.len()))
}

// The field at a line start; none at the header's end.
fn next_field(message: &[u8], at: usize) -> Result<Option<FieldRecord>, Fault>
    requires { at ≤ length message.now }
    ensures { result ≡ first_of (header_at message.now at line_start) }
{
    if message.len() <= at || is_crlf(message, at) {
        return Ok(None);
    }
    if !name_starts_with(message[at]) {
        return Err(fault(NAME_FAULT, at));
    }
    let field = name_rest(message, at)?;
    Ok(Some(field))
}

// Store the records of the fields up to the header's end or its fault, and count them.
fn store_fields(message: &[u8], table: &mut [u8]) -> Result<usize, Fault>
    requires { length message.now ≤ message_limit }
    ensures many { result ≡ count_in 0 (header_of message.now) }
    ensures stored { table.new ≡ sets table.old 0 (field_table (fields_of (header_of message.now))) }
{
    let mut at: usize = 0;
    let mut count: usize = 0;
    while let Some(field) = next_field(message, at)? {
        store(table, count, field);
        count += 1;
        at = field.body.end + 2;
    }
    Ok(count)
}

// The fields whose records are stored beside the table first, and the bytes of these records.
const STAGED_FIELDS: usize = 256;

const STAGED_SIZE: usize = STAGED_FIELDS * FIELD_RECORD_SIZE;

// Room for them.
fn staged_room() -> [u8; STAGED_SIZE]
    ensures { staged_fields * field_record_size ≡ length result }
{
    [0; STAGED_SIZE]
}

// Split a message into its fields, and store their records in the table.
pub fn split(message: &[u8], table: &mut [u8]) -> Answer
    ensures outcome { Answered (split_answer message.now table.old) (split_table message.now table.old) result table.new }
{
    if MESSAGE_LIMIT < message.len() {
        return Answer::Refused(MESSAGE_TOO_LONG, MESSAGE_LIMIT);
    }
    let room = table.len() / FIELD_RECORD_SIZE;
    let mut staged = staged_room();
    match store_fields(message, &mut staged) {
        Ok(many) if room < many => Answer::NoRoom(many),
        Ok(many) => {
            if many <= STAGED_FIELDS {
                copy_front(table, &staged, many * FIELD_RECORD_SIZE);
            } else {
                let _ = store_fields(message, table);
            }
            Answer::Accepted(many)
        }
        Err(fault) => Answer::Refused(fault.number, fault.position),
    }
}

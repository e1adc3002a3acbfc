// What the program of an edition prints for a message, as one text.
//
// The lent part is a window on the text: of each byte put, its place in the text is counted, and it is stored if it lies in the window.
#![tactic(auto)]

ghost use Rattle.std.specs.Prelude.{◌≡◌, ◌∷◌, ◌++◌, ◌+◌, ◌≤◌, ◌<◌, length, drop};
ghost use Rattle.std.proofs.lemmas.List.Edits.{sets};
ghost use Rattle.octets.specs.Believed.Numbers.{table_records};
ghost use Rattle.records.specs.Believed.AddressRecords.{record_in};
ghost use Rattle.records.specs.Believed.FieldRecords.{field_in};
ghost use Rattle.octets.specs.Ties.Writing.{count_limit, WroteBy, in_window};
ghost use Rattle.listing.specs.Believed.Lines.{decimal, signed as signed_text, address_line, refused_line};
ghost use Rattle.listing.specs.Believed.Listing.{each, address_body, date_text, body as body_text, field_text, header_text, listing};
ghost use Rattle.listing.specs.Ties.Putting.{line_limit, body_limit, field_limit, tabulate, number as number_text, four, Named, AllNamed, Fits};
ghost use Rattle.dates.specs.Believed.Outcome.{date_answer};

use dates::read_date;
use editions::read_addresses;
use header::fields::split;
use header::names::{Known, holds_addresses, known_name};
use octets::answers::Answer;
use octets::numbers::{TABLE_RECORDS, TOO_LITTLE_ROOM};
use octets::writing::{store_byte_in, store_bytes_in};
use records::address::ADDRESS_RECORD_SIZE;
use records::field::FIELD_RECORD_SIZE;

pub mod printing;
pub mod reading;

// The bytes of a table of field records, and of one of address records.
const FIELD_TABLE_SIZE: usize = TABLE_RECORDS * FIELD_RECORD_SIZE;

const ADDRESS_TABLE_SIZE: usize = TABLE_RECORDS * ADDRESS_RECORD_SIZE;

// One byte of the text, at its place in it.
fn put(from: usize, out: &mut [u8], n: usize, b: u8) -> usize
    requires { n < count_limit }
    ensures { WroteBy (in_window from) (λ rest. b ∷ rest) out.old n out.new result × (result ≡ n + 1) }
{
    store_byte_in(from, out, n, b);
    n + 1
}

// The bytes of a text.
fn put_bytes(text: &[u8], from: usize, out: &mut [u8], n: usize) -> usize
    requires { n + length text.now ≤ count_limit }
    ensures { WroteBy (in_window from) (λ rest. text.now ++ rest) out.old n out.new result × (result ≡ n + length text.now) }
{
    store_bytes_in(from, out, n, text);
    n + text.len()
}

// A number.
fn put_decimal(x: u64, from: usize, out: &mut [u8], n: usize) -> usize
    requires { n + 20 ≤ count_limit }
    ensures { WroteBy (in_window from) (decimal x) out.old n out.new result × (result ≤ n + 20) }
{
    let mut digits = [0; 20];
    let k = io::decimal(x, &mut digits);
    put_bytes(&digits[..k], from, out, n)
}

// A number, with "-" before it where it is below 0.
fn put_signed(x: i64, from: usize, out: &mut [u8], n: usize) -> usize
    requires { n + 21 ≤ count_limit }
    ensures { WroteBy (in_window from) (signed_text x) out.old n out.new result × (result ≤ n + 21) }
{
    if x < 0 {
        let m = put(from, out, n, b'-');
        return put_decimal(((-1) - x) as u64 + 1, from, out, m);
    }
    put_decimal(x as u64, from, out, n)
}

// A number after one SPACE.
fn put_number(x: usize, from: usize, out: &mut [u8], n: usize) -> usize
    requires { n + 21 ≤ count_limit }
    ensures { WroteBy (in_window from) (number_text x) out.old n out.new result × (result ≤ n + 21) }
{
    let m = put(from, out, n, b' ');
    put_decimal(x as u64, from, out, m)
}

// Four numbers.
fn put_four(w: usize, x: usize, y: usize, z: usize, from: usize, out: &mut [u8], n: usize) -> usize
    requires { n + 84 ≤ count_limit }
    ensures { WroteBy (in_window from) (four w x y z) out.old n out.new result × (result ≤ n + 84) }
{
    let a = put_number(w, from, out, n);
    let b = put_number(x, from, out, a);
    let c = put_number(y, from, out, b);
    put_number(z, from, out, c)
}

// The line of a refusal.
fn put_refused(number: u8, position: usize, from: usize, out: &mut [u8], n: usize) -> usize
    requires { n + line_limit ≤ count_limit }
    ensures { WroteBy (in_window from) (refused_line number position) out.old n out.new result × (result ≤ n + line_limit) }
{
    let a = put_bytes(b"refused", from, out, n);
    let b = put_number(number as usize, from, out, a);
    let c = put_number(position, from, out, b);
    put(from, out, c, b'\n')
}

// The line of an address record of a table.
fn put_address(table: &[u8], i: usize, from: usize, out: &mut [u8], n: usize) -> usize
    requires { n + line_limit ≤ count_limit }
    ensures { WroteBy (in_window from) (address_line (record_in table.now i)) out.old n out.new result × (result ≤ n + line_limit) }
{
    let address = records::address::load(table, i);
    let a = put_bytes(b"address", from, out, n);
    let b = put_number(address.kind as usize, from, out, a);
    let c = put_number(address.depth as usize, from, out, b);
    let d = put_number(address.parent, from, out, c);
    let e = put_four(
        address.start,
        address.end,
        address.name.start,
        address.name.end,
        from,
        out,
        d,
    );
    put(from, out, e, b'\n')
}

// The lines of the first address records of a table.
fn put_addresses(table: &[u8], many: usize, from: usize, out: &mut [u8], n: usize) -> usize
    requires { (many ≤ table_records) × (n + body_limit ≤ count_limit) }
    ensures { WroteBy (in_window from) (each address_line (tabulate (record_in table.now) many 0)) out.old n out.new result × (result ≤ n + body_limit) }
{
    let mut m = n;
    for i in 0..many {
        m = put_address(table, i, from, out, m);
    }
    m
}

// The lines of a body that holds an address list.
fn put_address_body(
    message: &[u8],
    edition: usize,
    start: usize,
    end: usize,
    from: usize,
    out: &mut [u8],
    n: usize,
) -> usize
    requires { n + body_limit ≤ count_limit }
    ensures { WroteBy (in_window from) (address_body edition message.now start end) out.old n out.new result × (result ≤ n + body_limit) }
{
    let mut table = [0; ADDRESS_TABLE_SIZE];
    match read_addresses(message, start, end, edition, &mut table) {
        Answer::Accepted(many) => put_addresses(&table, many, from, out, n),
        Answer::Refused(number, position) => put_refused(number, position, from, out, n),
        Answer::NoRoom(_) => put_refused(TOO_LITTLE_ROOM, 0, from, out, n),
    }
}

// The line of a body that holds a date.
fn put_date_body(
    message: &[u8],
    start: usize,
    end: usize,
    from: usize,
    out: &mut [u8],
    n: usize,
) -> usize
    requires { n + line_limit ≤ count_limit }
    ensures { WroteBy (in_window from) (date_text (date_answer message.now start end)) out.old n out.new result × (result ≤ n + line_limit) }
{
    match read_date(message, start, end) {
        Ok(seconds) => {
            let a = put_bytes(b"date ", from, out, n);
            let b = put_signed(seconds, from, out, a);
            put(from, out, b, b'\n')
        }
        Err(fault) => put_refused(fault.number, fault.position, from, out, n),
    }
}

// The lines of a body, by the name of its field.
fn put_body(
    message: &[u8],
    edition: usize,
    known: Known,
    start: usize,
    end: usize,
    from: usize,
    out: &mut [u8],
    n: usize,
) -> usize
    requires { n + body_limit ≤ count_limit }
    ensures { WroteBy (in_window from) (body_text edition known message.now start end) out.old n out.new result × (result ≤ n + body_limit) }
{
    if holds_addresses(known) {
        return put_address_body(message, edition, start, end, from, out, n);
    }
    match known {
        Known::Date => put_date_body(message, start, end, from, out, n),
        _ => n,
    }
}

// The line of a field record of a table, and the lines of its body.
fn put_field(
    message: &[u8],
    edition: usize,
    fields: &[u8],
    i: usize,
    from: usize,
    out: &mut [u8],
    n: usize,
) -> usize
    requires { Named message.now (field_in fields.now i) × (n + field_limit ≤ count_limit) }
    ensures { WroteBy (in_window from) (field_text edition message.now (field_in fields.now i)) out.old n out.new result × (result ≤ n + field_limit) }
{
    let field = records::field::load(fields, i);
    let a = put_bytes(b"field", from, out, n);
    let (name, body) = (field.name, field.body);
    let b = put_four(name.start, name.end, body.start, body.end, from, out, a);
    let c = put(from, out, b, b'\n');
    let known = known_name(&message[name.start..name.end]).known;
    put_body(message, edition, known, body.start, body.end, from, out, c)
}

// The lines of the first field records of a table, each with those of its body.
fn put_fields(
    message: &[u8],
    edition: usize,
    fields: &[u8],
    many: usize,
    from: usize,
    out: &mut [u8],
) -> usize
    requires { (many ≤ table_records) × AllNamed message.now fields.now many }
    ensures { WroteBy (in_window from) (each (field_text edition message.now) (tabulate (field_in fields.now) many 0)) out.old 0 out.new result }
{
    let mut m: usize = 0;
    for i in 0..many {
        m = put_field(message, edition, fields, i, from, out, m);
    }
    m
}

// The lines of a header with this answer.
fn put_header(
    message: &[u8],
    edition: usize,
    fields: &[u8],
    answer: Answer,
    from: usize,
    out: &mut [u8],
) -> usize
    requires { Fits message.now fields.now answer }
    ensures { (result ≡ length (header_text edition message.now answer)) × (out.new ≡ sets out.old 0 (drop from (header_text edition message.now answer))) }
{
    match answer {
        Answer::Accepted(many) => put_fields(message, edition, fields, many, from, out),
        Answer::Refused(number, position) => put_refused(number, position, from, out, 0),
        Answer::NoRoom(_) => put_refused(TOO_LITTLE_ROOM, 0, from, out, 0),
    }
}

// Write what the program of an edition, 733 or 822, prints for a message, from a position of that text on and as much as there is room for.
// The answer is the length of the whole text.
pub fn write_listing(message: &[u8], edition: usize, from: usize, text: &mut [u8]) -> usize
    ensures { (result ≡ length (listing edition message.now)) × (text.new ≡ sets text.old 0 (drop from (listing edition message.now))) }
{
    let mut fields = [0; FIELD_TABLE_SIZE];
    let answer = split(message, &mut fields);
    put_header(message, edition, &fields, answer, from, text)
}

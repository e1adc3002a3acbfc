// Runs a vector, and puts what it gives into a lent text.
//
// A line of vectors: a word whose first letter tells what is run, numbers after marks, "|" and a message; where a second text
// is needed, "|" and that text. "<" start and ">" end of the body, otherwise the whole message; "/" room in bytes or numbers;
// "=" edition; "@" place. In a message "~" stands for CR, "^" for LF, "$" for a zero, "{255}" for the byte of that number, and
// "{64*<}" for 64 times "<". The words:
// - addresses, by-table, edition: the first reader, the second, and the one of an edition
// - fields, plain, open: splitting, plain writing, and writing with the lists of the store, which "lists" has put there
// - scan, known, reply, date, touch: symbols, known name, body to reply to, date, touched byte
// - compare: both plain texts; unfit: whether a list is refused by 8 at the place
// Any other line is a heading.
#![tactic(auto)]

ghost use Rattle.std.specs.Prelude.{◌≡◌, false, ◌∷◌, [], ◌++◌, ◌+◌, ◌*◌, ◌%◌, ◌≤◌, ◌<◌, length, take, drop, replicate};
ghost use Rattle.reply.specs.Believed.Reply.{left_for_from};
ghost use Rattle.listing.specs.Believed.Lines.{decimal, spaced};
ghost use Rattle.octets.specs.Believed.Choice.{pick};
ghost use Rattle.octets.specs.Believed.Classes.{is_digit};
ghost use Rattle.vectors.specs.Believed.Putting.{text as text_of, next as next_of, putting};
ghost use Rattle.vectors.specs.Believed.Reading.{before, behind as behind_of, digits_from, asked as asked_of, meant as meant_of, copied, times, braced, piece, stays, decoded, start_of, end_of};
ghost use Rattle.vectors.specs.Believed.Answers.{line as line_of, bracketed, answer_line, value_line, untouched_byte, untouched_number, written as written_of, row_line, rows, front_text, counted, untouched, kept_note, given, refuses_at, mark_of, symbols};
ghost use Rattle.vectors.specs.Believed.Vectors.{read_text, known_text, date_text, chosen_text, scan_text, touch_text, open_text, compare_text, unfit_text, vector_text, vector_with, parts_text, answer_of, kept_lists};
ghost use Rattle.records.specs.Believed.AddressRecords.{address_record_size};
ghost use Rattle.records.specs.Believed.FieldRecords.{field_record_size};
ghost use Rattle.vectors.specs.Ties.Puts.{Puts, shown_limit};

use dates::read_date;
use header::fields::split;
use header::names::{holds_addresses, known_name, known_number};
use octets::answers::{Answer, count, number, position};
use octets::letters::same_bytes;
use octets::numbers::NO_LIST_GOES_ON;
use octets::stored::{load_byte, store_byte};
use plain::write_plain;
use records::address::ADDRESS_RECORD_SIZE;
use records::field::FIELD_RECORD_SIZE;
use reply::reply_body;
use scanner::{Class, Next, next_symbol, scan_body};

// What stands in a room when it is lent.
const UNTOUCHED: u8 = 170;

// ---- texts

// The place after a byte, which stays at the end of a part.
fn next(out: &[u8], n: usize) -> usize
    ensures { result ≡ next_of out.now n }
{
    if n < out.len() { n + 1 } else { n }
}

// One byte, if there is room.
fn put(out: &mut [u8], n: usize, b: u8) -> usize
    ensures { Puts (λ rest. b ∷ rest) out.old n out.new result }
{
    let m = next(out, n);
    store_byte(out, n, b);
    m
}

// What a byte of a message stands for.
fn meant(b: u8) -> u8
    ensures { result ≡ meant_of b }
{
    if b == b'~' {
        return b'\r';
    }
    if b == b'^' {
        return b'\n';
    }
    if b == b'$' {
        return 0;
    }
    b
}

// A byte as it stands, or what it stands for.
fn taken(coded: bool, b: u8) -> u8
    ensures { result ≡ pick coded (meant_of b) b }
{
    if coded {
        return meant(b);
    }
    b
}

// Each byte of a text as it stands, or what it stands for.
fn put_copied(coded: bool, text: &[u8], out: &mut [u8], n: usize) -> usize
    ensures { Puts (copied coded text.now) out.old n out.new result }
{
    let mut i: usize = 0;
    let mut m = n;
    while i < text.len() {
        m = put(out, m, taken(coded, text[i]));
        i += 1;
    }
    m
}

// The bytes of a text.
fn put_bytes(text: &[u8], out: &mut [u8], n: usize) -> usize
    ensures { Puts (λ rest. text.now ++ rest) out.old n out.new result }
{
    put_copied(false, text, out, n)
}

// A number.
fn put_decimal(x: u64, out: &mut [u8], n: usize) -> usize
    ensures { Puts (decimal x) out.old n out.new result }
{
    let mut digits: [u8; 20] = [0; 20];
    let k = io::decimal(x, &mut digits);
    put_bytes(&digits[..k], out, n)
}

// Each number after one SPACE.
fn put_numbers(numbers: &[u64], out: &mut [u8], n: usize) -> usize
    ensures { Puts (spaced numbers.now) out.old n out.new result }
{
    let mut i: usize = 0;
    let mut m = n;
    while i < numbers.len() {
        let p = put(out, m, b' ');
        m = put_decimal(numbers[i], out, p);
        i += 1;
    }
    m
}

// A line: a mark and numbers.
fn put_line(mark: u8, numbers: &[u64], out: &mut [u8], n: usize) -> usize
    ensures { Puts (line_of mark numbers.now) out.old n out.new result }
{
    let a = put(out, n, b' ');
    let b = put(out, a, b' ');
    let c = put(out, b, mark);
    let d = put_numbers(numbers, out, c);
    put(out, d, b'\n')
}

// A line: a text in brackets.
fn put_bracketed(text: &[u8], out: &mut [u8], n: usize) -> usize
    ensures { Puts (bracketed text.now) out.old n out.new result }
{
    let a = put_bytes(b"  [", out, n);
    let b = put_bytes(text, out, a);
    put_bytes(b"]\n", out, b)
}

// ---- what a line says

// The place of the first such mark, and the place after it; without one, both are the end.
#[derive(Clone, Copy)]
struct Seam {
    at: usize,
    past: usize,
}

// Cut a text at the first such mark.
fn cut(text: &[u8], mark: u8) -> Seam
    ensures { (take result.at text.now ≡ before mark text.now) × (drop result.past text.now ≡ behind_of mark text.now) × (result.at ≤ length text.now) × (result.past ≤ length text.now) }
{
    let mut i: usize = 0;
    while i < text.len() {
        if text[i] == mark {
            return Seam { at: i, past: i + 1 };
        }
        i += 1;
    }
    Seam { at: i, past: i }
}

// Whether a byte is a digit.
fn is_digit(b: u8) -> bool
    ensures { result ≡ is_digit b }
{
    if b < b'0' {
        return false;
    }
    b <= b'9'
}

// The number whose digits stand at the front of a text, or its last nineteen digits.
fn digits(text: &[u8]) -> usize
    ensures { result ≡ digits_from 0 text.now }
{
    let mut i: usize = 0;
    let mut n: usize = 0;
    while i < text.len() {
        let b = text[i];
        if !is_digit(b) {
            return n;
        }
        n = n % 1000000000000000000 * 10 + (b - b'0') as usize;
        i += 1;
    }
    n
}

// The number after a mark.
fn asked(head: &[u8], mark: u8, otherwise: usize) -> usize
    ensures { result ≡ asked_of mark otherwise head.now }
{
    let seam = cut(head, mark);
    let past = seam.past;
    if seam.at < head.len() {
        return digits(&head[past..]);
    }
    otherwise
}

// A text so many times.
fn put_times(many: usize, text: &[u8], out: &mut [u8], n: usize) -> usize
    ensures { Puts (times many text.now) out.old n out.new result }
{
    let mut i: usize = 0;
    let mut m = n;
    while i < many {
        m = put_copied(true, text, out, m);
        i += 1;
    }
    m
}

// What stands in braces.
fn put_braced(inner: &[u8], out: &mut [u8], n: usize) -> usize
    ensures { Puts (braced inner.now) out.old n out.new result }
{
    let many = digits(inner);
    let seam = cut(inner, b'*');
    let past = seam.past;
    if seam.at < inner.len() {
        return put_times(many, &inner[past..], out, n);
    }
    put(out, n, (many % 256) as u8)
}

// What stands for bytes at a byte of a message, before a text: nothing inside of braces.
fn put_piece(inside: bool, b: u8, text: &[u8], out: &mut [u8], n: usize) -> usize
    ensures { Puts (piece inside b text.now) out.old n out.new result }
{
    if inside {
        return n;
    }
    if b == b'{' {
        let seam = cut(text, b'}');
        let at = seam.at;
        return put_braced(&text[..at], out, n);
    }
    put(out, n, meant(b))
}

// Whether what follows a byte is inside of braces.
fn is_inside(inside: bool, b: u8) -> bool
    ensures { result ≡ stays inside b }
{
    if inside {
        return b != b'}';
    }
    b == b'{'
}

// The bytes that a text stands for.
fn decode(text: &[u8], out: &mut [u8]) -> usize
    ensures { (putting out.old 0 (decoded false text.now) ≡ text_of out.new result) × (result ≤ length out.old) × (take result out.new ≡ take (length out.old) (decoded false text.now)) }
{
    let mut i: usize = 0;
    let mut n: usize = 0;
    let mut inside = false;
    while i < text.len() {
        let b = text[i];
        let from = i + 1;
        n = put_piece(inside, b, &text[from..], out, n);
        inside = is_inside(inside, b);
        i = from;
    }
    n
}

// ---- answers

// The number, position and count of an answer.
fn put_answer(answer: Answer, out: &mut [u8], n: usize) -> usize
    ensures { Puts (answer_line answer) out.old n out.new result }
{
    let told = [
        number(answer) as u64,
        position(answer) as u64,
        count(answer) as u64,
    ];
    put_line(b'=', &told, out, n)
}

// The records or bytes that an answer says are written.
fn written(answer: Answer) -> usize
    ensures { (result ≡ written_of answer) × (result < shown_limit) }
{
    match answer {
        Answer::Accepted(many) => many % 65536,
        Answer::Refused(_, _) => 0,
        Answer::NoRoom(_) => 0,
    }
}

// The positions of a field record.
fn put_field(table: &[u8], i: usize, out: &mut [u8], n: usize) -> usize
    ensures { Puts (row_line field_record_size table.now i) out.old n out.new result }
{
    let field = records::field::load(table, i);
    let row = [
        field.name.start as u64,
        field.name.end as u64,
        field.body.start as u64,
        field.body.end as u64,
    ];
    put_line(b'*', &row, out, n)
}

// The numbers of an address record.
fn put_record(table: &[u8], i: usize, out: &mut [u8], n: usize) -> usize
    ensures { Puts (row_line address_record_size table.now i) out.old n out.new result }
{
    let r = records::address::load(table, i);
    let row = [
        r.kind as u64,
        r.depth as u64,
        r.parent as u64,
        r.start as u64,
        r.end as u64,
        r.name.start as u64,
        r.name.end as u64,
    ];
    put_line(b'*', &row, out, n)
}

// A record of a size.
fn put_row(size: usize, table: &[u8], i: usize, out: &mut [u8], n: usize) -> usize
    ensures { Puts (row_line size table.now i) out.old n out.new result }
{
    if size == FIELD_RECORD_SIZE {
        return put_field(table, i, out, n);
    }
    put_record(table, i, out, n)
}

// So many records of a size from one on.
fn put_rows(size: usize, table: &[u8], many: usize, from: usize, out: &mut [u8], n: usize) -> usize
    requires { from + many ≤ shown_limit }
    ensures { Puts (rows size table.now many from) out.old n out.new result }
{
    let mut i: usize = 0;
    let mut m = n;
    while i < many {
        m = put_row(size, table, from + i, out, m);
        i += 1;
    }
    m
}

// The first bytes of a lent part as a text; nothing if there are none.
fn put_front(table: &[u8], many: usize, out: &mut [u8], n: usize) -> usize
    ensures { Puts (front_text table.now many) out.old n out.new result }
{
    if many == 0 {
        return n;
    }
    if table.len() < many {
        return put_bracketed(table, out, n);
    }
    put_bracketed(&table[..many], out, n)
}

// What is written into a lent part: bytes, or records, of more than ten the first two and the last two.
fn put_counted(size: usize, table: &[u8], many: usize, out: &mut [u8], n: usize) -> usize
    requires { many < shown_limit }
    ensures { Puts (counted size table.now many) out.old n out.new result }
{
    if size == 1 {
        return put_front(table, many, out, n);
    }
    if many <= 10 {
        return put_rows(size, table, many, 0, out, n);
    }
    let m = put_rows(size, table, 2, 0, out, n);
    put_rows(size, table, 2, many - 2, out, m)
}

// Whether a lent part is as it was from a place on.
fn is_kept(table: &[u8], from: usize) -> bool
    ensures { result ≡ untouched (drop from table.now) }
{
    let mut i = from;
    while i < table.len() {
        if table[i] != UNTOUCHED {
            return false;
        }
        i += 1;
    }
    true
}

// A line if a lent part is not as it was from a place on.
fn put_kept(table: &[u8], from: usize, out: &mut [u8], n: usize) -> usize
    ensures { Puts (kept_note table.now from) out.old n out.new result }
{
    if is_kept(table, from) {
        return n;
    }
    let place = [from as u64];
    put_line(b'!', &place, out, n)
}

// An answer, and the lent part afterwards, which holds records of a size or bytes.
fn put_given(size: usize, answer: Answer, table: &[u8], out: &mut [u8], n: usize) -> usize
    requires { size ≤ address_record_size }
    ensures { Puts (given size answer table.now) out.old n out.new result }
{
    let many = written(answer);
    let a = put_answer(answer, out, n);
    let b = put_counted(size, table, many, out, a);
    put_kept(table, many * size, out, b)
}

// ---- what is run

// The start of the body.
fn start_of(head: &[u8]) -> usize
    ensures { result ≡ start_of head.now }
{
    asked(head, b'<', 0)
}

// The end of the body.
fn end_of(head: &[u8], message: &[u8]) -> usize
    ensures { result ≡ end_of head.now message.now }
{
    asked(head, b'>', message.len())
}

// The entry points that fill a lent part of bytes.
fn put_read(
    letter: u8,
    head: &[u8],
    message: &[u8],
    table: &mut [u8],
    out: &mut [u8],
    n: usize,
) -> usize
    ensures { Puts (read_text letter head.now message.now table.old) out.old n out.new result }
{
    let start = start_of(head);
    let end = end_of(head, message);
    if letter == b'a' {
        let answer = addresses::read_addresses(message, start, end, table);
        return put_given(ADDRESS_RECORD_SIZE, answer, table, out, n);
    }
    if letter == b'b' {
        let answer = engine::read_addresses(message, start, end, table);
        return put_given(ADDRESS_RECORD_SIZE, answer, table, out, n);
    }
    if letter == b'e' {
        let answer = editions::read_addresses(message, start, end, asked(head, b'=', 733), table);
        return put_given(ADDRESS_RECORD_SIZE, answer, table, out, n);
    }
    if letter == b'f' {
        let answer = split(message, table);
        return put_given(FIELD_RECORD_SIZE, answer, table, out, n);
    }
    if letter == b'p' {
        let answer = write_plain(message, start, end, table);
        return put_given(1, answer, table, out, n);
    }
    n
}

// 1 if a test holds, else 0.
fn one_if(test: bool) -> u64
    ensures { result ≡ pick test 1 0 }
{
    if test { 1 } else { 0 }
}

// Which known name a name is, whether that holds an address list, and how many were compared letter by letter.
fn put_known(name: &[u8], out: &mut [u8], n: usize) -> usize
    ensures { Puts (known_text name.now) out.old n out.new result }
{
    let looked_up = known_name(name);
    let known = looked_up.known;
    let told = [
        known_number(known) as u64,
        one_if(holds_addresses(known)),
        looked_up.compared as u64,
    ];
    put_line(b'=', &told, out, n)
}

// A value: its sign and its size.
fn put_value(value: i64, out: &mut [u8], n: usize) -> usize
    ensures { Puts (value_line value) out.old n out.new result }
{
    if value < 0 {
        let size = [((-1) - value) as u64 + 1];
        return put_line(b'-', &size, out, n);
    }
    let size = [value as u64];
    put_line(b'+', &size, out, n)
}

// A date.
fn put_date(head: &[u8], message: &[u8], out: &mut [u8], n: usize) -> usize
    ensures { Puts (date_text head.now message.now) out.old n out.new result }
{
    let answer = read_date(message, start_of(head), end_of(head, message));
    let told = [
        dates::number(answer) as u64,
        dates::position(answer) as u64,
        dates::count(answer) as u64,
    ];
    let m = put_line(b'=', &told, out, n);
    put_value(dates::value(answer), out, m)
}

// The body to reply to: its length, and its front.
fn put_chosen(body: &[u8], out: &mut [u8], n: usize) -> usize
    ensures { Puts (chosen_text body.now) out.old n out.new result }
{
    let told = [body.len() as u64];
    let m = put_line(b'=', &told, out, n);
    put_front(body, 64, out, m)
}

// The body to reply to.
fn put_reply<'a>(reply: &'a [u8], from: &'a [u8], out: &mut [u8], n: usize) -> usize
    ensures { Puts (chosen_text (pick (left_for_from reply.now) from.now reply.now)) out.old n out.new result }
{
    let body = reply_body(reply, from);
    put_chosen(body, out, n)
}

// The mark of a class of symbols.
fn mark(class: Class) -> u8
    ensures { result ≡ mark_of class }
{
    match class {
        Class::Atom => b'a',
        Class::Quoted => b'"',
        Class::At => b'@',
        Class::LessThan => b'<',
        Class::GreaterThan => b'>',
        Class::Comma => b',',
        Class::Semicolon => b';',
        Class::Colon => b':',
        Class::Stray => b')',
        Class::Dot => b'.',
        Class::Literal => b'[',
    }
}

// Each symbol of a body from a place on, and the fault if there is one. A body has no more symbols than bytes, so the steps suffice.
fn put_symbols(message: &[u8], start: usize, end: usize, out: &mut [u8], n: usize) -> usize
    ensures { Puts (symbols 65536 message.now start end) out.old n out.new result }
{
    let mut p = start;
    let mut m = n;
    let mut left: usize = 65536;
    while 0 < left {
        match next_symbol(message, p, end) {
            Next::Found(symbol) => {
                let class = symbol.class;
                let told = [
                    symbol.start as u64,
                    symbol.end as u64,
                    symbol.length as u64,
                    symbol.apart as u64,
                ];
                m = put_line(mark(class), &told, out, m);
                p = symbol.end;
            }
            Next::Ended => return m,
            Next::Fault(number, position) => {
                let place = [number as u64, position as u64];
                return put_line(b'!', &place, out, m);
            }
        }
        left -= 1;
    }
    m
}

// A body scanned, and its symbols.
fn put_scan(head: &[u8], message: &[u8], out: &mut [u8], n: usize) -> usize
    ensures { Puts (scan_text head.now message.now) out.old n out.new result }
{
    let start = start_of(head);
    let end = end_of(head, message);
    let m = put_answer(scan_body(message, start, end), out, n);
    put_symbols(message, start, end, out, m)
}

// A touched byte, with a path.
fn put_touched(head: &[u8], message: &[u8], path: &mut [u64], out: &mut [u8], n: usize) -> usize
    ensures { Puts (touch_text head.now message.now path.old) out.old n out.new result }
{
    let answer = touch::touch(
        message,
        start_of(head),
        end_of(head, message),
        asked(head, b'@', 0),
        path,
    );
    let told = [
        touch::number(answer) as u64,
        touch::position(answer) as u64,
        touch::count(answer) as u64,
        touch::category(answer) as u64,
        touch::names(answer) as u64,
    ];
    let m = put_line(b'=', &told, out, n);
    put_line(b'*', path, out, m)
}

// A body with the lists of the store in it.
fn put_opened(
    head: &[u8],
    message: &[u8],
    store: &[u8],
    room: &mut [u8],
    out: &mut [u8],
    n: usize,
) -> usize
    ensures { Puts (open_text head.now message.now store.now room.old) out.old n out.new result }
{
    let told = expansion::expand(message, start_of(head), end_of(head, message), store, room);
    let answer = told.answer;
    let openings = [told.openings as u64];
    let m = put_line(b'#', &openings, out, n);
    put_given(1, answer, room, out, m)
}

// The plain texts of two bodies, and whether they are the same.
fn put_compared(
    message: &[u8],
    other: &[u8],
    room: &mut [u8],
    spare: &mut [u8],
    out: &mut [u8],
    n: usize,
) -> usize
    ensures { Puts (compare_text message.now other.now room.old spare.old) out.old n out.new result }
{
    let a = put_answer(write_plain(message, 0, message.len(), room), out, n);
    let b = put_answer(write_plain(other, 0, other.len(), spare), out, a);
    let same = [one_if(same_bytes(room, spare))];
    put_line(b'&', &same, out, b)
}

// Whether an answer refuses by 8 at a place.
fn refuses_at(answer: Answer, place: usize) -> bool
    ensures { result ≡ refuses_at answer place }
{
    if number(answer) != NO_LIST_GOES_ON {
        return false;
    }
    position(answer) == place
}

// Whether a body is refused by 8 at the place.
fn put_unfit(head: &[u8], message: &[u8], table: &mut [u8], out: &mut [u8], n: usize) -> usize
    ensures { Puts (unfit_text head.now message.now table.old) out.old n out.new result }
{
    let answer = editions::read_addresses(message, 0, message.len(), asked(head, b'=', 733), table);
    let told = [one_if(refuses_at(answer, asked(head, b'@', 0)))];
    put_line(b'=', &told, out, n)
}

// A path of numbers that no record has.
fn path_room() -> [u64; 70]
    ensures { result ≡ replicate 70 untouched_number }
{
    [9999; 70]
}

// A touched byte, with a path of the length that is asked for.
fn put_touch(head: &[u8], message: &[u8], out: &mut [u8], n: usize) -> usize
    ensures { Puts (touch_text head.now message.now (replicate (asked_of 47 8 head.now % 71) untouched_number)) out.old n out.new result }
{
    let mut path = path_room();
    let room = asked(head, b'/', 8) % 71;
    put_touched(head, message, &mut path[..room], out, n)
}

// What a vector gives, by the letter of its word.
fn put_vector<'a>(
    letter: u8,
    head: &[u8],
    message: &'a [u8],
    other: &'a [u8],
    store: &[u8],
    room: &mut [u8],
    spare: &mut [u8],
    out: &mut [u8],
    n: usize,
) -> usize
    ensures { Puts (vector_text letter head.now message.now other.now store.now room.old spare.old) out.old n out.new result }
{
    if letter == b'd' {
        return put_date(head, message, out, n);
    }
    if letter == b'k' {
        return put_known(message, out, n);
    }
    if letter == b'r' {
        return put_reply(message, other, out, n);
    }
    if letter == b's' {
        return put_scan(head, message, out, n);
    }
    if letter == b't' {
        return put_touch(head, message, out, n);
    }
    if letter == b'o' {
        return put_opened(head, message, store, room, out, n);
    }
    if letter == b'c' {
        return put_compared(message, other, room, spare, out, n);
    }
    if letter == b'u' {
        return put_unfit(head, message, room, out, n);
    }
    put_read(letter, head, message, room, out, n)
}

// ---- a line

// Make a room as it is lent.
fn fill(room: &mut [u8])
    ensures { room.new ≡ replicate (length room.old) untouched_byte }
{
    let mut i: usize = 0;
    while i < room.len() {
        room[i] = UNTOUCHED;
        i += 1;
    }
}

// What a vector gives with two rooms.
fn put_in_rooms<'a>(
    letter: u8,
    head: &[u8],
    message: &'a [u8],
    other: &'a [u8],
    store: &[u8],
    room: &mut [u8],
    spare: &mut [u8],
    out: &mut [u8],
    n: usize,
) -> usize
    ensures { Puts (vector_text letter head.now message.now other.now store.now (replicate (length room.old) untouched_byte) (replicate (length spare.old) untouched_byte)) out.old n out.new result }
{
    fill(room);
    fill(spare);
    put_vector(letter, head, message, other, store, room, spare, out, n)
}

// What a vector gives, with rooms of the size that is asked for.
fn put_with_room<'a>(
    letter: u8,
    head: &[u8],
    message: &'a [u8],
    other: &'a [u8],
    store: &[u8],
    out: &mut [u8],
    n: usize,
) -> usize
    ensures { Puts (vector_with letter head.now message.now other.now store.now) out.old n out.new result }
{
    let mut space = io::large_buffer();
    let mut spare = io::large_buffer();
    let room = asked(head, b'/', 4096) % 65536;
    put_in_rooms(
        letter,
        head,
        message,
        other,
        store,
        &mut space[..room],
        &mut spare[..room],
        out,
        n,
    )
}

// What a vector gives, from what stands before and after its first "|".
fn put_parts(letter: u8, head: &[u8], tail: &[u8], store: &[u8], out: &mut [u8], n: usize) -> usize
    ensures { Puts (parts_text letter head.now tail.now store.now) out.old n out.new result }
{
    let mut first = io::large_buffer();
    let mut second = io::large_buffer();
    let seam = cut(tail, b'|');
    let at = seam.at;
    let past = seam.past;
    let size = decode(&tail[..at], &mut first);
    let more = decode(&tail[past..], &mut second);
    put_with_room(letter, head, &first[..size], &second[..more], store, out, n)
}

// Put a line and what it gives with the store into a text, as far as there is room: how many bytes.
pub fn write_answer(line: &[u8], store: &[u8], text: &mut [u8]) -> usize
    ensures { text_of text.new result ≡ putting text.old 0 (answer_of line.now store.now) }
{
    let n = put_bytes(line, text, 0);
    let m = put(text, n, b'\n');
    let seam = cut(line, b'|');
    let at = seam.at;
    let past = seam.past;
    put_parts(
        load_byte(line, 0),
        &line[..at],
        &line[past..],
        store,
        text,
        m,
    )
}

// Put the lists of a line into a store, as far as there is room; any other line leaves it as it is. How many bytes of it are used afterwards.
pub fn keep_lists(line: &[u8], store: &mut [u8], used: usize) -> usize
    ensures { text_of store.new result ≡ kept_lists line.now store.old used }
{
    if load_byte(line, 0) != b'l' {
        return used;
    }
    let seam = cut(line, b'|');
    let past = seam.past;
    decode(&line[past..], store)
}

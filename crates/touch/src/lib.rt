// What a touched byte of an address body is, and which records are around it; of a refused body, what could have stood there.
//
// The tool reads into a table of its own, on the stack: records of the address reader, 2,048 of them.
#![tactic(auto)]

ghost use Rattle.std.specs.Prelude.{◌≡◌, ◌+◌, ◌*◌, ◌≤◌, ◌<◌, length};
ghost use Rattle.octets.specs.Believed.Choice.{pick};
ghost use Rattle.octets.specs.Believed.Numbers.{table_records};
ghost use Rattle.octets.specs.Ties.Writing.{count_limit};
ghost use Rattle.records.specs.Believed.AddressRecords.{address_record_size, record_in};
ghost use Rattle.touch.specs.Believed.Around.{covers};
ghost use Rattle.touch.specs.Believed.Answers.{number_of, position_of, count_of, category_of, names_of, category_number, AnsweredBy};
ghost use Rattle.touch.specs.Believed.Touched.{touched};
ghost use Rattle.touch.specs.Believed.ByGrammar.{ByGrammar};
ghost use Rattle.touch.specs.Ties.Climbing.{LastAroundIs, MayClimb, ClimbIs, SomeList, ListIs};

use octets::answers::{Answer, Fault};
use octets::numbers::{ACCEPTED, BODY_OUT_OF_ORDER, TABLE_RECORDS, TOO_LITTLE_ROOM};
use octets::stored::store_number;
use records::address::{ADDRESS_RECORD_SIZE, load};
use scanner::Category;

// The bytes of the tool's own table.
const TABLE_SIZE: usize = TABLE_RECORDS * ADDRESS_RECORD_SIZE;

// A byte of an accepted body: what it is, and the number of records around it.
#[derive(Clone, Copy, PartialEq, Eq)]
pub struct Byte {
    pub category: Category,
    pub around: usize,
}

// Why nothing is told of a byte.
#[derive(Clone, Copy, PartialEq, Eq)]
pub enum Untouched {
    // The body is refused with 8, 9 or 10; and what could have stood there, as a sum.
    Expected(Fault, usize),
    // Refused otherwise.
    Refused(Fault),
    // The tool's own table is too small: the records needed.
    NoRoom(usize),
}

pub type Touched = Result<Byte, Untouched>;

// The number of an answer.
pub fn number(answer: Touched) -> u8
    ensures { result ≡ number_of answer }
{
    match answer {
        Ok(_) => ACCEPTED,
        Err(Untouched::Expected(fault, _) | Untouched::Refused(fault)) => fault.number,
        Err(Untouched::NoRoom(_)) => TOO_LITTLE_ROOM,
    }
}

// The position of an answer.
pub fn position(answer: Touched) -> usize
    ensures { result ≡ position_of answer }
{
    match answer {
        Err(Untouched::Expected(fault, _) | Untouched::Refused(fault)) => fault.position,
        _ => 0,
    }
}

// The count of an answer: the records around the byte, or needed.
pub fn count(answer: Touched) -> usize
    ensures { result ≡ count_of answer }
{
    match answer {
        Ok(byte) => byte.around,
        Err(Untouched::NoRoom(needed)) => needed,
        _ => 0,
    }
}

// What a byte is, as a number of document 02. The category is the scanner's, so that no `From` for it can stand here.
fn category_number(category: Category) -> u8
    ensures { result ≡ category_number category }
{
    match category {
        Category::White => 1,
        Category::Comment => 2,
        Category::Word => 3,
        Category::At => 4,
        Category::Mark => 5,
        Category::Nothing => 0,
    }
}

// What the byte of an answer is: 1 white space, 2 comment, 3 word, 4 "at", 5 a bracket or mark; 0 for a refusal.
pub fn category(answer: Touched) -> u8
    ensures { result ≡ category_of answer }
{
    answer.map_or(0, |byte| category_number(byte.category))
}

// What could have stood at the place of a refusal: word 1, "at" 2, "<" 4, ">" 8, "@" 16, "," 32, ";" 64, ":" 128, the end 256, summed.
pub fn names(answer: Touched) -> usize
    ensures { result ≡ names_of answer }
{
    match answer {
        Err(Untouched::Expected(_, names)) => names,
        _ => 0,
    }
}

// The records of an accepted body: so many of them, in the tool's own table.
#[derive(Clone, Copy)]
struct Records<'a> {
    table: &'a [u8],
    many: usize,
}

impl Records<'_> {
    // Whether a record covers a place.
    fn is_around(&self, number: usize, place: usize) -> bool
        ensures { result ≡ covers place (record_in self.now.table.now number) }
    {
        let address = load(self.table, number);
        (address.start..address.end).contains(&place)
    }

    // The number of the last record that covers a place.
    fn last_around(&self, place: usize) -> Option<usize>
        ensures { LastAroundIs self.now.table.now self.now.many place result }
    {
        (0..self.many)
            .rev()
            .find(|&number| self.is_around(number, place))
    }

    // Put the record numbers from a parent (its number plus 1, or 0, as a record has it) to the outermost into the path from a
    // position of it on: the position after them.
    fn climb(&self, parent: usize, path: &mut [u64], at: usize) -> usize
        requires { MayClimb self.now.table.now parent at }
        ensures { ClimbIs self.now.table.now parent at path.old path.new result }
    {
        if parent == 0 {
            return at;
        }
        let number = parent - 1;
        store_number(path, at, number as u64);
        let address = load(self.table, number);
        self.climb(address.parent, path, at + 1)
    }
}

// A place of an accepted body with these records.
fn touch_list(
    message: &[u8],
    start: usize,
    end: usize,
    place: usize,
    path: &mut [u64],
    records: &Records,
) -> Touched
    requires { SomeList message.now start end records.now.table.now records.now.many }
    ensures { ListIs message.now start end place path.old records.now.table.now records.now.many path.new result }
{
    if !(start..end).contains(&place) {
        return Err(Untouched::Refused(Fault {
            number: BODY_OUT_OF_ORDER,
            position: 0,
        }));
    }
    let last = records.last_around(place).map_or(0, |number| number + 1);
    let around = records.climb(last, path, 0);
    Ok(Byte {
        category: scanner::category_at(message, start, end, place),
        around,
    })
}

// Touch a place of the body of a message from start up to end: what the byte there is, and the numbers of the records around it at
// the front of the path, from the last that covers it to the outermost; of a refused body, what could have stood there.
pub fn touch(message: &[u8], start: usize, end: usize, place: usize, path: &mut [u64]) -> Touched
    ensures outcome { AnsweredBy (touched message.now start end place path.old) result path.new }
    ensures by_grammar { ByGrammar message.now start end place path.old result path.new }
{
    if let Answer::Refused(number, position) = scanner::scan_body(message, start, end) {
        return Err(Untouched::Refused(Fault { number, position }));
    }
    let mut table = [0; TABLE_SIZE];
    match engine::read_addresses(message, start, end, &mut table) {
        Answer::Refused(number, position) => Err(Untouched::Expected(
            Fault { number, position },
            engine::expected(message, start, end),
        )),
        Answer::NoRoom(needed) => Err(Untouched::NoRoom(needed)),
        Answer::Accepted(many) => {
            let records = Records {
                table: &table,
                many,
            };
            touch_list(message, start, end, place, path, &records)
        }
    }
}

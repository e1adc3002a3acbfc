// The address record.
ghost use Rattle.std.specs.Prelude.{◌≡◌, ◌+◌, ◌*◌};
ghost use Rattle.std.proofs.lemmas.List.Edits.{sets};
ghost use Rattle.octets.specs.Believed.Numbers.{number_width};
ghost use Rattle.octets.specs.Believed.Stored.{bytes_of};
ghost use Rattle.records.specs.Believed.AddressRecords.{record_by, address_record_size, record_bytes, end_offset, record_in};

use crate::Span;
use crate::positions::{
    POSITION_WIDTH, SPAN_WIDTH, load_position, load_span, place, store_position, store_span,
};
use octets::stored::{load_byte, store_byte};

// A record by value: kind, depth, the parent's number plus 1 or 0, the address's span, and its name's.
#[derive(Clone, Copy, Default)]
pub struct AddressRecord {
    pub kind: u8,
    pub depth: u8,
    pub parent: usize,
    pub start: usize,
    pub end: usize,
    pub name: Span,
}

// Where each part stands in a record.
const KIND: usize = 0;

const DEPTH: usize = KIND + 1;

const PARENT: usize = DEPTH + 1;

const START: usize = PARENT + POSITION_WIDTH;

const END: usize = START + POSITION_WIDTH;

const NAME: usize = END + POSITION_WIDTH;

// The bytes of a record.
pub const ADDRESS_RECORD_SIZE: usize = NAME + SPAN_WIDTH;

// Store a record at its place in a table; past the end nothing is stored.
#[inline(always)]
pub fn store(table: &mut [u8], number: usize, address: AddressRecord)
    ensures { table.new ≡ sets table.old (number * address_record_size) (record_bytes (record_by address.kind address.depth address.parent address.start address.end address.name.start address.name.end)) }
{
    if let Some(at) = place(table, number, ADDRESS_RECORD_SIZE) {
        store_byte(table, at + KIND, address.kind);
        store_byte(table, at + DEPTH, address.depth);
        store_position(table, at + PARENT, address.parent);
        store_position(table, at + START, address.start);
        store_position(table, at + END, address.end);
        store_span(table, at + NAME, address.name);
    }
}

// Store another end in the record with a number; past the end of the table nothing is stored.
pub fn store_end(table: &mut [u8], number: usize, end: usize)
    ensures { table.new ≡ sets table.old (number * address_record_size + end_offset) (bytes_of number_width end) }
{
    if let Some(record) = place(table, number, ADDRESS_RECORD_SIZE) {
        store_position(table, record + END, end);
    }
}

// The record with a number in a table; past its end stand zeros.
pub fn load(table: &[u8], number: usize) -> AddressRecord
    ensures { record_by result.kind result.depth result.parent result.start result.end result.name.start result.name.end ≡ record_in table.now number }
{
    match place(table, number, ADDRESS_RECORD_SIZE) {
        Some(at) => AddressRecord {
            kind: load_byte(table, at + KIND),
            depth: load_byte(table, at + DEPTH),
            parent: load_position(table, at + PARENT),
            start: load_position(table, at + START),
            end: load_position(table, at + END),
            name: load_span(table, at + NAME),
        },
        None => AddressRecord::default(),
    }
}

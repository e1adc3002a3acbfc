// The field record.
ghost use Rattle.std.specs.Prelude.{◌≡◌, ◌*◌};
ghost use Rattle.std.proofs.lemmas.List.Edits.{sets};
ghost use Rattle.records.specs.Believed.FieldRecords.{field_of, field_record_size, field_bytes, field_in};

use crate::Span;
use crate::positions::{SPAN_WIDTH, load_span, place, store_span};

// A record by value: the span of the name, and that of the body.
#[derive(Clone, Copy, Default)]
pub struct FieldRecord {
    pub name: Span,
    pub body: Span,
}

// Where each span stands in a record.
const NAME: usize = 0;

const BODY: usize = NAME + SPAN_WIDTH;

// The bytes of a record.
pub const FIELD_RECORD_SIZE: usize = BODY + SPAN_WIDTH;

// Store a record at its place in a table; past the end nothing is stored.
pub fn store(table: &mut [u8], number: usize, field: FieldRecord)
    ensures { table.new ≡ sets table.old (number * field_record_size) (field_bytes (field_of field.name.start field.name.end field.body.start field.body.end)) }
{
    if let Some(at) = place(table, number, FIELD_RECORD_SIZE) {
        store_span(table, at + NAME, field.name);
        store_span(table, at + BODY, field.body);
    }
}

// The record with a number in a table; past its end stand zeros.
pub fn load(table: &[u8], number: usize) -> FieldRecord
    ensures { field_of result.name.start result.name.end result.body.start result.body.end ≡ field_in table.now number }
{
    match place(table, number, FIELD_RECORD_SIZE) {
        Some(at) => FieldRecord {
            name: load_span(table, at + NAME),
            body: load_span(table, at + BODY),
        },
        None => FieldRecord::default(),
    }
}

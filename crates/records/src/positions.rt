// A position in a record, and any other number of it that takes more than a byte; a span; and the place of a record.
ghost use Rattle.std.specs.Prelude.{◌≡◌, ◌+◌, ◌*◌, ◌^◌, ◌<◌, ◌≤◌, ◌++◌, length, MatchOption};
ghost use Rattle.std.proofs.lemmas.List.Edits.{sets};
ghost use Rattle.octets.specs.Believed.Numbers.{number_width};
ghost use Rattle.octets.specs.Believed.Stored.{bytes_of, number_at};

use crate::Span;
use octets::stored::{load_two, store_two};

// The bytes that it takes.
pub const POSITION_WIDTH: usize = 2;

// The bytes that a span takes.
pub const SPAN_WIDTH: usize = 2 * POSITION_WIDTH;

// Store a position from a place on; past the end nothing is stored.
pub fn store_position(table: &mut [u8], at: usize, x: usize)
    ensures { table.new ≡ sets table.old at (bytes_of number_width x) }
{
    store_two(table, at, x);
}

// The position from a place on; past the end stand zeros.
pub fn load_position(table: &[u8], at: usize) -> usize
    ensures { result ≡ number_at number_width table.now at }
{
    load_two(table, at)
}

// Store a span from a place on, its start first; past the end nothing is stored.
pub(crate) fn store_span(table: &mut [u8], at: usize, span: Span)
    requires { at + number_width < 2 ^ 64 }
    ensures { table.new ≡ sets table.old at (bytes_of number_width span.start ++ bytes_of number_width span.end) }
{
    store_position(table, at, span.start);
    store_position(table, at + POSITION_WIDTH, span.end);
}

// The span from a place on; past the end stand zeros.
pub(crate) fn load_span(table: &[u8], at: usize) -> Span
    requires { at + number_width < 2 ^ 64 }
    ensures start { result.start ≡ number_at number_width table.now at }
    ensures end { result.end ≡ number_at number_width table.now (at + number_width) }
{
    Span {
        start: load_position(table, at),
        end: load_position(table, at + POSITION_WIDTH),
    }
}

// Where the record with a number stands, of so many bytes each; none past the end of the table.
pub(crate) fn place(table: &[u8], number: usize, size: usize) -> Option<usize>
    requires { 0 < size }
    ensures { MatchOption result (length table.now < number * size) (λ at. (at ≡ number * size) × (at ≤ length table.now)) }
{
    if table.len() / size < number {
        return None;
    }
    Some(number * size)
}

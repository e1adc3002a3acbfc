// Texts written into a lent part, and into one that is a window on a longer text.
ghost use Rattle.std.specs.Prelude.{◌≡◌, [], ◌∷◌, take};
ghost use Rattle.std.proofs.lemmas.List.Edits.{sets};
ghost use Rattle.octets.specs.Ties.Writing.{in_window};

use crate::stored::store_byte;

// Copy the first bytes of a slice to the front of a table; past the end of either nothing is copied.
pub fn copy_front(table: &mut [u8], from: &[u8], many: usize)
    ensures { table.new ≡ sets table.old 0 (take many from.now) }
{
    let end = many.min(table.len()).min(from.len());
    // by index: with `copy_from_slice` the library for C asks for `memmove` too
    for i in 0..end {
        table[i] = from[i];
    }
}

// Store the bytes of a text from a place on; past the end nothing is stored.
pub fn store_bytes(out: &mut [u8], at: usize, text: &[u8])
    ensures { out.new ≡ sets out.old at text.now }
{
    if at < out.len() {
        copy_front(&mut out[at..], text, text.len());
    }
}

// Store the byte at place n of a text, if it lies in the window that starts at from.
#[tactic(auto, unfolding(crate::specs::Ties::Writing::in_window))]
pub fn store_byte_in(from: usize, out: &mut [u8], n: usize, b: u8)
    ensures { out.new ≡ in_window from out.old n (b ∷ []) }
{
    if from <= n {
        store_byte(out, n - from, b);
    }
}

// Store the bytes from place n of a text on, as far as they lie in the window that starts at from.
pub fn store_bytes_in(from: usize, out: &mut [u8], n: usize, text: &[u8])
    ensures { out.new ≡ in_window from out.old n text.now }
{
    if from <= n {
        store_bytes(out, n - from, text);
        return;
    }
    if text.len() <= from - n {
        return;
    }
    store_bytes(out, 0, &text[from - n..]);
}

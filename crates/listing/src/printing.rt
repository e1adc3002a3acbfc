// Printing a listing: a writer is given it, one window on it after the other.
ghost use Rattle.std.specs.Prelude.{◌≡◌, ℕ, ◌<◌, length, take, OnOk, OnErr};
ghost use Rattle.std.specs.Io.KnownBytes.{Appends};
ghost use Rattle.listing.specs.Believed.Listing.{listing};

use crate::write_listing;
use std::io;
use std::io::Write;

// The bytes of a window.
const WINDOW_SIZE: usize = 65536;

// Write a text from its start on, up to a write that fails. A write that a signal cut off is made again, and one that takes no byte is an error.
fn write_text<W: Write>(text: &[u8], output: &mut W) -> io::Result<()>
    ensures written { OnOk result (Appends (W.contents output.old) (W.contents output.new) text.now) }
    ensures left { OnErr result ((n : ℕ) × Appends (W.contents output.old) (W.contents output.new) (take n text.now)) }
{
    let mut done: usize = 0;
    'writes: for _ in 0..u64::MAX {
        if done >= text.len() {
            return Ok(());
        }
        match output.write(&text[done..]) {
            Ok(0) => return Err(io::Error::from(io::ErrorKind::WriteZero)),
            Ok(more) => done += more,
            Err(e) if e.kind() == io::ErrorKind::Interrupted => {}
            Err(e) => return Err(e),
        }
    }
    Err(io::Error::from(io::ErrorKind::TimedOut))
}

// Print the listing of a message, one window on it after the other, up to a write that fails.
fn print_windows<W: Write>(
    message: &[u8],
    edition: usize,
    window: &mut [u8],
    output: &mut W,
) -> (usize, io::Result<()>)
    requires { 0 < length window.old }
    ensures count { result.0 ≡ length (listing edition message.now) }
    ensures printed { OnOk result.1 (Appends (W.contents output.old) (W.contents output.new) (listing edition message.now)) }
    ensures left { OnErr result.1 ((n : ℕ) × Appends (W.contents output.old) (W.contents output.new) (take n (listing edition message.now))) }
{
    let mut from: usize = 0;
    loop {
        let whole = write_listing(message, edition, from, window);
        if whole <= from {
            return (whole, Ok(()));
        }
        let left = whole - from;
        if left <= window.len() {
            return (whole, write_text(&window[..left], output));
        }
        if let Err(e) = write_text(window, output) {
            return (whole, Err(e));
        }
        from += window.len();
    }
}

// Print the listing of a message by the rules of an edition, 733 or 822: the number of its bytes, and whether they are all written.
// An error is that of the write at which printing stopped. Some front of the listing is written then and nothing else; its length is not told.
pub fn print_listing<W: Write>(
    message: &[u8],
    edition: usize,
    output: &mut W,
) -> (usize, io::Result<()>)
    ensures count { result.0 ≡ length (listing edition message.now) }
    ensures printed { OnOk result.1 (Appends (W.contents output.old) (W.contents output.new) (listing edition message.now)) }
    ensures left { OnErr result.1 ((n : ℕ) × Appends (W.contents output.old) (W.contents output.new) (take n (listing edition message.now))) }
{
    let mut window = [0; WINDOW_SIZE];
    print_windows(message, edition, &mut window, output)
}

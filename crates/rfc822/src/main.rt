// Reads one message from standard input and prints its listing by RFC 822: its fields, and the addresses and dates in their bodies.
#![tactic(auto)]

ghost use Rattle.std.specs.Prelude.{◌≡◌, length};

use listing::printing::print_listing;
use listing::reading::read_message;
use std::io;

// Room for one byte more than a message may have.
fn message_room() -> [u8; 32769]
    ensures { 32769 ≡ length result }
{
    [0; 32769]
}

// Print the listing of the message on standard input; or, on standard error, that it cannot be read.
fn main(rt: HostRuntime) -> io::Result<()> {
    let mut space = message_room();
    let Ok(n) = read_message(&mut rt.stdin(), &mut space) else {
        return eprintln!(rt; "rfc822: standard input cannot be read");
    };
    let (_, printed) = print_listing(&space[..n], 822, &mut rt.stdout());
    printed
}

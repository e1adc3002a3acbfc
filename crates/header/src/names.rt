// The known field names.
ghost use Rattle.std.specs.Prelude.{◌≡◌, ◌<◌, ◌↔◌, IsTrue, length, get_or, map, drop};
ghost use Rattle.std.specs.Option.{option_map};
ghost use Rattle.octets.specs.Believed.Letters.{lower as lower_of};
ghost use Rattle.header.specs.Believed.Names.{known_names, known_of, known_number, compared_of, holds_addresses};
ghost use Rattle.header.specs.Ties.Candidates.{candidate, in_small};

use octets::letters::lower;

// Which known name a name is: its number is its place in their order, from 1, and 0 for any other.
#[derive(Clone, Copy, PartialEq, Eq)]
pub enum Known {
    Date = 1,
    From = 2,
    ReplyTo = 3,
    To = 4,
    Cc = 5,
    Bcc = 6,
    Other = 0,
}

// A name looked up: which known name it is, and how many known names were compared with it letter by letter.
#[derive(Clone, Copy)]
pub struct LookedUp {
    pub known: Known,
    pub compared: usize,
}

// The first letter of a name, made small.
fn first_letter(name: &[u8]) -> u8
    requires { 0 < length name.now }
    ensures { result ≡ lower_of (get_or name.now 0 0) }
{
    lower(name[0])
}

// The known name with a name's length and, case ignored, first letter, and its text in small letters. A match on both at once,
// one on slice patterns, and a search of an array take more instructions.
fn candidate(name: &[u8]) -> Option<(Known, &'static [u8])>
    ensures { option_map (λ k. (k.0, k.1.now)) result ≡ option_map in_small (candidate known_names name.now) }
{
    match name.len() {
        2 => match first_letter(name) {
            b't' => Some((Known::To, b"to")),
            b'c' => Some((Known::Cc, b"cc")),
            _ => None,
        },
        3 => match first_letter(name) {
            b'b' => Some((Known::Bcc, b"bcc")),
            _ => None,
        },
        4 => match first_letter(name) {
            b'd' => Some((Known::Date, b"date")),
            b'f' => Some((Known::From, b"from")),
            _ => None,
        },
        8 => match first_letter(name) {
            b'r' => Some((Known::ReplyTo, b"reply-to")),
            _ => None,
        },
        _ => None,
    }
}

// Whether a name agrees with a text of its length in small letters, case ignored, past the first letter.
fn agrees(name: &[u8], text: &[u8]) -> bool
    requires { length name.now ≡ length text.now }
    ensures { IsTrue result ↔ (map lower_of (drop 1 name.now) ≡ drop 1 text.now) }
{
    name.iter().zip(text).skip(1).all(|(a, b)| lower(*a) == *b)
}

// Which known name a name is, case ignored: the one that its length and first letter leave, if it agrees; and how many were
// compared.
pub fn known_name(name: &[u8]) -> LookedUp
    ensures { (result.known ≡ known_of name.now) × (result.compared ≡ compared_of name.now) }
{
    match candidate(name) {
        None => LookedUp {
            known: Known::Other,
            compared: 0,
        },
        Some((known, text)) => {
            let known = if agrees(name, text) {
                known
            } else {
                Known::Other
            };
            LookedUp { known, compared: 1 }
        }
    }
}

// The number of a known name.
pub fn known_number(known: Known) -> u8
    ensures { result ≡ known_number known }
{
    known as u8
}

// Whether a field of this name holds an address list.
pub fn holds_addresses(known: Known) -> bool
    ensures { result ≡ holds_addresses known }
{
    matches!(
        known,
        Known::From | Known::ReplyTo | Known::To | Known::Cc | Known::Bcc
    )
}

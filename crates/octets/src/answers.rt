// The answer of an entry point.
ghost use Rattle.std.specs.Prelude.{◌≡◌};
ghost use Rattle.octets.specs.Believed.Answers.{number_of, position_of, count_of};

use crate::numbers::{ACCEPTED, TOO_LITTLE_ROOM};

// What is wrong, by document 01's number, and where.
#[derive(Clone, Copy, PartialEq, Eq)]
pub struct Fault {
    pub number: u8,
    pub position: usize,
}

#[derive(Clone, Copy)]
pub enum Answer {
    // Accepted: the records or bytes written.
    Accepted(usize),
    // Refused: the number and the position.
    Refused(u8, usize),
    // Lent room less than needed: the records or bytes needed.
    NoRoom(usize),
}

// Document 01's number of an answer.
pub fn number(answer: Answer) -> u8
    ensures { result ≡ number_of answer }
{
    match answer {
        Answer::Accepted(_) => ACCEPTED,
        Answer::Refused(number, _) => number,
        Answer::NoRoom(_) => TOO_LITTLE_ROOM,
    }
}

// Document 01's position of an answer.
pub fn position(answer: Answer) -> usize
    ensures { result ≡ position_of answer }
{
    match answer {
        Answer::Accepted(_) => 0,
        Answer::Refused(_, position) => position,
        Answer::NoRoom(_) => 0,
    }
}

// Document 01's count of an answer.
pub fn count(answer: Answer) -> usize
    ensures { result ≡ count_of answer }
{
    match answer {
        Answer::Accepted(written) => written,
        Answer::Refused(_, _) => 0,
        Answer::NoRoom(needed) => needed,
    }
}

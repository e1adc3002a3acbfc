// Reading dates.
#![tactic(auto)]

ghost use Rattle.std.specs.Prelude.{◌≡◌};
ghost use Rattle.dates.specs.Believed.Answers.{number_of, position_of, count_of, value_of, told};
ghost use Rattle.dates.specs.Believed.ByGrammar.{ByGrammar};
ghost use Rattle.dates.specs.Believed.Outcome.{date_answer};

use octets::answers::{Answer, Fault};
use octets::classes::CLASSES;
use octets::numbers::{ACCEPTED, DATE_FORM, DATE_IMPOSSIBLE};

mod calendar;
mod cursor;
mod form;
mod moment;
mod names;
mod parts;

// Document 01's number of an answer: of the moment that a date says, or of what is wrong.
pub fn number(answer: Result<i64, Fault>) -> u8
    ensures { result ≡ number_of answer }
{
    match answer {
        Ok(_) => ACCEPTED,
        Err(fault) => fault.number,
    }
}

// Document 01's position of an answer.
pub fn position(answer: Result<i64, Fault>) -> usize
    ensures { result ≡ position_of answer }
{
    match answer {
        Ok(_) => 0,
        Err(fault) => fault.position,
    }
}

// Document 01's count of an answer.
pub fn count(answer: Result<i64, Fault>) -> usize
    ensures { result ≡ count_of answer }
{
    0
}

// The value of an answer: 0 with a refusal.
pub fn value(answer: Result<i64, Fault>) -> i64
    ensures { result ≡ value_of answer }
{
    answer.unwrap_or(0)
}

// The date in the body of a message from start up to end: seconds from 1 January 1900, 00:00 GMT.
pub fn read_date(message: &[u8], start: usize, end: usize) -> Result<i64, Fault>
    ensures outcome { (told result ≡ told (date_answer message.now start end)) × (result ≡ date_answer message.now start end) }
    ensures by_grammar { ByGrammar message.now start end result }
{
    if let Answer::Refused(number, position) = scanner::scan_body(message, start, end) {
        return Err(Fault { number, position });
    }
    let written = crate::form::read_form(&CLASSES, &message[..end], start).ok_or(Fault {
        number: DATE_FORM,
        position: start,
    })?;
    let value = crate::moment::moment_of(written).ok_or(Fault {
        number: DATE_IMPOSSIBLE,
        position: start,
    })?;
    Ok(value)
}

// The moment that a date says.
ghost use Rattle.std.specs.Prelude.{◌≡◌, ◌+◌, ◌*◌, ◌<◌};
ghost use Rattle.dates.specs.Believed.Answers.{time_exists, name_true, seconds as seconds_of, moment_of};
ghost use Rattle.dates.specs.Ties.Moment.{InDay};

use crate::form::Written;

// A time of day by its numbers, be there such a one or not.
#[derive(Clone, Copy)]
pub(crate) struct Time {
    pub hour: u64,
    pub minute: u64,
    pub second: u64,
}

impl Time {
    // Whether a day has it.
    fn exists(self) -> bool
        ensures { result ≡ time_exists self.hour self.minute self.second }
    {
        self.hour <= 23 && self.minute <= 59 && self.second <= 59
    }

    // The seconds from 00:00 to it.
    fn seconds(self) -> u64
        requires { InDay self.hour self.minute self.second }
        ensures { (result ≡ self.hour * 3600 + self.minute * 60 + self.second) × (result < 86400) }
    {
        self.hour * 3600 + self.minute * 60 + self.second
    }
}

// Whether a day has no name or its true one.
fn name_true(name: Option<usize>, days: u64) -> bool
    ensures { result ≡ name_true name days }
{
    match name {
        // There is no `From` to `u64`.
        Some(name) => name as u64 == days % 7,
        None => true,
    }
}

// Seconds of GMT from seconds of local time.
fn seconds(local: u64, minutes: i16) -> i64
    requires { local < 1000000000000000 }
    ensures { result ≡ seconds_of local minutes }
{
    // It fits, so `try_from` would only add a branch that is never taken.
    local as i64 - i64::from(minutes) * 60
}

// The moment that a date says, if it is possible: seconds from 1 January 1900, 00:00 GMT.
pub(crate) fn moment_of(w: Written) -> Option<i64>
    ensures { result ≡ moment_of w }
{
    if !w.day.exists() || !w.time.exists() {
        return None;
    }
    let days = w.day.number();
    if !name_true(w.name, days) {
        return None;
    }
    let minutes = w.zone?;
    Some(seconds(days * 86400 + w.time.seconds(), minutes))
}

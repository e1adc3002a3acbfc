// The form of a date: what its parts write.
ghost use Rattle.std.specs.Prelude.{◌≡◌, ◌+◌, ◌-◌, ◌≤◌, ◌<◌, length, map, IfSome};
ghost use Rattle.octets.specs.Believed.Choice.{pick};
ghost use Rattle.dates.specs.Believed.Names.{ahead, behind};
ghost use Rattle.dates.specs.Believed.Grammar.{decimal, offset_of};
ghost use Rattle.dates.specs.Executable.Form.{digit_run_of, name_of, second_after, minute_after, time_of, zone_named, zone_signed, zone_of, day_name_of, day_of, year_of, reading_of};
ghost use Rattle.dates.specs.Ties.Steps.{left, Reads, ReadsOrStays};

use crate::calendar::Day;
use crate::cursor::Cursor;
use crate::moment::Time;
use crate::names::{DAYS, MONTHS};
use crate::parts::Key;

// A date as it is written. The day's name counts from 0.
#[derive(Clone, Copy)]
pub(crate) struct Written {
    pub name: Option<usize>,
    pub day: Day,
    pub time: Time,
    // Local time minus GMT in minutes, if it is in range.
    pub zone: Option<i16>,
}

// A run of at most six digits: how many, and their value.
#[derive(Clone, Copy)]
struct DigitRun {
    count: usize,
    value: u64,
}

// The value of at most six digits.
fn decimal(digits: &[u8]) -> u64
    requires { length digits.now ≤ 6 }
    ensures { (result ≡ decimal digits.now) × (result < 1000000000000000000) }
{
    let mut value = 0;
    for digit in digits {
        value = value * 10 + u64::from(digit.saturating_sub(b'0'));
    }
    value
}

// The offset of four digits after a sign, if it is in range. A closure in place of the flag would be no plainer.
fn offset_of(minus: bool, hhmm: u64) -> Option<i16>
    ensures { result ≡ offset_of (pick minus behind ahead) hhmm }
{
    let hours = hhmm / 100;
    let minutes = hhmm % 100;
    if hours > 23 || minutes > 59 {
        return None;
    }
    // It fits, so `try_from` would only add a branch that is never taken.
    let offset = (hours * 60 + minutes) as i16;
    Some(if minus { -offset } else { offset })
}

impl<'a> Cursor<'a> {
    // A run of at most six digits.
    fn read_digits(&mut self) -> Option<DigitRun>
        ensures reads { Reads (digit_run_of self.old) result self.new }
        ensures small { IfSome result (λ run. run.value < 1000000000000000000) }
    {
        let digits = self.run(Key::Digits)?;
        if digits.len() > 6 {
            return None;
        }
        self.step();
        Some(DigitRun {
            count: digits.len(),
            value: decimal(digits),
        })
    }

    // The place of one of these names.
    fn read_name(&mut self, names: &[&[u8]]) -> Option<usize>
        ensures { ReadsOrStays (name_of (map (λ full. full.now) names.now) self.old) self.old result self.new }
    {
        let place = crate::names::place_of(names, self.run(Key::Letters)?)?;
        self.step();
        Some(place)
    }

    // The second, a colon and two digits, or none.
    fn read_second(&mut self, hour: u64, minute: u64) -> Option<Time>
        ensures { Reads (second_after hour minute self.old) result self.new }
    {
        if !self.past(Key::Colon) {
            return Some(Time {
                hour,
                minute,
                second: 0,
            });
        }
        let run = self.read_digits()?;
        if run.count != 2 {
            return None;
        }
        Some(Time {
            hour,
            minute,
            second: run.value,
        })
    }

    // The minute after two digits: a colon and four digits; or a colon, two and perhaps the second.
    fn read_minute(&mut self, hour: u64) -> Option<Time>
        ensures { Reads (minute_after hour self.old) result self.new }
    {
        if !self.past(Key::Colon) {
            return None;
        }
        let run = self.read_digits()?;
        let value = run.value;
        match run.count {
            4 => Some(Time {
                hour,
                minute: value / 100,
                second: value % 100,
            }),
            2 => self.read_second(hour, value),
            _ => None,
        }
    }

    // The time in its six forms.
    fn read_time(&mut self) -> Option<Time>
        ensures { Reads (time_of self.old) result self.new }
    {
        let run = self.read_digits()?;
        let value = run.value;
        match run.count {
            6 => Some(Time {
                hour: value / 10000,
                minute: value / 100 % 100,
                second: value % 100,
            }),
            4 => self.read_second(value / 100, value % 100),
            2 => self.read_minute(value),
            _ => None,
        }
    }

    // A zone of the table.
    fn read_named_zone(&mut self) -> Option<Option<i16>>
        ensures { Reads (zone_named self.old) result self.new }
    {
        let minutes = crate::names::zone_of(self.run(Key::Letters)?)?;
        self.step();
        Some(Some(minutes))
    }

    // The zone after a sign: four digits.
    fn read_signed_zone(&mut self, minus: bool) -> Option<Option<i16>>
        ensures { Reads (zone_signed (pick minus behind ahead) self.old) result self.new }
    {
        let run = self.read_digits()?;
        if run.count != 4 {
            return None;
        }
        Some(offset_of(minus, run.value))
    }

    // The zone: a sign and four digits, or a name before which a "-" may stand. Its offset may be out of range.
    fn read_zone(&mut self) -> Option<Option<i16>>
        ensures { Reads (zone_of self.old) result self.new }
    {
        if self.past(Key::Plus) {
            return self.read_signed_zone(false);
        }
        if self.past(Key::Minus) && self.sees(Key::Digits) {
            return self.read_signed_zone(true);
        }
        self.read_named_zone()
    }

    // The day's name and a comma, or neither.
    fn read_day_name(&mut self) -> Option<Option<usize>>
        ensures { Reads (day_name_of self.old) result self.new }
    {
        let name = self.read_name(&DAYS);
        if name.is_some() && !self.past(Key::Comma) {
            return None;
        }
        Some(name)
    }

    // The day of the month.
    fn read_day(&mut self) -> Option<u64>
        ensures { Reads (day_of self.old) result self.new }
    {
        let run = self.read_digits()?;
        match run.count {
            1 | 2 => Some(run.value),
            _ => None,
        }
    }

    // The year: of two digits, one of the years from 1900 on.
    fn read_year(&mut self) -> Option<u64>
        ensures { Reads (year_of self.old) result self.new }
    {
        let run = self.read_digits()?;
        match run.count {
            2 => Some(run.value + 1900),
            4 => Some(run.value),
            _ => None,
        }
    }

    // The date that the parts write.
    fn read_date(&mut self) -> Option<Written>
        ensures { result ≡ reading_of self.old }
    {
        let name = self.read_day_name()?;
        let day = self.read_day()?;
        self.past(Key::Minus);
        let month = self.read_name(&MONTHS)?;
        self.past(Key::Minus);
        let year = self.read_year()?;
        let time = self.read_time()?;
        let zone = self.read_zone()?;
        if !self.is_done() {
            return None;
        }
        Some(Written {
            name,
            day: Day { year, month, day },
            time,
            zone,
        })
    }
}

// The date that a text writes from a position on.
pub(crate) fn read_form(classes: &[u8; 256], text: &[u8], at: usize) -> Option<Written>
    requires { at ≤ length text.now }
    ensures { result ≡ reading_of (left classes.now text.now at at) }
{
    Cursor::new(classes, text, at).read_date()
}

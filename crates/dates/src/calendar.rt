// The Gregorian calendar by arithmetic. Months count from 0.
ghost use Rattle.std.specs.Prelude.{◌≡◌, ◌-◌, ◌≤◌, ◌<◌};
ghost use Rattle.dates.specs.Believed.Calendar.{leap, month_length, days_before_month, days_of_years, day_number};
ghost use Rattle.dates.specs.Believed.Answers.{day_exists};
ghost use Rattle.dates.specs.Ties.Moment.{InCalendar};

// A day by its numbers, be it one of the calendar or not.
#[derive(Clone, Copy)]
pub(crate) struct Day {
    pub year: u64,
    pub month: usize,
    pub day: u64,
}

const FEBRUARY: usize = 1;

// The days of each month, and of a year before it. A leap day comes on top.
const LENGTHS: [u64; 12] = [31, 28, 31, 30, 31, 30, 31, 31, 30, 31, 30, 31];

const BEFORE: [u64; 12] = [0, 31, 59, 90, 120, 151, 181, 212, 243, 273, 304, 334];

// Whether a year is a leap year.
fn is_leap(year: u64) -> bool
    ensures { result ≡ leap year }
{
    if year % 100 == 0 {
        year % 400 == 0
    } else {
        year % 4 == 0
    }
}

// The days of a month.
fn month_length(year: u64, month: usize) -> u64
    ensures { result ≡ month_length year month }
{
    let leap_day = month == FEBRUARY && is_leap(year);
    LENGTHS.get(month).copied().unwrap_or(0) + u64::from(leap_day)
}

// The days of a year before a month.
fn before_month(year: u64, month: usize) -> u64
    requires { month < 12 }
    ensures { (result ≡ days_before_month year month) × (result < 366) }
{
    let leap_day = month > FEBRUARY && is_leap(year);
    BEFORE[month] + u64::from(leap_day)
}

// The days from 1 January 1900 to 1 January of a year.
fn before_year(year: u64) -> u64
    requires { (1900 ≤ year) × (year < 10000) }
    ensures { (result ≡ days_of_years (year - 1900)) × (result < 4000000) }
{
    let last = year - 1;
    (year - 1900) * 365 + (last / 4 + last / 400) - last / 100 - 460
}

impl Day {
    // Whether the calendar has it, in the years 1900 to 9999.
    pub(crate) fn exists(self) -> bool
        ensures { result ≡ day_exists self.year self.month self.day }
    {
        (1900..=9999).contains(&self.year)
            && 1 <= self.day
            && self.day <= month_length(self.year, self.month)
    }

    // The days from 1 January 1900 to it.
    pub(crate) fn number(self) -> u64
        requires { InCalendar self.year self.month self.day }
        ensures { (result ≡ day_number self.year self.month self.day) × (result < 5000000) }
    {
        before_year(self.year) + before_month(self.year, self.month) + (self.day - 1)
    }
}

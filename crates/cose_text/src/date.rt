//! Dates in the form of RFC 3339, in UTC.

ghost use Rattle.std.specs.Prelude.{◌≡◌, IfSome, Some};
ghost use Rattle.cose_text.specs.Date.{IsDateOf, date_of, date_text, four_digits, full_date, is_leap, month_from, month_length, partial_time, seconds_from_zero, two_digits, year_from, year_length};

use std::fmt;

/// The seconds from the beginning of the year 0 to that of 1970.
const EPOCH: u128 = 62_167_219_200;

/// The seconds of a day. Leap seconds aren't counted.
const DAY: u128 = 86_400;

/// The first year that has more than four digits.
const YEARS: u16 = 10_000;

/// A date and a time of day in UTC, in the proleptic Gregorian calendar.
#[derive(Clone, Copy, Debug, PartialEq, Eq)]
pub struct Date {
    /// The year, below 10,000.
    pub year: u16,
    /// The month, from 1 to 12.
    pub month: u8,
    /// The day of the month, from 1 on.
    pub day: u8,
    /// The hour, below 24.
    pub hour: u8,
    /// The minute, below 60.
    pub minute: u8,
    /// The second, below 60.
    pub second: u8,
}

/// A number below 10,000 in four digits.
#[derive(Clone, Copy)]
struct FourDigits(u16);

/// A number below 100 in two digits.
#[derive(Clone, Copy)]
struct TwoDigits(u8);

/// The year, the month and the day of a date.
#[derive(Clone, Copy)]
struct FullDate(Date);

/// The hour, the minute and the second of a date.
#[derive(Clone, Copy)]
struct PartialTime(Date);

/// Whether a year has a 29 February (RFC 3339, Appendix C).
fn is_leap_year(year: u16) -> bool
    ensures { result ≡ is_leap year }
{
    year % 4 == 0 && (year % 100 != 0 || year % 400 == 0)
}

/// The number of days of a year.
fn days_of_year(year: u16) -> u128
    ensures { result ≡ year_length year }
{
    if is_leap_year(year) {
        return 366;
    }
    365
}

/// The number of days of a month (RFC 3339 section 5.7).
fn days_of_month(year: u16, month: u8) -> u8
    ensures { result ≡ month_length year month }
{
    match month {
        2 => {
            if is_leap_year(year) {
                return 29;
            }
            28
        }
        4 | 6 | 9 | 11 => 30,
        _ => 31,
    }
}

/// The year of a day that is counted from the first of the year 0, and the days before it in this year.
fn year_of(day: u128) -> Option<(u16, u128)>
    ensures { result ≡ year_from 10000 0 day }
{
    let mut left = day;
    'years: for year in 0..YEARS {
        let length = days_of_year(year);
        if left < length {
            return Some((year, left));
        }
        left -= length;
    }
    None
}

/// The month of a day of a year that is counted from 0, and the day of this month, from 1 on.
fn month_of(year: u16, day: u128) -> Option<(u8, u8)>
    ensures { result ≡ month_from 12 year 1 day }
{
    let mut left = day;
    'months: for month in 1..13 {
        let length = u128::from(days_of_month(year, month));
        if left < length {
            return Some((month, left as u8 + 1));
        }
        left -= length;
    }
    None
}

/// The seconds since the year 0, of a number of seconds since 1970.
fn since_year_zero(seconds: i128) -> Option<u128>
    ensures { result ≡ seconds_from_zero seconds }
{
    if seconds < 0 {
        return EPOCH.checked_sub(seconds.unsigned_abs());
    }
    Some(EPOCH + seconds.unsigned_abs())
}

impl Date {
    /// The date of a number of seconds since 1970-01-01T00:00:00Z (NumericDate, RFC 8392 section 2), where its year is one
    /// from 0000 to 9999.
    pub fn of(seconds: i128) -> Option<Date>
        ensures exact { result ≡ date_of seconds }
        // It is a date of the calendar, and so many seconds are before it.
        ensures calendar { IfSome result (IsDateOf seconds) }
    {
        let seconds = since_year_zero(seconds)?;
        let (year, day) = year_of(seconds / DAY)?;
        let (month, day) = month_of(year, day)?;
        let second = seconds % DAY;
        Some(Date {
            year,
            month,
            day,
            hour: (second / 3_600) as u8,
            minute: (second / 60 % 60) as u8,
            second: (second % 60) as u8,
        })
    }
}

impl fmt::Display for FourDigits {
    ghost output = { λ number. Some (four_digits number.0) };

    #[tactic(auto, unfolding(crate::specs::Date::four_digits))]
    fn fmt<W: fmt::Write>(&self, f: &mut fmt::Formatter<W>) -> fmt::Result {
        let thousands = self.0 / 1_000;
        let hundreds = self.0 / 100 % 10;
        let tens = self.0 / 10 % 10;
        let ones = self.0 % 10;
        write!(f, "{thousands}{hundreds}{tens}{ones}")
    }
}

impl fmt::Display for TwoDigits {
    ghost output = { λ number. Some (two_digits number.0) };

    #[tactic(auto, unfolding(crate::specs::Date::two_digits))]
    fn fmt<W: fmt::Write>(&self, f: &mut fmt::Formatter<W>) -> fmt::Result {
        let tens = self.0 / 10;
        let ones = self.0 % 10;
        write!(f, "{tens}{ones}")
    }
}

impl fmt::Display for FullDate {
    ghost output = { λ date. Some (full_date date.0) };

    #[tactic(auto, unfolding(crate::specs::Date::full_date))]
    fn fmt<W: fmt::Write>(&self, f: &mut fmt::Formatter<W>) -> fmt::Result {
        let year = FourDigits(self.0.year);
        let month = TwoDigits(self.0.month);
        let day = TwoDigits(self.0.day);
        write!(f, "{year}-{month}-{day}")
    }
}

impl fmt::Display for PartialTime {
    ghost output = { λ date. Some (partial_time date.0) };

    #[tactic(auto, unfolding(crate::specs::Date::partial_time))]
    fn fmt<W: fmt::Write>(&self, f: &mut fmt::Formatter<W>) -> fmt::Result {
        let hour = TwoDigits(self.0.hour);
        let minute = TwoDigits(self.0.minute);
        let second = TwoDigits(self.0.second);
        write!(f, "{hour}:{minute}:{second}")
    }
}

impl fmt::Display for Date {
    ghost output = { λ date. Some (date_text date) };

    fn fmt<W: fmt::Write>(&self, f: &mut fmt::Formatter<W>) -> fmt::Result {
        let day = FullDate(*self);
        let time = PartialTime(*self);
        write!(f, "{day}T{time}Z")
    }
}

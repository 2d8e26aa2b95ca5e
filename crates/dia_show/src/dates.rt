//! Time as a date and a time of day.
ghost use Rattle.std.specs.Prelude.{◌≡◌, ◌<◌, ◌≤◌, ◌+◌, ◌^◌, ◌++◌, OnOk};
ghost use Rattle.dia_show.specs.Dates.{seconds_of, even_days, year_of_four, year_of, leap_day, day_of_year, month_at};
ghost use Rattle.dia_show.specs.Dates.{two_digits, date_text, clock_text, utc_text, time_text};

use base_text::put_number;
use std::alloc::AllocError;

/// Days from 1 January 1900 to 1 March 2100.
const MARCH_2100: u32 = 73_108;

const DAY: u64 = 86_400;

// Seconds since 1900. Numbers without the high bit begin anew on 7 February 2036 (RFC 5905 section 6).
fn seconds_of(number: u32) -> u64
    ensures is { result ≡ seconds_of number }
    ensures from { 2 ^ 31 ≤ result }
    ensures to { result < 2 ^ 31 + 2 ^ 32 }
{
    if number < 0x8000_0000 {
        return u64::from(number) + 0x1_0000_0000;
    }
    u64::from(number)
}

fn even_days(days: u32) -> u32
    requires { days < 80000 }
    ensures { result ≡ even_days days }
{
    if days < MARCH_2100 { days } else { days + 1 }
}

fn leap_day(year: u32, day: u32) -> u32
    requires { day < 366 }
    ensures is { result ≡ leap_day year day }
    ensures within { result < 367 }
{
    if year >= 3 || day < 59 { day } else { day + 1 }
}

// The year, and the day in a leap year.
fn year_and_day(days: u32) -> (u32, u32)
    requires from { 365 ≤ days }
    requires to { days < 80000 }
    ensures year { result.0 ≡ year_of days }
    ensures day { result.1 ≡ day_of_year days }
    ensures within { result.1 < 367 }
{
    let behind_1901 = even_days(days) - 365;
    let day_of_four = behind_1901 % 1461;
    let year_of_four = (day_of_four / 365).min(3);
    (
        1901 + behind_1901 / 1461 * 4 + year_of_four,
        leap_day(year_of_four, day_of_four - year_of_four * 365),
    )
}

// The month, and the day of the leap year on which it began.
#[tactic(auto, unfolding(crate::specs::Dates::month_at))]
fn month_at(day: u32) -> (u32, u32)
    requires { day < 367 }
    ensures is { result ≡ month_at day }
    ensures began { result.1 ≤ day }
    ensures long { day < result.1 + 32 }
    ensures month { result.0 ≤ 12 }
{
    match day {
        335.. => (12, 335),
        305.. => (11, 305),
        274.. => (10, 274),
        244.. => (9, 244),
        213.. => (8, 213),
        182.. => (7, 182),
        152.. => (6, 152),
        121.. => (5, 121),
        91.. => (4, 91),
        60.. => (3, 60),
        31.. => (2, 31),
        _ => (1, 0),
    }
}

fn put_two_digits(out: &mut Vec<u8>, number: u32) -> Result<(), AllocError>
    requires { number < 100 }
    ensures { OnOk result (out.new.items ≡ out.old.items ++ two_digits number) }
{
    out.extend_from_slice(&[b'0' + (number / 10) as u8, b'0' + (number % 10) as u8])
}

fn put_date(out: &mut Vec<u8>, days: u32) -> Result<(), AllocError>
    requires from { 365 ≤ days }
    requires to { days < 80000 }
    ensures { OnOk result (out.new.items ≡ out.old.items ++ date_text days) }
{
    let (year, day) = year_and_day(days);
    let (month, began) = month_at(day);
    put_number(out, b"", u64::from(year))?;
    out.extend_from_slice(b"-")?;
    put_two_digits(out, month)?;
    out.extend_from_slice(b"-")?;
    put_two_digits(out, day - began + 1)
}

fn put_clock(out: &mut Vec<u8>, seconds: u32) -> Result<(), AllocError>
    requires { seconds < 86400 }
    ensures { OnOk result (out.new.items ≡ out.old.items ++ clock_text seconds) }
{
    out.extend_from_slice(b"T")?;
    put_two_digits(out, seconds / 3600)?;
    out.extend_from_slice(b":")?;
    put_two_digits(out, seconds / 60 % 60)?;
    out.extend_from_slice(b":")?;
    put_two_digits(out, seconds % 60)?;
    out.extend_from_slice(b"Z")
}

/// Puts the date and the time of day in UTC that a Time's number is (RFC 6733 section 4.3.1).
/// A number below 2^31 is one after 7 February 2036, 06:28:16, up to 2104.
pub fn put_utc(out: &mut Vec<u8>, number: u32) -> Result<(), AllocError>
    ensures { OnOk result (out.new.items ≡ out.old.items ++ utc_text number) }
{
    let seconds = seconds_of(number);
    put_date(out, (seconds / DAY) as u32)?;
    put_clock(out, (seconds % DAY) as u32)
}

/// Puts a Time: its number, and behind one blank its date and time of day as `put_utc` puts them.
pub fn put_time(out: &mut Vec<u8>, number: u32) -> Result<(), AllocError>
    ensures { OnOk result (out.new.items ≡ out.old.items ++ time_text number) }
{
    put_number(out, b"", u64::from(number))?;
    out.extend_from_slice(b" ")?;
    put_utc(out, number)
}

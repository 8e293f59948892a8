//! Times as text, in UTC.

ghost use Rattle.std.specs.Prelude.{◌≡◌, ◌≤◌, ℕ, pos};
ghost use Rattle.krb_wire.specs.Text.{Appended};
ghost use Rattle.krb_text.specs.Calendar.{Day, day_number, day_text, time_text_of, digit};

use crate::bytes::append;
use jiff::civil::Date;
use jiff_core::civil;
use krb_wire::NoMemory;
use std::alloc::Allocator;

// Returns the date `days` days after 1970-01-01, up to the last day that 32-bit seconds reach. Adding a span of days
// to the first date would take eight times the instructions.
#[tactic(auto, using(crate::proofs::Numbering::same_day))]
fn date_of(days: u32) -> Date
    requires { days ≤ 49_710 }
    ensures year { result.year ≡ pos (day_number days).year }
    ensures month { result.month ≡ (day_number days).month }
    ensures day { result.day ≡ (day_number days).day }
{
    Date::from_plain(civil::Date::from_unix_epoch_day(days as i64).unwrap())
}

// Returns the last decimal digit, in ASCII.
fn digit_of(n: u32) -> u8
    ensures { result ≡ digit n }
{
    b'0' + (n % 10) as u8
}

// Returns the text of the first second of the day `days` days after 1970-01-01.
fn midnight(days: u32) -> [u8; 20]
    requires { days ≤ 49_710 }
    ensures { result ≡ day_text (day_number days) 0 }
{
    let date = date_of(days);
    let year = date.year().unsigned_abs();
    let (month, day) = (date.month().unsigned_abs(), date.day().unsigned_abs());
    let mut text = *b"....-..-..T00:00:00Z";
    text[..10].copy_from_slice(&[
        digit_of(year as u32 / 1000),
        digit_of(year as u32 / 100),
        digit_of(year as u32 / 10),
        digit_of(year as u32),
        b'-',
        digit_of(month as u32 / 10),
        digit_of(month as u32),
        b'-',
        digit_of(day as u32 / 10),
        digit_of(day as u32),
    ]);
    text
}

// Returns the text of another second of the same day, from the text of any second of it.
fn at_second(day: &[u8; 20], second: u32) -> [u8; 20]
    ensures { (d : Day) (other : ℕ) → day.now ≡ day_text d other → result ≡ day_text d second }
{
    let mut text = *day;
    text[11..].copy_from_slice(&[
        digit_of(second / 3600 / 10),
        digit_of(second / 3600),
        b':',
        digit_of(second / 60 % 60 / 10),
        digit_of(second / 60 % 60),
        b':',
        digit_of(second % 60 / 10),
        digit_of(second % 60),
        b'Z',
    ]);
    text
}

/// A cache of the last time that was formatted. The next time in a file is often the same, or on the same day.
#[derive(Drop)]
pub struct LastTime {
    seconds: u32,
    text: [u8; 20],
    ghost spelled: { text ≡ time_text_of seconds },
}

impl LastTime {
    /// Returns a cache that holds 1970-01-01T00:00:00Z.
    pub fn new() -> LastTime {
        LastTime {
            seconds: 0,
            text: *b"1970-01-01T00:00:00Z",
        }
    }

    // Returns the text of some second of that day.
    fn text_of_day(&self, days: u32) -> [u8; 20]
        requires { days ≤ 49_710 }
        ensures { (second : ℕ) × (result ≡ day_text (day_number days) second) }
    {
        if days == self.seconds / 86_400 {
            self.text
        } else {
            midnight(days)
        }
    }

    fn turn_to(&mut self, seconds: u32)
        ensures { self.new.seconds ≡ seconds }
    {
        let day = self.text_of_day(seconds / 86_400);
        *self = LastTime {
            seconds,
            text: at_second(&day, seconds % 86_400),
        };
    }

    /// Appends the same text as `time_text`, and remembers it.
    pub fn append_seconds<A: Allocator>(
        &mut self,
        seconds: u32,
        out: &mut Vec<u8, A>,
    ) -> Result<(), NoMemory>
        ensures { Appended (time_text_of seconds) out.old out.new result }
    {
        if seconds != self.seconds {
            self.turn_to(seconds);
        }
        append(&self.text, out)
    }
}

/// Appends the time `seconds` seconds after 1970-01-01T00:00:00Z, e.g. `2023-11-14T22:13:20Z`.
pub fn time_text<A: Allocator>(seconds: u32, out: &mut Vec<u8, A>) -> Result<(), NoMemory>
    ensures { Appended (time_text_of seconds) out.old out.new result }
{
    LastTime::new().append_seconds(seconds, out)
}

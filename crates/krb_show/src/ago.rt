//! Times relative to the clock.

ghost use Rattle.std.specs.Prelude.{◌≡◌, ◌<◌};
ghost use Rattle.krb_wire.specs.Text.{AppendedPart};
ghost use Rattle.krb_show.specs.Ago.{ago, ahead, in_unit, rest, span, time_cell, unit_within};

use krb_text::{append, append_labelled};
use krb_wire::NoMemory;
use std::alloc::Allocator;

const YEAR: u32 = 31_536_000;

const DAY: u32 = 86_400;

const HOUR: u32 = 3600;

const MINUTE: u32 = 60;

// Returns the greatest unit of at most that many seconds, or the second: its seconds, and the end of a text in it.
fn unit_within(most: u32) -> (u32, &'static [u8])
    ensures seconds { result.0 ≡ (unit_within most).0 }
    ensures word { result.1.now ≡ (unit_within most).1 }
    ensures positive { 0 < result.0 }
{
    if most >= YEAR {
        (YEAR, b" y")
    } else if most >= DAY {
        (DAY, b" d")
    } else if most >= HOUR {
        (HOUR, b" h")
    } else if most >= MINUTE {
        (MINUTE, b" min")
    } else {
        (1, b" s")
    }
}

fn append_in<A: Allocator>(
    unit: (u32, &'static [u8]),
    seconds: u32,
    out: &mut Vec<u8, A>,
) -> Result<(), NoMemory>
    requires { 0 < unit.0 }
    ensures { AppendedPart (in_unit (unit.entry.0, unit.entry.1.now) seconds) out.old out.new result }
{
    append_labelled(b"", seconds / unit.0, out)?;
    append(unit.1, out)
}

#[tactic(auto, unfolding(crate::specs::Ago::span))]
fn append_span<A: Allocator>(seconds: u32, out: &mut Vec<u8, A>) -> Result<(), NoMemory>
    ensures { AppendedPart (span seconds) out.old out.new result }
{
    append_in(unit_within(seconds / 2), seconds, out)
}

// Appends what a unit leaves of some seconds, in the next smaller one.
#[tactic(auto, unfolding(crate::specs::Ago::rest))]
fn append_rest<A: Allocator>(unit: u32, seconds: u32, out: &mut Vec<u8, A>) -> Result<(), NoMemory>
    requires { 0 < unit }
    ensures { AppendedPart (rest unit seconds) out.old out.new result }
{
    let smaller = unit_within(unit - 1);
    if seconds / unit >= 10 || seconds % unit < smaller.0 {
        return Ok(());
    }
    append(b" ", out)?;
    append_in(smaller, seconds % unit, out)
}

// Appends a time to come.
fn append_ahead<A: Allocator>(seconds: u32, out: &mut Vec<u8, A>) -> Result<(), NoMemory>
    ensures { AppendedPart (ahead seconds) out.old out.new result }
{
    append(b"in ", out)?;
    append_span(seconds, out)?;
    append_rest(unit_within(seconds / 2).0, seconds, out)
}

/// Appends how long ago a time is, or how far ahead.
pub fn append_ago<A: Allocator>(now: u32, time: u32, out: &mut Vec<u8, A>) -> Result<(), NoMemory>
    ensures { AppendedPart (ago now time) out.old out.new result }
{
    if time == now {
        return append(b"now", out);
    }
    if time < now {
        append_span(now - time, out)?;
        return append(b" ago", out);
    }
    append_ahead(time - now, out)
}

/// Appends the same, or `-` for the time 0.
pub fn append_time<A: Allocator>(now: u32, time: u32, out: &mut Vec<u8, A>) -> Result<(), NoMemory>
    ensures { AppendedPart (time_cell now time) out.old out.new result }
{
    if time == 0 {
        return append(b"-", out);
    }
    append_ago(now, time, out)
}

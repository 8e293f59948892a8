//! The requests in the lines of a script of a cache: events, and configuration values to set.

ghost use Rattle.krb_text.specs.LineFault.{Reads};
ghost use Rattle.krb_cache_text.specs.Script.{cache_line_in};

use crate::setting::{OwnedSetting, parse_setting};
use krb_ccache::Cred;
use krb_keytab_text::{ScriptLine, common_event};
use krb_text::{LineFault, LineRefusal, Words};
use krb_walk::Event;
use std::alloc::Allocator;

/// The request in a line of a script: an event, or a value to set.
#[derive(Drop)]
pub enum Request<I, S> {
    Event(Event<I>),
    Setting(S),
}

/// The request in a line of a script of a cache.
pub type CacheLine<A> = Request<Cred<A>, OwnedSetting<A>>;

// Returns the request in a line.
fn parse_cache_line<A: Allocator + Copy>(alloc: A, line: &[u8]) -> Result<CacheLine<A>, LineRefusal>
    ensures { Reads (λ request. request) (cache_line_in line.now) result }
{
    let mut words = Words::of(line);
    let word = words.next().ok_or(LineFault::UnknownWord)?;
    if word == b"config".as_slice() {
        return Ok(Request::Setting(parse_setting(alloc, words)?));
    }
    Ok(Request::Event(common_event(word, words)?))
}

impl<A: Allocator + Copy> ScriptLine<A> for Request<Cred<A>, OwnedSetting<A>> {
    ghost line_in = { cache_line_in };

    fn parse(alloc: A, line: &[u8]) -> Result<CacheLine<A>, LineRefusal> {
        parse_cache_line(alloc, line)
    }
}

//! The words of ktmatch, and its options.

ghost use Rattle.krb_driver.specs.Spelled.{ReadsAs};
ghost use Rattle.krb_readers.specs.KtmatchWords.{ticket_match_of};

use krb_driver::{
    CommandName, CommandWords, Matches, OF_PATTERN, V1_BIG, Word, WordFault, spelled_asked,
    v1_order,
};
use krb_names::AskedNames;
use krb_wire::Order;
use std::alloc::{Allocator, Global};
use std::marker::Model;

/// The words of ktmatch.
pub const KTMATCH: CommandWords = CommandWords {
    command: CommandName::Ktmatch,
    name: "ktmatch",
    about: "Says whether a keytab opens tickets",
    usage: "krbfile ktmatch [--v1-big] [-q] [-H] [--json] [-p NAME].. [--match PATTERN].. KEYTAB [CACHE..]",
    after_help: Some(
        "\
Without CACHE it takes the cache that KRB5CCNAME names, else /tmp/krb5cc_UID.
A line for each ticket; the status is 1 for unread, name, kvno, etype and a fault:
  user    No keytab opens it: it is under another ticket's session key
  unread  It is not in Kerberos' form
  name    The keytab has no entry of its name
  kvno    The keytab has other versions of its name
  etype   The keytab has no key of its type in its version
  opens   An entry has its name, version and type
Statuses:
  0  The keytab opens the tickets that it could
  1  It does not open one, there is none, or a file is missing, too large, damaged or of another kind
  2  The command line is bad
  3  A file or the output failed
  4  Out of memory
Example: whether a service can open the tickets of a cache
  krbfile ktmatch krb5.keytab alice.ccache",
    ),
    words: &[
        V1_BIG,
        Word::Flag("quiet", 'q', "Print only what counts for the status"),
        Word::Flag(
            "with-filename",
            'H',
            "Begin lines with the name of the cache, of one too",
        ),
        Word::LongFlag("json", "Print each cache as one JSON object"),
        Word::Valued(
            "principal",
            'p',
            "NAME",
            "Tickets for that name, with its realm; may be repeated",
        ),
        OF_PATTERN,
        Word::Operand("KEYTAB", "The keytab of the service"),
        Word::Operands("CACHE", "The caches whose tickets to match"),
    ],
};

/// What ktmatch is asked for.
#[derive(Drop)]
pub struct MatchOptions<A: Allocator> {
    /// The byte order of version 1 keytabs.
    pub v1_order: Order,
    /// Print only what counts for the status.
    pub quiet: bool,
    /// Print each cache as one JSON object.
    pub json: bool,
    /// Lines begin with the name of their cache, of one cache too.
    pub with_filename: bool,
    /// The names of the tickets to look at; those of services if any is asked for.
    pub names: AskedNames<A>,
}

impl<A: Allocator> Model for MatchOptions<A> {
    ghost use Rattle.krb_readers.specs.KtmatchWords.{TicketMatch};

    ghost Value = { TicketMatch };

    ghost view = { λ o. record {
      v1_order = o.v1_order;
      quiet = o.quiet;
      json = o.json;
      with_filename = o.with_filename;
      names = o.names;
    } };
}

/// Returns the options of ktmatch. Refuses a bad name or pattern.
pub fn match_options<'a, M: Matches<'a>>(
    alloc: Global,
    matches: &M,
) -> Result<MatchOptions<Global>, WordFault<'a>>
    ensures { ReadsAs (ticket_match_of (M.matched matches.now)) result }
{
    let names = spelled_asked(alloc, matches, "principal")?;
    Ok(MatchOptions {
        v1_order: v1_order(matches),
        quiet: matches.flag("quiet"),
        json: matches.flag("json"),
        with_filename: matches.flag("with-filename"),
        names: names?,
    })
}

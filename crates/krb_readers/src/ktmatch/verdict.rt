//! What a keytab says of a cache's tickets: its lines, and its verdict.

ghost use Rattle.std.specs.Prelude.{◌≡◌, ◌++◌, OnOk};
ghost use Rattle.krb_audit.specs.Report.{labelled_fault};
ghost use Rattle.krb_readers.specs.Ktmatch.{are_wrong, judged_of, line_of, lines_of, is_shown, sought, words_of, words_shown, words_with};

use crate::ktmatch::state::MatchState;
use crate::ktmatch::words::MatchOptions;
use krb_driver::{Judged, TicketsSought};
use krb_findings::FindingSet;
use krb_match::{Judgement, Matched, MatchedTicket, append_matched};
use krb_text::{append, append_fault_line};
use krb_walk::Fault;
use krb_wire::NoMemory;
use std::alloc::Allocator;

// Returns whether a ticket has a line.
fn is_shown(quiet: bool, judgement: &Judgement) -> bool
    ensures { result ≡ is_shown quiet judgement.now }
{
    !quiet || judgement.is_wrong()
}

// Appends the line of a ticket after a label, unless it is left out.
fn append_line<A: Allocator, B: Allocator>(
    quiet: bool,
    label: &[u8],
    ticket: &MatchedTicket<B>,
    out: &mut Vec<u8, A>,
) -> Result<(), NoMemory>
    ensures { OnOk result (out.new.items ≡ out.old.items ++ line_of quiet label.now ticket.now) }
{
    if !is_shown(quiet, &ticket.judgement) {
        return Ok(());
    }
    append(label, out)?;
    append_matched(ticket, out)
}

// Appends the line of the fault after a label, if there is one.
fn append_fault<A: Allocator>(
    label: &[u8],
    fault: Option<Fault>,
    out: &mut Vec<u8, A>,
) -> Result<(), NoMemory>
    ensures { OnOk result (out.new.items ≡ out.old.items ++ labelled_fault label.now fault) }
{
    if fault.is_some() {
        append(label, out)?;
    }
    append_fault_line(fault, out)
}

/// Appends the lines of tickets and of the fault, each after a label.
pub fn append_lines<A: Allocator, B: Allocator>(
    quiet: bool,
    label: &[u8],
    tickets: &[MatchedTicket<B>],
    fault: Option<Fault>,
    out: &mut Vec<u8, A>,
) -> Result<(), NoMemory>
    ensures { OnOk result (out.new.items ≡ out.old.items ++ lines_of quiet label.now tickets.now fault) }
{
    'tickets: for ticket in tickets {
        append_line(quiet, label, ticket, out)?;
    }
    append_fault(label, fault, out)
}

// Returns words, and that of one more ticket, if it is shown.
fn words_with(words: FindingSet, quiet: bool, judgement: &Judgement) -> FindingSet
    ensures { result ≡ words_with words quiet judgement.now }
{
    match judgement.finding() {
        Some(finding) => words.with_if(!quiet || finding.row().counts, finding),
        None => words,
    }
}

// Returns the words of tickets that are shown.
fn words_of<B: Allocator>(quiet: bool, tickets: &[MatchedTicket<B>]) -> FindingSet
    ensures { result ≡ words_of quiet tickets.now }
{
    let mut words = FindingSet::none();
    'tickets: for ticket in tickets {
        words = words_with(words, quiet, &ticket.judgement);
    }
    words
}

// Returns whether a ticket among them counts for the status.
fn are_wrong<B: Allocator>(tickets: &[MatchedTicket<B>]) -> bool
    ensures { result ≡ are_wrong tickets.now }
{
    tickets.iter().any(|ticket| ticket.judgement.is_wrong())
}

/// Returns which tickets are sought.
pub fn sought<B: Allocator>(options: &MatchOptions<B>) -> TicketsSought
    ensures { result ≡ sought options.now }
{
    if options.names.is_any() {
        TicketsSought::OfServices
    } else {
        TicketsSought::Asked
    }
}

// Returns the words of what is shown: of JSON all, or none if its object is left out.
fn words_shown<A: Allocator, B: Allocator>(
    options: &MatchOptions<B>,
    is_wrong: bool,
    tickets: &[MatchedTicket<A>],
) -> FindingSet
    ensures { result ≡ words_shown options.now is_wrong tickets.now }
{
    if options.json && options.quiet && !is_wrong {
        return FindingSet::none();
    }
    words_of(options.quiet && !options.json, tickets)
}

/// Returns the verdict on the tickets of a cache with that fault, if that is known of the caches before.
pub fn judged_of<A: Allocator, B: Allocator>(
    options: &MatchOptions<B>,
    are_several: bool,
    before: MatchState,
    matched: &Matched<A>,
    fault: Option<Fault>,
) -> Judged
    ensures { result ≡ judged_of options.now are_several before matched.now.tickets.items matched.now.near fault }
{
    let is_without = matched.tickets.is_empty();
    let is_alone = is_without && !are_several;
    let is_wrong = are_wrong(&matched.tickets) || fault.is_some() || is_alone;
    Judged {
        words: words_shown(options, is_wrong, &matched.tickets).without(before.explained),
        near: if before.is_named { None } else { matched.near },
        fault,
        is_wrong,
        is_without,
    }
}

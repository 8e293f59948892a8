//! The words that explain how a run ended.

ghost use Rattle.std.specs.Prelude.{◌≡◌};
ghost use Rattle.krb_driver.specs.EndingWords.{ending_words, itemized_words, failure_words, hidden_words_of, reported_words, found_fault_words, found_words, word_line};
ghost use Rattle.krb_driver.specs.Runs.{Adds};
ghost use Rattle.std.specs.List.{flat_map};
ghost use Rattle.krb_driver.specs.Messages.{pieces_text};

use crate::error::RunError;
use crate::reporting::details::About;
use crate::reporting::hints::add_hints;
use crate::reporting::lines::{Line, line, nothing, numbered_line};
use crate::reporting::name_words::hidden_words;
use crate::reporting::piece::MessagePiece::Text;
use crate::reporting::piece::{COLON, END, HEAD};
use crate::reporting::reported::{Failure, Reported};
use crate::reporting::row::refusal_phrase;
use crate::reporting::words::{error_words, listed_words, verdict_words};
use crate::reporting::writing::{Gathered, add_line};
use crate::verdict::{FileKind, Findings, Verdict};
use krb_files::Watched;
use krb_findings::{ABOUT_TICKETS, FINDINGS, Finding, FindingSet};
use krb_walk::Fault;
use std::io::Write;

// Adds the words for what replies report, or for findings.
fn add_items<E: Write>(verdict: Verdict, file: &[u8], gathered: &mut Gathered, err: &mut Watched<E>)
    ensures { Adds err.old gathered.old.items err.new gathered.new.items (itemized_words file.now verdict) }
{
    match verdict {
        Verdict::Replied(reported) => add_replies(&reported, file, gathered, err),
        Verdict::Found(findings) => add_findings(&findings, file, gathered, err),
        Verdict::Judged(judged) => {
            add_word_lines(&ABOUT_TICKETS, judged.words, gathered, err);
        },
        _ => return,
    }
}

/// Adds the words that explain the end of a run.
#[tactic(auto, unfolding(crate::specs::EndingWords::ending_words))]
pub fn add_ending_words<E: Write>(
    ending: Result<Verdict, RunError>,
    about: About<'_>,
    gathered: &mut Gathered,
    err: &mut Watched<E>,
)
    ensures { Adds err.old gathered.old.items err.new gathered.new.items
        (ending_words about.entry.file.now about.entry.line about.entry.details ending) }
{
    match ending {
        Ok(verdict) => {
            add_line(
                &verdict_words(verdict, about.file, about.line),
                gathered,
                err,
            );
            add_items(verdict, about.file, gathered, err);
        }
        Err(error) => add_line(&error_words(error, about), gathered, err),
    }
}

// Returns the line for a failure: its number and its phrase.
fn failure_line(kind: FileKind, failure: Option<Failure>) -> Line<'static>
    ensures { pieces_text result.items ≡ failure_words kind failure }
{
    match failure {
        None => nothing(),
        Some(Failure::Refused(code)) => {
            let phrase = refusal_phrase(kind, code);
            numbered_line("krbfile: refused ", code.number(), phrase)
        }
        Some(Failure::Faulted(fault)) => {
            numbered_line("krbfile: fault ", fault.number(), fault.phrase())
        }
    }
}

#[tactic(auto, using(crate::proofs::Shown::adds_piece))]
fn add_failures<E: Write>(
    kind: FileKind,
    failures: &[Option<Failure>],
    gathered: &mut Gathered,
    err: &mut Watched<E>,
)
    ensures { Adds err.old gathered.old.items err.new gathered.new.items (flat_map (failure_words kind) failures.now) }
{
    'failures: for failure in failures {
        add_line(&failure_line(kind, *failure), gathered, err);
    }
}

// Returns the words for what is hidden, if something is.
fn hidden_words_of(file: &[u8], hidden_from: Option<u32>) -> Line<'_>
    ensures { pieces_text result.items ≡ hidden_words_of file.now hidden_from }
{
    match hidden_from {
        Some(place) => hidden_words(file, None, place),
        None => nothing(),
    }
}

/// Adds the words that explain what replies about a file report, each number once.
pub fn add_replies<E: Write>(
    reported: &Reported,
    file: &[u8],
    gathered: &mut Gathered,
    err: &mut Watched<E>,
)
    ensures { Adds err.old gathered.old.items err.new gathered.new.items (reported_words file.now reported.now) }
{
    add_failures(reported.kind, &reported.failures, gathered, err);
    add_line(&hidden_words_of(file, reported.hidden_from), gathered, err);
}

// Returns the line for a finding, if it is to be explained.
fn word_line(explained: FindingSet, finding: Finding) -> Line<'static>
    ensures { pieces_text result.items ≡ word_line explained finding }
{
    if !explained.has(finding) {
        return nothing();
    }
    let row = finding.row();
    line(&[HEAD, Text(row.word), COLON, Text(row.phrase), END])
}

#[tactic(auto, using(crate::proofs::Shown::adds_piece))]
fn add_word_lines<E: Write>(
    findings: &[Finding],
    explained: FindingSet,
    gathered: &mut Gathered,
    err: &mut Watched<E>,
)
    ensures { Adds err.old gathered.old.items err.new gathered.new.items (flat_map (word_line explained) findings.now) }
{
    'findings: for finding in findings {
        add_line(&word_line(explained, *finding), gathered, err);
    }
}

/// Returns the words for the fault that was found, if any.
#[tactic(auto, unfolding(crate::specs::EndingWords::found_fault_words))]
pub fn fault_words(file: &[u8], fault: Option<Fault>) -> Line<'_>
    ensures { pieces_text result.items ≡ found_fault_words file.now fault }
{
    match fault {
        Some(fault) => listed_words(file, fault),
        None => nothing(),
    }
}

/// Adds the words that explain findings, each once, and the fault, and hints.
pub fn add_findings<E: Write>(
    findings: &Findings,
    file: &[u8],
    gathered: &mut Gathered,
    err: &mut Watched<E>,
)
    ensures { Adds err.old gathered.old.items err.new gathered.new.items (found_words file.now findings.now) }
{
    add_word_lines(&FINDINGS, findings.words, gathered, err);
    add_line(&fault_words(file, findings.fault), gathered, err);
    add_hints(findings, file, gathered, err);
}

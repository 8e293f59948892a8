//! The refusals and faults that replies report.

ghost use Rattle.std.specs.Prelude.{◌≡◌, is_some, map};
ghost use Rattle.std.specs.List.{list_any};
ghost use Rattle.krb_walk.specs.ReplyContent.{content_of};
ghost use Rattle.krb_driver.specs.Reported.{failure_of, failures, place_of, replied_verdict, with_reply};

use crate::verdict::{FileKind, Verdict};
use krb_walk::{Code, FaultKind, Reply};
use std::alloc::Allocator;

/// What a reply may report: a refusal with this code, or a fault of this kind.
#[derive(Clone, Copy)]
pub enum Failure {
    Refused(Code),
    Faulted(FaultKind),
}

/// The failures that replies report, each at its place: refusals and then faults, in the order of their numbers. Also
/// the kind of file that they are about, and the place from which MIT's programs see none of its entries, if one of
/// these was added.
#[derive(Clone, Copy)]
pub struct Reported {
    pub kind: FileKind,
    pub failures: [Option<Failure>; 15],
    pub hidden_from: Option<u32>,
}

// Returns the failure that a reply reports, if it is a refusal or a fault.
fn failure_of<A: Allocator>(reply: &Reply<A>) -> Option<Failure>
    ensures { result ≡ failure_of (content_of reply.now) }
{
    match reply {
        Reply::Refused(code) => Some(Failure::Refused(*code)),
        Reply::Faulted { fault, .. } => Some(Failure::Faulted(fault.kind)),
        _ => None,
    }
}

// Returns the place of a failure among all.
fn place_of(failure: Failure) -> usize
    ensures { result ≡ place_of failure }
{
    match failure {
        Failure::Refused(code) => code.number().saturating_sub(1) as usize,
        Failure::Faulted(kind) => kind.number() as usize + 10,
    }
}

// Adds the failure that a reply reports.
#[tactic(auto, using(std::proofs::lemmas::List::set_past))]
fn add<A: Allocator>(failures: &mut [Option<Failure>], reply: &Reply<A>)
    ensures { failures.new ≡ with_reply failures.old (content_of reply.now) }
{
    let Some(failure) = failure_of(reply) else {
        return;
    };
    let place = place_of(failure);
    if place < failures.len() {
        failures[place] = Some(failure);
    }
}

fn failures<A: Allocator>(replies: &[Reply<A>]) -> [Option<Failure>; 15]
    ensures { result ≡ failures (map content_of replies.now) }
{
    let mut failures = [None; 15];
    'replies: for reply in replies {
        add(&mut failures, reply);
    }
    failures
}

fn has_some(failures: &[Option<Failure>]) -> bool
    ensures { result ≡ list_any is_some failures.now }
{
    failures.iter().any(|failure| failure.is_some())
}

/// Returns the verdict of a run that printed these replies about a file of that kind.
pub fn replied_verdict<A: Allocator>(kind: FileKind, replies: &[Reply<A>]) -> Verdict
    ensures { result ≡ replied_verdict kind (map content_of replies.now) }
{
    let failures = failures(replies);
    if has_some(&failures) {
        Verdict::Replied(Reported {
            kind,
            failures,
            hidden_from: None,
        })
    } else {
        Verdict::Well
    }
}

//! What ktmatch remembers from one cache to the next.

ghost use Rattle.std.specs.Prelude.{◌≡◌};
ghost use Rattle.krb_readers.specs.Ktmatch.{first_state, is_none, judged_by, state_after};

use krb_driver::{Judged, RunEnd, RunError, Verdict};
use krb_findings::FindingSet;

/// What ktmatch remembers from one cache to the next.
#[derive(Clone, Copy)]
pub struct MatchState {
    /// The words that were explained.
    pub explained: FindingSet,
    /// An entry was named.
    pub is_named: bool,
    /// Of a cache no ticket was looked at.
    pub is_without: bool,
    /// Of a cache tickets were looked at, or it ended the runs.
    pub is_asked: bool,
    /// What was found of the last cache, unless an error ended its run.
    pub last: Option<Judged>,
    /// No cache comes after it: memory ran out, or the output failed.
    pub is_last: bool,
}

// Returns the verdict of a cache's run, unless an error ended it.
fn judged_by(ending: &Result<Verdict, RunError>) -> Option<Judged>
    ensures { result ≡ judged_by ending.now }
{
    match ending {
        Ok(Verdict::Judged(judged)) => Some(*judged),
        _ => None,
    }
}

impl MatchState {
    /// Returns what is known before the first cache.
    pub fn first() -> MatchState
        ensures { result ≡ first_state }
    {
        MatchState {
            explained: FindingSet::none(),
            is_named: false,
            is_without: false,
            is_asked: false,
            last: None,
            is_last: false,
        }
    }

    /// Returns what is known after the run of a cache that ended so.
    pub fn after(self, end: RunEnd) -> MatchState
        ensures { result ≡ state_after self end }
    {
        let is_last = matches!(
            &end.ending,
            Err(RunError::NoMemory | RunError::OutputNotWritten)
        );
        match judged_by(&end.ending) {
            Some(judged) => MatchState {
                explained: self.explained.and(judged.words),
                is_named: self.is_named || judged.near.is_some(),
                is_without: self.is_without || judged.is_without,
                is_asked: self.is_asked || !judged.is_without,
                last: Some(judged),
                is_last,
            },
            None => MatchState {
                is_asked: self.is_asked || is_last,
                last: None,
                is_last,
                ..self
            },
        }
    }

    /// Returns whether of no cache tickets were looked at, and that of one is to be reported.
    pub fn is_none(self) -> bool
        ensures { result ≡ is_none self }
    {
        self.is_without && !self.is_asked
    }
}

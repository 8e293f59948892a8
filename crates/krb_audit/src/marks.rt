//! What is found about an entry.

ghost use Rattle.std.specs.Prelude.{◌≡◌};
ghost use Rattle.krb_audit.specs.Findings.{first_for, newest_for};

use krb_findings::{Finding, FindingSet};

/// What is found about an entry, and, at the first of a name, about that.
#[derive(Clone, Copy, Debug, PartialEq, Eq)]
pub struct Marks {
    pub findings: FindingSet,
    /// The place of the first entry with the same name, kvno and enctype, if that is an earlier one.
    pub first: Option<u32>,
    /// The newest kvno of its name.
    pub newest: u32,
}

impl Marks {
    /// Returns the place of that entry if a finding is about it.
    pub fn first_for(self, finding: Finding) -> Option<u32>
        ensures { result ≡ first_for self finding }
    {
        match finding {
            Finding::Same | Finding::Clash => self.first,
            _ => None,
        }
    }
    /// Returns the newest kvno of the name if a finding is about that.
    pub fn newest_for(self, finding: Finding) -> Option<u32>
        ensures { result ≡ newest_for self finding }
    {
        match finding {
            Finding::Nostrong => Some(self.newest),
            _ => None,
        }
    }
}

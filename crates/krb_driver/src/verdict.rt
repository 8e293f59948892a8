//! The verdict of a run that did its work.

ghost use Rattle.std.specs.Prelude.{◌≡◌};
ghost use Rattle.krb_driver.specs.RunErrors.{hiding, listing_verdict, verdict_status};

use crate::reporting::reported::Reported;
use krb_findings::{FindingSet, WeakEtypes};
use krb_walk::Fault;
use krb_wire::Order;

/// What a file is to be.
#[derive(Clone, Copy)]
pub enum FileKind {
    Keytab,
    Cache,
    /// A keytab or a cache, as its first bytes say.
    Either,
}

/// What was found about a keytab: which findings are to be explained, which weak enctypes its entries have, whether a
/// name has no other keys, the fault, whether something is wrong, and in which order a keytab of version 1 was read.
#[derive(Clone, Copy)]
pub struct Findings {
    pub words: FindingSet,
    pub weak_etypes: WeakEtypes,
    pub lacks_strong: bool,
    pub fault: Option<Fault>,
    pub is_wrong: bool,
    pub v1_order: Order,
}

/// Which tickets are looked at: those asked for by name, or those of services.
#[derive(Clone, Copy)]
pub enum TicketsSought {
    Asked,
    OfServices,
}

/// What a keytab said of a cache's tickets: what is to be explained, the number of the keytab's entry that is named after
/// that, the fault, whether something is wrong, and whether no ticket was looked at.
#[derive(Clone, Copy)]
pub struct Judged {
    pub words: FindingSet,
    pub near: Option<usize>,
    pub fault: Option<Fault>,
    pub is_wrong: bool,
    pub is_without: bool,
}

/// How a run that did its work ends. What it printed may report that something is wrong.
#[derive(Clone, Copy)]
pub enum Verdict {
    Well,
    /// An entry that was added is not seen by MIT's programs: they see none from this place on.
    HiddenFrom(u32),
    /// The keytab that was saved has no entry.
    NoEntry,
    /// The listing reports it.
    Listed(Fault),
    /// The replies report it.
    Replied(Reported),
    /// The findings report it.
    Found(Findings),
    /// The lines of tickets report it. The entry that is named, and the fault, are explained after the end.
    Judged(Judged),
    /// No entry, or no ticket, is selected.
    NothingToRemove(FileKind),
    /// The same, of one of several files, which is reported at their end.
    Without,
    /// Two keytabs do not have the same keys.
    Differ,
    /// An entry to copy has the name, kvno and enctype of one that is there, with another key, which stays, of a run that
    /// replaces such keys, too.
    Clashed { replaces: bool },
}

impl Verdict {
    /// Returns the verdict of a listing, which reports the fault if there is one.
    pub fn of_listing(fault: Option<Fault>) -> Verdict
        ensures { result ≡ listing_verdict fault }
    {
        match fault {
            Some(fault) => Verdict::Listed(fault),
            None => Verdict::Well,
        }
    }

    /// Returns the verdict of the same run if it added an entry that MIT's programs do not see, as they see none from
    /// `place` on.
    pub fn hiding(self, place: Option<u32>) -> Verdict
        ensures { result ≡ hiding place self }
    {
        match (self, place) {
            (Verdict::Well, Some(place)) => Verdict::HiddenFrom(place),
            (Verdict::Replied(reported), hidden_from) => Verdict::Replied(Reported {
                hidden_from,
                ..reported
            }),
            (verdict, _) => verdict,
        }
    }

    /// Returns the exit status of the run.
    pub fn status(self) -> u8
        ensures { result ≡ verdict_status self }
    {
        match self {
            Verdict::Well | Verdict::HiddenFrom(_) | Verdict::NoEntry | Verdict::Without => 0,
            Verdict::Found(findings) => u8::from(findings.is_wrong),
            Verdict::Judged(judged) => u8::from(judged.is_wrong),
            _ => 1,
        }
    }
}

//! What a keytab says of a ticket.

ghost use Rattle.std.specs.Prelude.{◌≡◌};
ghost use Rattle.krb_match.specs.Said.{finding_of, is_wrong, word_of};

use arrayvec::ArrayVec;
use krb_findings::Finding;
use std::marker::Model;

/// The enctypes of entries, each once, in file order: at most nine.
#[derive(Drop)]
pub struct Etypes {
    found: ArrayVec<u32, 9>,
}

impl Model for Etypes {
    ghost use Rattle.std.specs.Prelude.{ℕ, List};

    ghost Value = { List ℕ };

    ghost view = { λ e. e.found.items };
}

impl Etypes {
    /// Returns those enctypes.
    pub(crate) fn of(found: ArrayVec<u32, 9>) -> Etypes
        ensures { result ≡ found.items }
    {
        Etypes { found }
    }

    /// Returns them as a slice.
    pub fn as_slice(&self) -> &[u32]
        ensures { result.now ≡ self.now }
    {
        self.found.as_slice()
    }
}

/// What a keytab says of a ticket.
#[derive(Drop)]
pub enum Judgement {
    /// It is under the session key of another ticket.
    User,
    /// Its own bytes are not those of a ticket.
    Unread,
    /// The keytab has no entry of its name.
    Name,
    /// No entry of its name fits its version. The newest version of the name.
    Kvno(u32),
    /// No entry that fits its version has its enctype. The enctypes of those.
    Etype(Etypes),
    /// The place of the entry that opens it.
    Opens(u32),
}

impl Judgement {
    /// Returns what is said of a ticket that no entry opens.
    pub fn finding(&self) -> Option<Finding>
        ensures { result ≡ finding_of self.now }
    {
        match self {
            Judgement::User => Some(Finding::User),
            Judgement::Unread => Some(Finding::Unread),
            Judgement::Name => Some(Finding::Name),
            Judgement::Kvno(_) => Some(Finding::Kvno),
            Judgement::Etype(_) => Some(Finding::Etype),
            Judgement::Opens(_) => None,
        }
    }

    /// Returns its word.
    pub fn word(&self) -> &'static str
        ensures { result.now ≡ word_of self.now }
    {
        self.finding().map_or("opens", |finding| finding.row().word)
    }

    /// Returns whether it counts for the status: the keytab does not open the ticket, though a keytab could.
    pub fn is_wrong(&self) -> bool
        ensures { result ≡ is_wrong self.now }
    {
        self.finding().is_some_and(|finding| finding.row().counts)
    }
}

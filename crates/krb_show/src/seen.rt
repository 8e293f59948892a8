//! What a pass over the tickets of a cache shows.

ghost use Rattle.std.specs.Prelude.{◌≡◌, ◌+◌, ◌∷◌, [], ℕ, List, IfOk, OnOk, if◌then◌else◌};
ghost use Rattle.krb_ccache.specs.Store.{CacheState, PlacedCredential, placed_credentials};
ghost use Rattle.krb_show.specs.CacheView.{is_weak_ticket, judgement, lasts};
ghost use Rattle.krb_show.specs.Seen.{SeesSoFar};

use crate::etypes::has_weak_encryption;
use crate::lines::one_more;
use krb_audit::is_tgs;
use krb_ccache::{Ccache, CredView, is_config, ticket_encryption};
use krb_text::is_weak;
use krb_wire::{Name, NoMemory};
use std::alloc::Allocator;

/// What is said of the tickets of a cache at a second.
#[derive(Clone, Copy)]
pub struct Judgement {
    /// The number of tickets.
    pub count: usize,
    /// The number of those with a weak type.
    pub weak: usize,
    /// There are tickets, and none of those by which the cache is judged lasts.
    pub is_expired: bool,
}

#[derive(Clone, Copy)]
struct SeenTickets {
    count: usize,
    weak: usize,
    // The number of ticket-granting tickets of the default principal's realm.
    tgts: usize,
    // One of these lasts.
    tgt_lasts: bool,
    // Some ticket lasts.
    ticket_lasts: bool,
}

fn lasts(now: u32, place: u32, ticket: &CredView<'_>) -> bool
    ensures { result ≡ lasts now (place, ticket.now) }
{
    let end = ticket.endtime();
    end == 0 || now < end
}

// Returns whether the session key or the encryption of a ticket has a weak type.
fn is_weak_ticket(ticket: &CredView<'_>) -> bool
    ensures { result ≡ is_weak_ticket ticket.now }
{
    is_weak(ticket.enctype()) || has_weak_encryption(ticket_encryption(ticket.ticket()))
}

// Returns a count with one more, if there is one.
fn more_if(count: usize, is_one: bool) -> Result<usize, NoMemory>
    ensures { IfOk result (λ more. more ≡ (if is_one then count + 1 else count)) }
{
    if is_one { one_more(count) } else { Ok(count) }
}

impl SeenTickets {
    fn see(
        &mut self,
        now: u32,
        realm: &[u8],
        place: u32,
        credential: &CredView<'_>,
    ) -> Result<(), NoMemory>
        ensures { (rest all : List PlacedCredential)
            → SeesSoFar now realm.now ((place, credential.now) ∷ rest) all self.old
            → OnOk result (SeesSoFar now realm.now rest all self.new) }
    {
        if is_config(credential) {
            return Ok(());
        }
        let is_tgt = is_tgs(realm, credential.server());
        let lasts = lasts(now, place, credential);
        self.count = one_more(self.count)?;
        self.weak = more_if(self.weak, is_weak_ticket(credential))?;
        self.tgts = more_if(self.tgts, is_tgt)?;
        self.tgt_lasts = self.tgt_lasts | (is_tgt & lasts);
        self.ticket_lasts = self.ticket_lasts | lasts;
        Ok(())
    }

    // Returns what is said of the tickets, once all are seen.
    fn judgement(self) -> Judgement
        ensures { (now : ℕ) (k : CacheState) → SeesSoFar now k.principal.realm [] (placed_credentials k) self
            → result ≡ judgement now k }
    {
        let lasts = if self.tgts == 0 {
            self.ticket_lasts
        } else {
            self.tgt_lasts
        };
        Judgement {
            count: self.count,
            weak: self.weak,
            is_expired: self.count > 0 && !lasts,
        }
    }
}

/// Returns what is said of the tickets of a cache. Takes one pass.
pub fn judge<A: Allocator>(now: u32, cache: &Ccache<A>) -> Result<Judgement, NoMemory>
    ensures { IfOk result (λ said. said ≡ judgement now cache.now.state) }
{
    let principal = cache.default_principal();
    let realm = principal.realm();
    let mut seen = SeenTickets {
        count: 0,
        weak: 0,
        tgts: 0,
        tgt_lasts: false,
        ticket_lasts: false,
    };
    'credentials: for (place, credential) in cache.credentials() {
        seen.see(now, realm, place, &credential)?;
    }
    Ok(seen.judgement())
}

//! Which tickets of a cache are looked at, and what is said of each.

ghost use Rattle.std.specs.Prelude.{◌≡◌, ◌∷◌, Bool, IfOk, OnOk, List, if◌then◌else◌, is_some, map, None};
ghost use Rattle.std.specs.Option.{option_or};
ghost use Rattle.krb_wire.specs.Spelling.{Parts};
ghost use Rattle.krb_keytab.specs.Find.{PlacedEntry, placed_entries};
ghost use Rattle.krb_ccache.specs.Ticket.{ticket_encryption};
ghost use Rattle.krb_ccache.specs.Store.{PlacedCredential, placed_credentials};
ghost use Rattle.krb_names.specs.Asked.{AskedParts};
ghost use Rattle.krb_match.specs.Looking.{AreMatched, IsJudge, IsNear, IsSaid, StaysJudge};
ghost use Rattle.krb_match.specs.Match.{has_name, judged, judged_among, name_of, named, ticket_of};
ghost use Rattle.krb_match.specs.Names.{name_key};
ghost use Rattle.krb_match.specs.Table.{AreKeys};
ghost use Rattle.krb_match.specs.Tickets.{first_near, is_asked, looked_at, matched, near_by};

use crate::classes::Classes;
use crate::judgement::Judgement;
use crate::keys::Keys;
use crate::names::key_over;
use crate::near::NearNames;
use crate::ticket::{MatchedTicket, name_of, names_server};
use krb_audit::{is_of_gssproxy, is_service};
use krb_ccache::{Ccache, CredView, TicketEncryption, is_config, read_own};
use krb_names::{AskedNames, NameFilter};
use krb_wire::{Name, NoMemory};
use std::alloc::Allocator;

// How many bytes a credential seldom has less than.
const USUAL_LEN: usize = 256;

/// The tickets of a cache that are looked at, and the number of the entry that is named after them.
#[derive(Drop)]
pub struct Matched<A: Allocator> {
    pub tickets: Vec<MatchedTicket<A>, A>,
    pub near: Option<usize>,
}

// What judges tickets: the entries, by all that tickets ask for once that was needed, near names if they are wanted, the
// names asked for, and whether not any is. `scratch` is space for a name.
#[derive(Drop)]
struct Judge<'m, 'k, 't, A: Allocator, B: Allocator> {
    alloc: A,
    classes: &'m Classes<'k, A>,
    keys: Option<Keys<'k, A>>,
    near: &'m Option<NearNames<'k, A>>,
    names: NameFilter<'t, A, B>,
    asks: bool,
    scratch: Vec<u8, A>,
}

impl<'k, A: Allocator + Copy, B: Allocator> Judge<'_, 'k, '_, A, B> {
    // Returns the entries by all that tickets ask for.
    fn take_keys(&mut self) -> Result<Keys<'k, A>, NoMemory>
        ensures kept { StaysJudge self.old self.new }
        ensures keys { (asked : AskedParts) (wanted : Bool) (xs : List PlacedEntry) → IsJudge asked wanted xs self.old
            → IfOk result (AreKeys xs) }
    {
        match self.keys.take() {
            Some(keys) => Ok(keys),
            None => self.classes.all(self.alloc),
        }
    }

    // Returns whether an entry has the name with that key.
    fn has(&mut self, key: &[u8]) -> Result<bool, NoMemory>
        ensures kept { StaysJudge self.old self.new }
        ensures has { (asked : AskedParts) (wanted : Bool) (xs : List PlacedEntry) (p : Parts)
            → IsJudge asked wanted xs self.old → key.now ≡ name_key p → IfOk result (λ b. b ≡ has_name p xs) }
    {
        let keys = self.take_keys()?;
        let has = keys.has(key);
        self.keys = Some(keys);
        Ok(has)
    }

    // Returns whether a ticket of that name, which has that key, is asked for.
    fn asks_for<N: Name>(
        &mut self,
        ticket: &CredView<'_>,
        name: &N,
        key: &[u8],
    ) -> Result<bool, NoMemory>
        ensures kept { StaysJudge self.old self.new }
        ensures asked { (asked : AskedParts) (wanted : Bool) (xs : List PlacedEntry) → IsJudge asked wanted xs self.old
            → N.parts name.now ≡ name_of ticket.now → key.now ≡ name_key (N.parts name.now)
            → IfOk result (λ b. b ≡ is_asked asked xs ticket.now) }
    {
        if self.asks {
            return Ok(self.names.passes(ticket.server())? || self.names.passes(name)?);
        }
        if is_service(name) {
            return Ok(true);
        }
        self.has(key)
    }

    // Returns what is said of a ticket that can be read, under the name with that key.
    fn judge_read(
        &mut self,
        encryption: TicketEncryption,
        key: &[u8],
    ) -> Result<Judgement, NoMemory>
        ensures kept { StaysJudge self.old self.new }
        ensures said { (asked : AskedParts) (wanted : Bool) (xs : List PlacedEntry) (p : Parts)
            → IsJudge asked wanted xs self.old → key.now ≡ name_key p
            → IfOk result (λ j. j ≡ judged_among encryption (named p xs)) }
    {
        if let Some(place) = self.classes.opener(encryption, key) {
            return Ok(Judgement::Opens(place));
        }
        let keys = self.take_keys()?;
        let judgement = keys.judge(encryption, key);
        self.keys = Some(keys);
        Ok(judgement)
    }

    // Returns what is said of a ticket with that encryption, under the name with that key.
    fn judge(
        &mut self,
        ticket: &CredView<'_>,
        encryption: Option<TicketEncryption>,
        key: &[u8],
    ) -> Result<Judgement, NoMemory>
        ensures kept { StaysJudge self.old self.new }
        ensures said { (asked : AskedParts) (wanted : Bool) (xs : List PlacedEntry) (p : Parts)
            → IsJudge asked wanted xs self.old → key.now ≡ name_key p → encryption ≡ ticket_encryption ticket.now.ticket
            → IfOk result (λ j. j ≡ judged xs (ticket_of ticket.now p)) }
    {
        if ticket.is_skey() != 0 {
            return Ok(Judgement::User);
        }
        match encryption {
            Some(encryption) => self.judge_read(encryption, key),
            None => Ok(Judgement::Unread),
        }
    }

    // Returns a ticket of that name and encryption if it is looked at.
    fn looked_at<N: Name>(
        &mut self,
        place: u32,
        ticket: &CredView<'_>,
        name: &N,
        encryption: Option<TicketEncryption>,
    ) -> Result<Option<MatchedTicket<A>>, NoMemory>
        ensures kept { StaysJudge self.old self.new }
        ensures said { (asked : AskedParts) (wanted : Bool) (xs : List PlacedEntry) → IsJudge asked wanted xs self.old
            → N.parts name.now ≡ name_of ticket.now → encryption ≡ ticket_encryption ticket.now.ticket
            → IfOk result (IsSaid asked xs (place, ticket.now)) }
    {
        if is_config(ticket) || is_of_gssproxy(ticket.server()) {
            return Ok(None);
        }
        let key = key_over(self.alloc, name, &mut self.scratch)?;
        if !self.asks_for(ticket, name, &key)? {
            return Ok(None);
        }
        let judgement = self.judge(ticket, encryption, &key)?;
        Ok(Some(MatchedTicket {
            place,
            encryption,
            key,
            judgement,
        }))
    }

    // Returns the number of the entry that is named once there is a ticket of that name: the one before, or an entry whose
    // name is nearly that, if the keytab has none of it.
    fn near_with<N: Name>(
        &self,
        near: Option<usize>,
        name: &N,
        judgement: &Judgement,
    ) -> Result<Option<usize>, NoMemory>
        ensures { (asked : AskedParts) (wanted : Bool) (xs : List PlacedEntry) → IsJudge asked wanted xs self.now
            → IfOk result (λ n. n ≡ option_or near (if wanted then near_by xs (N.parts name.now) judgement.now else None)) }
    {
        match (near, self.near, judgement) {
            (None, Some(names), Judgement::Name) => names.index(self.alloc, name),
            _ => Ok(near),
        }
    }
}

impl<A: Allocator + Copy> Matched<A> {
    // Adds the next credential if it is a ticket that is looked at, under that name and with that encryption.
    fn add_as<N: Name, B: Allocator>(
        &mut self,
        judge: &mut Judge<'_, '_, '_, A, B>,
        place: u32,
        ticket: &CredView<'_>,
        name: &N,
        encryption: Option<TicketEncryption>,
    ) -> Result<(), NoMemory>
        ensures kept { StaysJudge judge.old judge.new }
        ensures matched { (asked : AskedParts) (wanted : Bool) (xs : List PlacedEntry) (rest all : List PlacedCredential)
            → IsJudge asked wanted xs judge.old
            → N.parts name.now ≡ name_of ticket.now → encryption ≡ ticket_encryption ticket.now.ticket
            → AreMatched wanted xs (looked_at asked xs ((place, ticket.now) ∷ rest)) all self.old.tickets.items self.old.near
            → OnOk result (AreMatched wanted xs (looked_at asked xs rest) all self.new.tickets.items self.new.near) }
    {
        match judge.looked_at(place, ticket, name, encryption)? {
            Some(ticket) => {
                self.near = judge.near_with(self.near, name, &ticket.judgement)?;
                Ok(self.tickets.push(ticket)?)
            }
            None => Ok(()),
        }
    }

    // Adds the next credential if it is looked at. Most tickets name their credential's server, whose name needs no copy.
    fn consider<B: Allocator>(
        &mut self,
        judge: &mut Judge<'_, '_, '_, A, B>,
        place: u32,
        ticket: &CredView<'_>,
    ) -> Result<(), NoMemory>
        ensures kept { StaysJudge judge.old judge.new }
        ensures matched { (asked : AskedParts) (wanted : Bool) (xs : List PlacedEntry) (rest all : List PlacedCredential)
            → IsJudge asked wanted xs judge.old
            → AreMatched wanted xs (looked_at asked xs ((place, ticket.now) ∷ rest)) all self.old.tickets.items self.old.near
            → OnOk result (AreMatched wanted xs (looked_at asked xs rest) all self.new.tickets.items self.new.near) }
    {
        let (own, encryption) = read_own(ticket.ticket());
        if names_server(own, ticket) {
            return self.add_as(judge, place, ticket, ticket.server(), encryption);
        }
        let name = name_of(judge.alloc, ticket)?;
        self.add_as(judge, place, ticket, &name, encryption)
    }
}

/// Returns the tickets of a cache that are looked at, each with what is said of it: those that are asked for by their
/// names, or all of services if any name is.
pub fn match_tickets<'m, 'k, A: Allocator + Copy, B: Allocator, C: Allocator>(
    alloc: A,
    classes: &'m Classes<'k, A>,
    near: &'m Option<NearNames<'k, A>>,
    names: &AskedNames<B>,
    cache: &Ccache<C>,
) -> Result<Matched<A>, NoMemory>
    ensures { (xs : List PlacedEntry) → placed_entries classes.now ≡ xs → IsNear xs near.now
        → IfOk result (λ m. (m.tickets.items ≡ map (matched xs) (looked_at names.now xs (placed_credentials cache.now.state)))
        × (m.near ≡ (if is_some near.now then first_near xs (looked_at names.now xs (placed_credentials cache.now.state)) else None))) }
{
    let mut judge = Judge {
        alloc,
        classes,
        keys: None,
        near,
        names: NameFilter::of(alloc, names)?,
        asks: !names.is_any(),
        scratch: Vec::new(alloc),
    };
    let mut matched = Matched {
        tickets: Vec::with_capacity(alloc, cache.image().len() / USUAL_LEN)?,
        near: None,
    };
    'credentials: for (place, ticket) in cache.credentials() {
        matched.consider(&mut judge, place, &ticket)?;
    }
    Ok(matched)
}

//! klist -s: checks that a cache has a ticket to go on with, and prints nothing.

ghost use Rattle.std.specs.Prelude.{◌≡◌, [], ◌∷◌, List, Some};
ghost use Rattle.krb_ccache.specs.Store.{CacheState, open_result, PlacedCredential, placed_credentials};
ghost use Rattle.krb_files.specs.Loading.{most_bytes};
ghost use Rattle.krb_readers.specs.Klist.{RunsTicketCheck, odd_files, odd_with_silent, opened_status, SeesSoFar, has_ticket, last_end, later, ticket_check_of};
ghost use Rattle.krb_driver.specs.Mistakes.{Refuses};
ghost use Rattle.krb_driver.specs.Spelled.{Spells};

use crate::klist::words::{refuse_columns, refuse_odd_seconds, refuse_with, refuse_with_cache};
use krb_audit::is_tgs;
use krb_ccache::{Ccache, CredView, is_config};
use krb_driver::{FileName, Matches, Mistake, Phrase, spelled_seconds, times_given, typed};
use krb_files::{Files, LoadFault};
use krb_wire::{Limits, Name, USUAL_LIMIT};
use std::alloc::Allocator;

/// What `klist -s` asks of a cache.
#[derive(Clone, Copy)]
pub struct TicketCheck {
    /// A ticket is valid for that many seconds more.
    pub seconds: u32,
}

// Refuses an option that does not go with `-s`.
fn refuse_with_silent<'a, M: Matches<'a>>(matches: &M) -> Result<(), Mistake<'a>>
    ensures { Refuses (odd_with_silent (M.matched matches.now)) result }
{
    let silent = typed(matches, "-s", "--silent");
    refuse_with(matches, silent, "keytab", "-k", "--keytab")?;
    refuse_with(matches, silent, "json", "--json", "--json")?;
    refuse_columns(matches, silent)
}

fn refuse_several<'a, M: Matches<'a>>(matches: &M) -> Result<(), Mistake<'a>>
    ensures { Refuses (odd_files (M.matched matches.now)) result }
{
    if times_given(matches, "FILE") > 1 {
        return Err(Phrase::TAKES_ONE_FILE.of(typed(matches, "-s", "--silent")));
    }
    Ok(())
}

/// Returns what `klist -s` asks for. Refuses options that do not go together, several files, and a time that cannot be
/// read.
pub fn ticket_check<'a, M: Matches<'a>>(matches: &M) -> Result<TicketCheck, Mistake<'a>>
    ensures { Spells (ticket_check_of (M.matched matches.now)) result }
{
    refuse_odd_seconds(matches)?;
    refuse_with_silent(matches)?;
    refuse_with_cache(matches)?;
    refuse_several(matches)?;
    let seconds = spelled_seconds(matches, "for")?;
    Ok(TicketCheck {
        seconds: seconds.unwrap_or(0),
    })
}

// Returns the status for an image: 0 if it is a cache with a ticket that ends after that second, and otherwise 1.
fn image_status<A: Allocator>(image: Vec<u8, A>, time: u64) -> u8
    ensures { result ≡ opened_status time (open_result most_bytes image.items) }
{
    match Ccache::open(image, Limits::usual()) {
        Ok(cache) => { if has_ticket(&cache, time) { 0 } else { 1 } }
        Err(_) => 1,
    }
}

/// Checks that the cache `file` has a ticket that is valid for some seconds more, and returns the exit status: 1 for a
/// name of another type. `now` is in seconds, or `None` if the clock was not read. Takes no memory but for the image.
pub fn run_ticket_check<A: Allocator, F: Files>(
    alloc: A,
    check: TicketCheck,
    now: Option<u32>,
    file: FileName<'_>,
    files: &mut F,
) -> u8
    ensures { RunsTicketCheck F.Files file.entry files.old files.new result check now }
{
    let Some(now) = now else {
        return 3;
    };
    if file.is_other_type {
        return 1;
    }
    let time = u64::from(now) + u64::from(check.seconds);
    match files.load(alloc, file.name, USUAL_LIMIT) {
        Ok(image) => image_status(image, time),
        Err(LoadFault::NoMemory) => 4,
        Err(LoadFault::Failed) => 3,
        Err(LoadFault::Missing | LoadFault::TooLarge) => 1,
    }
}

/// What was seen of the tickets of a cache.
#[derive(Clone, Copy)]
pub struct SeenTickets {
    /// The number of tickets, up to the greatest u64.
    pub count: u64,
    /// The latest end of its ticket-granting tickets of a realm.
    tgt_end: Option<u32>,
    /// The latest end of all.
    ticket_end: Option<u32>,
}

// Returns the later of a time, if there is one, and another.
fn later(time: Option<u32>, other: u32) -> Option<u32>
    ensures { result ≡ later time (Some other) }
{
    match time {
        Some(time) => Some(time.max(other)),
        None => Some(other),
    }
}

impl SeenTickets {
    fn see(&mut self, realm: &[u8], place: u32, credential: &CredView<'_>)
        ensures { (rest all : List PlacedCredential)
            → SeesSoFar realm.now ((place, credential.now) ∷ rest) all self.old
            → SeesSoFar realm.now rest all self.new }
    {
        if is_config(credential) {
            return;
        }
        let end = credential.endtime();
        self.count = self.count.saturating_add(1);
        self.ticket_end = later(self.ticket_end, end);
        if is_tgs(realm, credential.server()) {
            self.tgt_end = later(self.tgt_end, end);
        }
    }

    /// Returns what is seen of the tickets of a cache. Takes one pass.
    pub fn of<A: Allocator>(cache: &Ccache<A>) -> SeenTickets
        ensures { SeesSoFar cache.now.state.principal.realm [] (placed_credentials cache.now.state) result }
    {
        let principal = cache.default_principal();
        let realm = principal.realm();
        let mut seen = SeenTickets {
            count: 0,
            tgt_end: None,
            ticket_end: None,
        };
        'credentials: for (place, credential) in cache.credentials() {
            seen.see(realm, place, &credential);
        }
        seen
    }

    /// Returns the end of what the cache has to go on with, if there is that.
    #[tactic(auto, using(crate::proofs::Latest::of_seen))]
    pub fn last_end(self) -> Option<u32>
        ensures { (k : CacheState) → SeesSoFar k.principal.realm [] (placed_credentials k) self → result ≡ last_end k }
    {
        self.tgt_end.or(self.ticket_end)
    }

    /// Returns whether the cache has a ticket to go on with after that second: if it has ticket-granting tickets of the
    /// default principal's realm, one of those.
    pub fn are_enough(self, time: u64) -> bool
        ensures { (k : CacheState) → SeesSoFar k.principal.realm [] (placed_credentials k) self → result ≡ has_ticket time k }
    {
        match self.last_end() {
            Some(end) => u64::from(end) > time,
            None => false,
        }
    }
}

/// Returns whether a cache has a ticket to go on with after that second. Takes one pass.
pub fn has_ticket<A: Allocator>(cache: &Ccache<A>, time: u64) -> bool
    ensures { result ≡ has_ticket time cache.now.state }
{
    SeenTickets::of(cache).are_enough(time)
}

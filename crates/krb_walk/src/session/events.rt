//! The events of a session, one at a time and in a run.

ghost use Rattle.std.specs.Prelude.{◌≡◌, ◌<◌, ◌≤◌, ◌++◌, ◌∷◌, [], false, length, map, take, drop, IfOk, OnOk, OnErr, IsOk};
ghost use Rattle.krb_walk.specs.declared.event.Event.TheVariants.{Start, Resume, Step, Put, Cut, Rewrite};
ghost use Rattle.krb_walk.specs.Store.{IsPlace, next_live, stop_at};
ghost use Rattle.std.specs.List.{AllByRecursion};
ghost use Rattle.krb_walk.specs.Ranks.{carry, Rewrites};
ghost use Rattle.krb_walk.specs.Rules.{RewriteGives};
ghost use Rattle.krb_walk.specs.ReplyContent.{content_of, Started, is_gave};
ghost use Rattle.krb_walk.specs.Events.{session_of, reply_to, after, stop_reply, TakesNone};
ghost use Rattle.krb_walk.specs.History.{IsLawful, IsReady, moment};
ghost use Rattle.krb_walk.specs.Ran.{Ran, RanSome};

use super::{Session, stop_from};
use crate::event::{Event, Reply};
use crate::placed::Placed;
use crate::refusal::{Code, Refusal};
use crate::stop::Stop;
use krb_wire::NoMemory;
use std::alloc::Allocator;

/// The greatest number of walks of a session.
const MOST_WALKS: u32 = 1024;

impl<P: Placed, A: Allocator + Copy> Session<P, A> {
    /// Applies an event. Only the bytes of `Gave`, an addition that grows the store and a rewrite take memory.
    pub fn apply(&mut self, event: &Event<P::Item>) -> Result<Reply<A>, NoMemory>
        ensures ran { IfOk result (λ r. Ran P.rules (session_of P.state_of self.old) (session_of P.state_of self.new) (event.now ∷ []) [] (content_of r ∷ [])) }
        ensures memory { TakesNone P.rules (session_of P.state_of self.old) event.now → IsOk result }
        ensures err { OnErr result (session_of P.state_of self.new ≡ session_of P.state_of self.old) }
    {
        self.answer(event)
    }

    /// Applies events in order, and appends the reply to each. Reserves room for a reply before it applies the event:
    /// after `NoMemory`, the replies so far are kept, and the state is the one after their events.
    pub fn run(
        &mut self,
        events: &[Event<P::Item>],
        replies: &mut Vec<Reply<A>, A>,
    ) -> Result<(), NoMemory>
        ensures ok { OnOk result (Ran P.rules (session_of P.state_of self.old) (session_of P.state_of self.new) events.now (map content_of replies.old.items) (map content_of replies.new.items)) }
        ensures err { OnErr result (RanSome P.rules (session_of P.state_of self.old) (session_of P.state_of self.new) events.now (map content_of replies.old.items) (map content_of replies.new.items)) }
    {
        let _ = &self.count;
        for event in events {
            replies.reserve(1)?;
            let reply = self.answer(event)?;
            replies.push_reserved(reply);
        }
        Ok(())
    }

    fn answer(&mut self, event: &Event<P::Item>) -> Result<Reply<A>, NoMemory>
        ensures reply { IfOk result (λ r. content_of r ≡ reply_to P.rules (session_of P.state_of self.old) event.now) }
        ensures state { OnOk result (session_of P.state_of self.new ≡ after P.rules (session_of P.state_of self.old) event.now) }
        ensures lawful { OnOk result (IsLawful P.rules (moment P.rules (session_of P.state_of self.old) event.now)) }
        ensures ready { IsReady P.rules (session_of P.state_of self.old) }
        ensures memory { TakesNone P.rules (session_of P.state_of self.old) event.now → IsOk result }
        ensures err { OnErr result (session_of P.state_of self.new ≡ session_of P.state_of self.old) }
    {
        let _ = &self.count;
        match event {
            Event::Start => Ok(self.start()),
            Event::Resume(place) => Ok(self.resume(*place)),
            Event::Step(walk) => self.give(*walk),
            Event::Put(item) => self.put(item),
            Event::Cut(place) => Ok(self.cut(*place)),
            Event::Rewrite => self.rewrite(),
        }
    }

    /// Starts a new walk at a place.
    fn begin(&mut self, place: u32) -> Reply<A>
        requires few { length self.old.cursors < 1024 }
        requires at_place { IsPlace (P.rules.seen (P.state_of self.old.store)) place }
        ensures reply { content_of result ≡ Started (length self.old.cursors) place }
        ensures state { self.new ≡ record { store = self.old.store; cursors = self.old.cursors ++ place ∷ [] } }
    {
        let walk = self.count;
        self.cursors[walk as usize] = place;
        self.count += 1;
        Reply::Started { walk, next: place }
    }

    #[tactic(auto, using(crate::proofs::Places::place_first))]
    fn start(&mut self) -> Reply<A>
        ensures reply { content_of result ≡ reply_to P.rules (session_of P.state_of self.old) Start }
        ensures state { session_of P.state_of self.new ≡ after P.rules (session_of P.state_of self.old) Start }
    {
        if self.walks() >= MOST_WALKS {
            return Reply::Refused(Code::TooManyWalks);
        }
        let first = self.store().first();
        self.begin(first)
    }

    fn resume(&mut self, place: u32) -> Reply<A>
        ensures reply { content_of result ≡ reply_to P.rules (session_of P.state_of self.old) (Resume place) }
        ensures state { session_of P.state_of self.new ≡ after P.rules (session_of P.state_of self.old) (Resume place) }
    {
        if self.walks() >= MOST_WALKS {
            return Reply::Refused(Code::TooManyWalks);
        }
        if !self.store().is_place(place) {
            return Reply::Refused(Code::NotAPlace);
        }
        self.begin(place)
    }

    /// Applies a step. Copies the bytes of the record before the cursor moves.
    fn give(&mut self, walk: u32) -> Result<Reply<A>, NoMemory>
        ensures reply { IfOk result (λ r. content_of r ≡ reply_to P.rules (session_of P.state_of self.old) (Step walk)) }
        ensures state { OnOk result (session_of P.state_of self.new ≡ after P.rules (session_of P.state_of self.old) (Step walk)) }
        ensures memory { TakesNone P.rules (session_of P.state_of self.old) (Step walk) → IsOk result }
        ensures err { OnErr result (session_of P.state_of self.new ≡ session_of P.state_of self.old) }
    {
        let Some(cursor) = self.cursor(walk) else {
            return Ok(Reply::Refused(Code::NoSuchWalk));
        };
        let (stop, next) = stop_from(&self.store, cursor);
        let reply = reply_at(self.alloc, &self.store, walk, cursor, stop)?;
        self.go_to(walk, next);
        Ok(reply)
    }

    fn put(&mut self, item: &P::Item) -> Result<Reply<A>, NoMemory>
        ensures reply { IfOk result (λ r. content_of r ≡ reply_to P.rules (session_of P.state_of self.old) (Put item.now)) }
        ensures state { OnOk result (session_of P.state_of self.new ≡ after P.rules (session_of P.state_of self.old) (Put item.now)) }
        ensures lawful { OnOk result (IsLawful P.rules (moment P.rules (session_of P.state_of self.old) (Put item.now))) }
        ensures memory { TakesNone P.rules (session_of P.state_of self.old) (Put item.now) → IsOk result }
        ensures err { OnErr result (session_of P.state_of self.new ≡ session_of P.state_of self.old) }
    {
        match self.store.put(item) {
            Ok(place) => Ok(Reply::Placed(place)),
            Err(Refusal::Code(code)) => Ok(Reply::Refused(code)),
            Err(Refusal::NoMemory) => Err(NoMemory),
        }
    }

    fn cut(&mut self, place: u32) -> Reply<A>
        ensures reply { content_of result ≡ reply_to P.rules (session_of P.state_of self.old) (Cut place) }
        ensures state { session_of P.state_of self.new ≡ after P.rules (session_of P.state_of self.old) (Cut place) }
        ensures lawful { IsLawful P.rules (moment P.rules (session_of P.state_of self.old) (Cut place)) }
    {
        match self.store.cut(place) {
            Ok(()) => Reply::Gone(place),
            Err(code) => Reply::Refused(code),
        }
    }

    /// Rewrites the store, which carries all cursors.
    #[tactic(auto, using(crate::proofs::Table::rewrite_kept))]
    fn rewrite(&mut self) -> Result<Reply<A>, NoMemory>
        ensures reply { IfOk result (λ r. content_of r ≡ reply_to P.rules (session_of P.state_of self.old) Rewrite) }
        ensures state { OnOk result (session_of P.state_of self.new ≡ after P.rules (session_of P.state_of self.old) Rewrite) }
        ensures lawful { OnOk result (IsLawful P.rules (moment P.rules (session_of P.state_of self.old) Rewrite)) }
        ensures memory { TakesNone P.rules (session_of P.state_of self.old) Rewrite → IsOk result }
        ensures err { OnErr result (session_of P.state_of self.new ≡ session_of P.state_of self.old) }
    {
        match rewrite_with(&mut self.store, &mut self.cursors, self.count as usize) {
            Ok(()) => Ok(Reply::Rewritten(self.store.end())),
            Err(Refusal::Code(code)) => Ok(Reply::Refused(code)),
            Err(Refusal::NoMemory) => Err(NoMemory),
        }
    }
}

/// Rewrites a store and carries the first `count` cursors of `table`.
fn rewrite_with<P: Placed>(store: &mut P, table: &mut [u32], count: usize) -> Result<(), Refusal>
    requires few { count ≤ length table.old }
    requires places { AllByRecursion (IsPlace (P.rules.seen (P.state_of store.old))) (take count table.old) }
    ensures gives { RewriteGives (P.rules.rewrite (P.state_of store.old)) (P.state_of store.old) result (P.state_of store.new) }
    ensures rewrites { OnOk result (Rewrites (P.rules.seen (P.state_of store.old)) (P.rules.seen (P.state_of store.new))) }
    ensures carries { OnOk result (table.new ≡ map (carry (P.rules.seen (P.state_of store.old)) (P.rules.seen (P.state_of store.new))) (take count table.old) ++ drop count table.old) }
    ensures keeps { OnErr result (table.new ≡ table.old) }
{
    let (cursors, _) = table.split_at_mut(count);
    store.rewrite(cursors)
}

/// Returns the reply to a step of a walk at `cursor` that stops at `stop`.
fn reply_at<P: Placed, A: Allocator>(
    alloc: A,
    store: &P,
    walk: u32,
    cursor: u32,
    stop: Stop,
) -> Result<Reply<A>, NoMemory>
    requires { stop ≡ stop_at (P.rules.seen (P.state_of store.now)) cursor }
    ensures reply { IfOk result (λ r. content_of r ≡ stop_reply (P.rules.seen (P.state_of store.now)) walk (next_live (P.rules.seen (P.state_of store.now)) cursor)) }
    ensures memory { is_gave (stop_reply (P.rules.seen (P.state_of store.now)) walk (next_live (P.rules.seen (P.state_of store.now)) cursor)) ≡ false → IsOk result }
{
    let _ = store.first();
    match stop {
        Stop::Live { place, next } => {
            let bytes = store.bytes_at(place).to_vec(alloc)?;
            Ok(Reply::Gave {
                walk,
                place,
                next,
                bytes,
            })
        }
        Stop::End { next } => Ok(Reply::Ended { walk, next }),
        Stop::Fault(fault) => Ok(Reply::Faulted { walk, fault }),
    }
}

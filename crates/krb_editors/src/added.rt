//! Follows the places of the entries that a session adds.

ghost use Rattle.std.specs.Prelude.{◌≡◌, ◌<◌, ◌∷◌, [], true, filter, length, map, nat_lt, IfOk, OnOk};
ghost use Rattle.std.specs.List.Sorted.{IsNonDecreasing};
ghost use Rattle.krb_walk.specs.Events.{session_of};
ghost use Rattle.krb_walk.specs.History.{IsReady, history, moment};
ghost use Rattle.krb_walk.specs.Ran.{Ran};
ghost use Rattle.krb_walk.specs.Ranks.{live_places, nth_or};
ghost use Rattle.krb_walk.specs.ReplyContent.{content_of, is_rewritten};
ghost use Rattle.krb_walk.specs.Store.{Store};
ghost use Rattle.krb_editors.specs.Sessions.{HaveSame, carry_by, is_rewrite, followed_past, followed_over, places_after};

use krb_walk::{Event, Placed, Reply, Session, Stop};
use krb_wire::NoMemory;
use std::alloc::Allocator;
use std::collections::BTreeSet;

// Returns the places of the live cells, in order.
fn live_places<P: Placed, A: Allocator + Copy>(alloc: A, store: &P) -> Result<Vec<u32, A>, NoMemory>
    ensures is { IfOk result (λ places. places.items ≡ live_places (P.rules.seen (P.state_of store.now))) }
    ensures rises { IfOk result (λ places. IsNonDecreasing places.items) }
{
    let mut places = Vec::new(alloc);
    let mut from = store.first();
    while let Stop::Live { place, next } = store.stop_at(from) {
        places.push(place)?;
        from = next;
    }
    Ok(places)
}

// Returns the places of the live cells if the event is to move them.
fn places_before<P: Placed, A: Allocator + Copy>(
    alloc: A,
    store: &P,
    event: &Event<P::Item>,
) -> Result<Vec<u32, A>, NoMemory>
    ensures is { IfOk result (λ places. is_rewrite event.now ≡ true → places.items ≡ live_places (P.rules.seen (P.state_of store.now))) }
    ensures rises { IfOk result (λ places. IsNonDecreasing places.items) }
{
    match event {
        Event::Rewrite => live_places(alloc, store),
        _ => Ok(Vec::new(alloc)),
    }
}

// Returns how many of the places are before that one.
fn rank(places: &[u32], place: u32) -> usize
    requires { IsNonDecreasing places.now }
    ensures { result ≡ length (filter (λ p. nat_lt p place) places.now) }
{
    places.partition_point(|other| *other < place)
}

// Returns the place of that rank, or the end if there is none.
#[tactic(auto, using(crate::proofs::AddedPlaces::nth_or_get))]
fn of_rank(places: &[u32], end: u32, rank: usize) -> u32
    ensures { result ≡ nth_or end places.now rank }
{
    places.get(rank).copied().unwrap_or(end)
}

// Returns the places to which a rewrite carries these, as it carries the cursors of walks.
fn carried<A: Allocator + Copy>(
    alloc: A,
    added: &BTreeSet<u32, A>,
    before: &[u32],
    after: &[u32],
    end: u32,
) -> Result<BTreeSet<u32, A>, NoMemory>
    requires { IsNonDecreasing before.now }
    ensures { IfOk result (λ places. HaveSame places.keys (map (carry_by before.now after.now end) added.now.keys)) }
{
    let mut places = BTreeSet::new(alloc);
    for place in added {
        places.insert(of_rank(after, end, rank(before, *place)))?;
    }
    Ok(places)
}

// Follows the places of added entries past a reply. `before` are the live places of the store that a rewrite replaced.
#[tactic(auto, using(crate::proofs::AddedPlaces::same_inserted, crate::proofs::AddedPlaces::same_removed))]
fn follow<P: Placed, A: Allocator + Copy>(
    alloc: A,
    store: &P,
    before: &[u32],
    reply: &Reply<A>,
    added: &mut BTreeSet<u32, A>,
) -> Result<(), NoMemory>
    requires { IsNonDecreasing before.now }
    ensures { OnOk result ((old : Store) → (is_rewritten (content_of reply.now) ≡ true → before.now ≡ live_places old)
        → HaveSame added.new.keys (places_after old (P.rules.seen (P.state_of store.now)) (content_of reply.now) added.old.keys)) }
{
    match reply {
        Reply::Placed(place) => {
            added.insert(*place)?;
        }
        Reply::Gone(place) => {
            added.remove(place);
        }
        Reply::Rewritten(_) => {
            let after = live_places(alloc, store)?;
            *added = carried(alloc, added, before, &after, store.end())?;
        }
        _ => {}
    }
    Ok(())
}

// Applies an event, adds its reply, and follows the places.
fn apply<P: Placed, A: Allocator + Copy>(
    alloc: A,
    session: &mut Session<P, A>,
    event: &Event<P::Item>,
    replies: &mut Vec<Reply<A>, A>,
    added: &mut BTreeSet<u32, A>,
) -> Result<(), NoMemory>
    ensures ran { OnOk result (Ran P.rules (session_of P.state_of session.old) (session_of P.state_of session.new)
        (event.now ∷ []) (map content_of replies.old.items) (map content_of replies.new.items)) }
    ensures added { OnOk result (HaveSame added.new.keys
        (followed_past P.rules (moment P.rules (session_of P.state_of session.old) event.now) added.old.keys)) }
{
    let before = places_before(alloc, session.store(), event)?;
    let reply = session.apply(event)?;
    follow(alloc, session.store(), &before, &reply, added)?;
    Ok(replies.push(reply)?)
}

/// Applies events in order like `Session::run`, and returns the places, at the end, of the entries that they added.
pub fn run_following<P: Placed, A: Allocator + Copy>(
    alloc: A,
    session: &mut Session<P, A>,
    events: &[Event<P::Item>],
    replies: &mut Vec<Reply<A>, A>,
) -> Result<Vec<u32, A>, NoMemory>
    requires { IsReady P.rules (session_of P.state_of session.old) }
    ensures ran { OnOk result (Ran P.rules (session_of P.state_of session.old) (session_of P.state_of session.new)
        events.now (map content_of replies.old.items) (map content_of replies.new.items)) }
    ensures added { IfOk result (λ places. HaveSame places.items
        (followed_over P.rules [] (history P.rules (session_of P.state_of session.old) events.now))) }
{
    let mut added = BTreeSet::new(alloc);
    'events: for event in events {
        apply(alloc, session, event, replies, &mut added)?;
    }
    Ok(added.iter().copied().collect(alloc)?)
}

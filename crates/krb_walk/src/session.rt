//! A session: a store, and the cursors of the walks over it.

ghost use Rattle.std.specs.Prelude.{◌≡◌, ◌<◌, [], ◌∷◌, length, slice_get, slice_set};
ghost use Rattle.krb_walk.specs.declared.event.Event.TheVariants.{Step};
ghost use Rattle.krb_walk.specs.Store.{IsPlace, end_of, next_live, stop_at};
ghost use Rattle.krb_walk.specs.Events.{SessionState, session_of, after, reply_to, stop_cursor, step_result};
ghost use Rattle.krb_walk.specs.History.{IsReady, place_after};
ghost use Rattle.krb_walk.specs.Ran.{Ran};

mod events;

use crate::placed::Placed;
use crate::refusal::Code;
use crate::stop::Stop;
use std::alloc::Allocator;
use std::marker::Model;

/// A store with up to 1,024 walks, numbered from 0 in order of creation.
#[derive(Drop)]
pub struct Session<P: Placed, A: Allocator + Copy> {
    store: P,
    cursors: [u32; 1024],
    count: u32,
    alloc: A,
}

impl<P: Placed, A: Allocator + Copy> Model for Session<P, A> {
    ghost use Rattle.std.specs.Prelude.{take};
    ghost use Rattle.krb_walk.specs.Events.{SessionState};
    ghost use Rattle.krb_walk.specs.Ran.{Ran};
    ghost use Rattle.krb_walk.specs.History.{IsKept};

    ghost Value = { SessionState P };

    ghost view = { λ s. record { store = s.store; cursors = take s.count s.cursors } };

    ghost invariant = { λ s. IsKept P.rules (P.state_of s.store) s.cursors s.count };
}

impl<P: Placed, A: Allocator + Copy> Session<P, A> {
    /// Returns a session without walks. Takes no memory: `alloc` is kept for the bytes of records.
    pub fn new(alloc: A, store: P) -> Self
        ensures is { result ≡ record { store = store; cursors = [] } }
        ensures ready { IsReady P.rules (session_of P.state_of result) }
    {
        let _ = store.first();
        Session {
            store,
            cursors: [0; 1024],
            count: 0,
            alloc,
        }
    }

    /// Returns the number of walks.
    pub fn walks(&self) -> u32
        ensures { result ≡ length self.now.cursors }
    {
        self.count
    }

    /// Returns the place of a walk's cursor, or `None` if there is no such walk.
    pub fn cursor(&self, walk: u32) -> Option<u32>
        ensures { result ≡ slice_get self.now.cursors walk }
    {
        if walk < self.count {
            Some(self.cursors[walk as usize])
        } else {
            None
        }
    }

    pub fn store(&self) -> &P
        ensures { result.now ≡ self.now.store }
    {
        &self.store
    }

    pub fn into_store(self) -> P
        ensures { result ≡ self.store }
    {
        let Session {
            store,
            cursors: _,
            count: _,
            alloc: _,
        } = self;
        store
    }

    /// Applies `Step` without copying the record: returns where the walk stopped. Takes no memory.
    pub fn step(&mut self, walk: u32) -> Result<Stop, Code>
        ensures stop { result ≡ step_result (P.rules.seen (P.state_of self.old.store)) (slice_get self.old.cursors walk) }
        ensures ran { Ran P.rules (session_of P.state_of self.old) (session_of P.state_of self.new) (Step walk ∷ []) [] (reply_to P.rules (session_of P.state_of self.old) (Step walk) ∷ []) }
    {
        self.move_on(walk)
    }

    fn move_on(&mut self, walk: u32) -> Result<Stop, Code>
        ensures stop { result ≡ step_result (P.rules.seen (P.state_of self.old.store)) (slice_get self.old.cursors walk) }
        ensures state { session_of P.state_of self.new ≡ after P.rules (session_of P.state_of self.old) (Step walk) }
        ensures ready { IsReady P.rules (session_of P.state_of self.old) }
    {
        let Some(cursor) = self.cursor(walk) else {
            return Err(Code::NoSuchWalk);
        };
        let (stop, next) = stop_from(&self.store, cursor);
        self.go_to(walk, next);
        Ok(stop)
    }

    fn go_to(&mut self, walk: u32, place: u32)
        requires is_there { walk < length self.old.cursors }
        requires at_place { IsPlace (P.rules.seen (P.state_of self.old.store)) place }
        ensures { self.new ≡ record { store = self.old.store; cursors = slice_set self.old.cursors walk place } }
    {
        self.cursors[walk as usize] = place;
    }
}

/// Returns where a walk at `cursor` stops next, and its cursor after that.
fn stop_from<P: Placed>(store: &P, cursor: u32) -> (Stop, u32)
    requires { IsPlace (P.rules.seen (P.state_of store.now)) cursor }
    ensures stop { result.0 ≡ stop_at (P.rules.seen (P.state_of store.now)) cursor }
    ensures next { result.1 ≡ stop_cursor (end_of (P.rules.seen (P.state_of store.now))) (next_live (P.rules.seen (P.state_of store.now)) cursor) }
    ensures place { IsPlace (P.rules.seen (P.state_of store.now)) result.1 }
{
    let stop = store.stop_at(cursor);
    (stop, place_after(stop))
}

fn place_after(stop: Stop) -> u32
    ensures { result ≡ place_after stop }
{
    match stop {
        Stop::Live { place: _, next } => next,
        Stop::End { next } => next,
        Stop::Fault(fault) => fault.place,
    }
}

//! A keytab by whose entries the tickets of caches are matched.

ghost use Rattle.std.specs.Prelude.{◌≡◌, IfOk, is_some};
ghost use Rattle.krb_keytab.specs.Find.{placed_entries};
ghost use Rattle.krb_match.specs.Names.{AreNames, entry_text};
ghost use Rattle.krb_match.specs.Tickets.{matched_tickets, near_ticket};

use crate::classes::Classes;
use crate::looking::{Matched, match_tickets};
use crate::names::EntryNames;
use crate::near::NearNames;
use krb_ccache::Ccache;
use krb_keytab::Keytab;
use krb_names::AskedNames;
use krb_wire::NoMemory;
use std::alloc::Allocator;
use std::marker::Model;

/// A keytab by whose entries the tickets of caches are matched; it may also name an entry after those of whose name it has
/// none.
#[derive(Drop)]
pub struct Matcher<'k, A: Allocator> {
    classes: Classes<'k, A>,
    near: Option<NearNames<'k, A>>,
}

impl<'k, A: Allocator> Model for Matcher<'k, A> {
    ghost use Rattle.std.specs.Prelude.{Bool, is_some};
    ghost use Rattle.krb_keytab.specs.Find.{placed_entries};
    ghost use Rattle.krb_keytab.specs.Store.{KeytabState};
    ghost use Rattle.krb_match.specs.Looking.{IsNear};

    ghost Value = { KeytabState × Bool };

    ghost view = { λ m. (m.classes, is_some m.near) };

    ghost invariant = { λ m. IsNear (placed_entries m.classes) m.near };
}

impl<'k, A: Allocator + Copy> Matcher<'k, A> {
    /// Returns that of a keytab with the names of its entries, which names entries if near names are among these. Takes time
    /// n log n in its bytes.
    pub fn of(
        alloc: A,
        keytab: &'k Keytab<A>,
        names: &'k EntryNames<A>,
    ) -> Result<Matcher<'k, A>, NoMemory>
        requires { AreNames (is_some names.now.near) (placed_entries keytab.now.state) names.now }
        ensures { IfOk result (λ m. m ≡ (keytab.now.state, is_some names.now.near)) }
    {
        let classes = Classes::of(alloc, keytab, &names.keys)?;
        let near = match &names.near {
            Some((folded, bare)) => Some(NearNames::of(alloc, folded, bare)?),
            None => None,
        };
        Ok(Matcher { classes, near })
    }

    /// Returns the tickets of a cache that are looked at, each with what is said of it: those that are asked for by their
    /// names, or all of services if any name is. Also the entry that is named.
    pub fn judge<B: Allocator>(
        &self,
        alloc: A,
        names: &AskedNames<B>,
        cache: &Ccache<A>,
    ) -> Result<Matched<A>, NoMemory>
        ensures tickets { IfOk result (λ m. m.tickets.items ≡ matched_tickets names.now self.now.0 cache.now.state) }
        ensures near { IfOk result (λ m. m.near ≡ near_ticket self.now.1 names.now self.now.0 cache.now.state) }
    {
        Ok(match_tickets(alloc, &self.classes, &self.near, names, cache)?)
    }

    /// Returns the name of the entry with a number as it is printed, or nothing if there is none.
    pub fn entry_text(&self, number: usize) -> &[u8]
        ensures { result.now ≡ entry_text self.now.0 number }
    {
        self.classes.entry_text(number)
    }
}

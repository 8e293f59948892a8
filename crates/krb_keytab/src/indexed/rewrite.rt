//! Rewriting a keytab, with its table and tree.

ghost use Rattle.std.specs.Prelude.{◌≡◌, map, Ok, Err, OnOk, OnErr};
ghost use Rattle.std.specs.List.{AllByRecursion};
ghost use Rattle.krb_walk.specs.Rules.{RewriteGives};
ghost use Rattle.krb_walk.specs.Store.{IsPlace};
ghost use Rattle.krb_walk.specs.Ranks.{carry, Rewrites};
ghost use Rattle.krb_keytab.specs.Store.{store_of, entries};
ghost use Rattle.krb_keytab.specs.Rewrite.{rewrite_result};

use super::Indexed;
use krb_walk::Refusal;
use std::alloc::Allocator;

impl<A: Allocator + Copy> Indexed<A> {
    /// Rewrites the keytab in version 2: each entry in order in its written form, with its name type (0 if from
    /// version 1), without holes, and with nothing after them. Each cursor moves to the new place of the first record
    /// at or after it, or to the new end. Refused, in this order: a damaged keytab, a new image longer than the limit.
    /// Takes memory for image, table and tree, with room for one more cell, and all of it before anything is changed.
    pub fn rewrite(&mut self, cursors: &mut [u32]) -> Result<(), Refusal>
        requires { AllByRecursion (IsPlace (store_of self.old.state)) cursors.old }
        ensures gives { RewriteGives (rewrite_result self.old.state) self.old.state result self.new.state }
        ensures rewrites { OnOk result (Rewrites (store_of self.old.state) (store_of self.new.state)) }
        ensures entries { OnOk result (entries self.new.state ≡ entries self.old.state) }
        ensures carries { OnOk result (cursors.new ≡ map (carry (store_of self.old.state) (store_of self.new.state)) cursors.old) }
        ensures keeps { OnErr result (cursors.new ≡ cursors.old) }
        ensures room { OnErr result (self.new.room ≡ self.old.room) }
    {
        let keytab = self.keytab.rewritten()?;
        let Ok(new) = Indexed::of(*self.slots.allocator(), keytab) else {
            return Err(Refusal::NoMemory);
        };
        let Indexed {
            keytab,
            slots,
            tree,
        } = new;
        self.keytab.replace(keytab, cursors);
        self.slots = slots;
        self.tree = tree;
        Ok(())
    }
}

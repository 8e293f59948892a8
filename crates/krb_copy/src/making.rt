//! Removing and adding entries, and the lines about them.

ghost use Rattle.std.specs.Prelude.{◌≡◌, ◌++◌, ◌∷◌, [], OnOk, IfOk, IfErr};
ghost use Rattle.std.specs.List.{flat_map};
ghost use Rattle.krb_keytab_text.specs.Listing.{placed_line, removed_line};
ghost use Rattle.krb_keytab.specs.Changes.{put_result, without};
ghost use Rattle.krb_copy.specs.Copying.{clash_line, copied_lines};
ghost use Rattle.krb_copy.specs.Made.{IsRefusal};

use krb_keytab::{Fields, Indexed, NewEntry};
use krb_text::{append_byte, append_labelled};
use krb_walk::Refusal;
use krb_wire::{Name, NoMemory, copy_name, write_name};
use std::alloc::Allocator;

/// What a run has made: the keytab, its lines, those of the clashes alone, and the places of the copies.
#[derive(Drop)]
pub struct Making<A: Allocator> {
    pub keytab: Indexed<A>,
    pub text: Vec<u8, A>,
    pub clashes: Vec<u8, A>,
    pub places: Vec<u32, A>,
}

// Returns a copy of an entry.
fn copy_of<N: Name, A: Allocator + Copy>(
    alloc: A,
    entry: &Fields<'_, N>,
) -> Result<NewEntry<A>, NoMemory>
    ensures { IfOk result (λ e. e ≡ entry.now) }
{
    let principal = copy_name(alloc, entry.principal)?;
    let key = Vec::from_slice(alloc, entry.key)?;
    Ok(NewEntry {
        principal,
        timestamp: entry.timestamp,
        kvno: entry.kvno,
        enctype: entry.enctype,
        key,
    })
}

// Appends the line of the entry at `place`, after `label`.
fn append_placed<N: Name, A: Allocator>(
    label: &[u8],
    place: u32,
    entry: &Fields<'_, N>,
    out: &mut Vec<u8, A>,
) -> Result<(), NoMemory>
    ensures { OnOk result (out.new.items ≡ out.old.items ++ placed_line label.now (place, entry.now)) }
{
    append_labelled(label, place, out)?;
    append_labelled(b" kvno ", entry.kvno, out)?;
    append_labelled(b" etype ", entry.enctype as u32, out)?;
    append_byte(b' ', out)?;
    write_name(entry.principal, out)?;
    append_byte(b'\n', out)
}

// Appends the line of an entry at `place` that clashes with its first twin.
fn append_clash<N: Name, A: Allocator>(
    place: u32,
    entry: &Fields<'_, N>,
    twin: u32,
    out: &mut Vec<u8, A>,
) -> Result<(), NoMemory>
    ensures { OnOk result (out.new.items ≡ out.old.items ++ clash_line (place, entry.now) twin) }
{
    append_labelled(b"clash ", place, out)?;
    append_placed(b" ", twin, entry, out)
}

impl<A: Allocator + Copy> Making<A> {
    // Removes the twins of an entry, at these places.
    fn remove<N: Name>(&mut self, places: &[u32], entry: &Fields<'_, N>) -> Result<(), NoMemory>
        ensures keytab { OnOk result (self.new.keytab.state ≡ without self.old.keytab.state places.now) }
        ensures text { OnOk result (self.new.text.items
            ≡ self.old.text.items ++ flat_map (λ p. removed_line (p, entry.now)) places.now) }
        ensures clash { self.new.clashes.items ≡ self.old.clashes.items }
        ensures places { self.new.places.items ≡ self.old.places.items }
    {
        'places: for place in places {
            let _ = self.keytab.remove_at(*place);
            append_placed(b"removed ", *place, entry, &mut self.text)?;
        }
        Ok(())
    }

    /// Adds an entry after its twins, at these places, are removed. Returns its place. If the addition is refused,
    /// it adds no line.
    pub fn copy<N: Name>(
        &mut self,
        alloc: A,
        places: &[u32],
        entry: &Fields<'_, N>,
    ) -> Result<u32, Refusal>
        ensures added { IfOk result (λ place. put_result (without self.old.keytab.state places.now) entry.now
            ≡ Ok (place, self.new.keytab.state)) }
        ensures text { IfOk result (λ place. self.new.text.items
            ≡ self.old.text.items ++ copied_lines entry.now places.now place) }
        ensures refused { IfErr result (IsRefusal
            (put_result (without self.old.keytab.state places.now) entry.now) self.old.text.items self.new.text.items) }
        ensures clash { self.new.clashes.items ≡ self.old.clashes.items }
        ensures places { IfOk result (λ place. self.new.places.items ≡ self.old.places.items ++ place ∷ []) }
    {
        let before = self.text.len();
        let new = copy_of(alloc, entry)?;
        self.remove(places, entry)?;
        match self.keytab.add(&new) {
            Ok(place) => {
                append_placed(b"copied ", place, entry, &mut self.text)?;
                self.places.push(place)?;
                Ok(place)
            }
            Err(refusal) => {
                self.text.truncate(before);
                Err(refusal)
            }
        }
    }

    /// Tells that the entry at `place` clashes with its first twin.
    pub fn clash<N: Name>(
        &mut self,
        place: u32,
        entry: &Fields<'_, N>,
        twin: u32,
    ) -> Result<(), NoMemory>
        ensures keytab { self.new.keytab ≡ self.old.keytab }
        ensures places { self.new.places.items ≡ self.old.places.items }
        ensures text { OnOk result (self.new.text.items
            ≡ self.old.text.items ++ clash_line (place, entry.now) twin) }
        ensures clashes { OnOk result (self.new.clashes.items
            ≡ self.old.clashes.items ++ clash_line (place, entry.now) twin) }
    {
        append_clash(place, entry, twin, &mut self.text)?;
        append_clash(place, entry, twin, &mut self.clashes)
    }
}

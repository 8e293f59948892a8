//! The names of a keytab's entries as keys, by which they are compared.

ghost use Rattle.std.specs.Prelude.{◌≡◌, IfOk, OnOk, drop, map};
ghost use Rattle.std.specs.Vec.{vec_items};
ghost use Rattle.krb_keytab.specs.Find.{placed_entries};
ghost use Rattle.krb_match.specs.Names.{AreNames, bare_key, entry_key, folded_key, name_key};

use krb_keytab::Keytab;
use krb_text::append_byte;
use krb_wire::{Name, NoMemory, copy_name, write_name};
use std::alloc::Allocator;

/// Keys, in file order.
pub type KeyList<A> = Vec<Vec<u8, A>, A>;

/// The names of a keytab's entries as keys, and if near ones are wanted also with small letters, and without realms.
#[derive(Drop)]
pub struct EntryNames<A: Allocator> {
    pub(crate) keys: KeyList<A>,
    pub(crate) near: Option<(KeyList<A>, KeyList<A>)>,
}

/// Writes over `out` whether a name has no components, and its text.
pub fn write_key<N: Name, A: Allocator>(name: &N, out: &mut Vec<u8, A>) -> Result<(), NoMemory>
    ensures { OnOk result (out.new.items ≡ name_key (N.parts name.now)) }
{
    out.clear();
    append_byte(u8::from(name.count() == 0), out)?;
    write_name(name, out)
}

/// Returns a name as a key, which is written over `scratch` first.
pub fn key_over<N: Name, A: Allocator + Copy>(
    alloc: A,
    name: &N,
    scratch: &mut Vec<u8, A>,
) -> Result<Vec<u8, A>, NoMemory>
    ensures { IfOk result (λ key. key.items ≡ name_key (N.parts name.now)) }
{
    write_key(name, scratch)?;
    Ok(Vec::from_slice(alloc, scratch)?)
}

/// Returns the text of a name's key.
pub fn text_of(key: &[u8]) -> &[u8]
    ensures { result.now ≡ drop 1 key.now }
{
    key.get(1..).unwrap_or(&[])
}

fn key_of<N: Name, A: Allocator + Copy>(alloc: A, name: &N) -> Result<Vec<u8, A>, NoMemory>
    ensures { IfOk result (λ key. key.items ≡ name_key (N.parts name.now)) }
{
    let mut key = Vec::new(alloc);
    write_key(name, &mut key)?;
    Ok(key)
}

/// Returns a name as a key with small letters.
pub fn folded_key<N: Name, A: Allocator + Copy>(alloc: A, name: &N) -> Result<Vec<u8, A>, NoMemory>
    ensures { IfOk result (λ key. key.items ≡ folded_key (N.parts name.now)) }
{
    Ok(key_of(alloc, name)?.to_ascii_lowercase(alloc)?)
}

/// Returns a name without its realm as a key.
pub fn bare_key<N: Name, A: Allocator + Copy>(alloc: A, name: &N) -> Result<Vec<u8, A>, NoMemory>
    ensures { IfOk result (λ key. key.items ≡ bare_key (N.parts name.now)) }
{
    let mut bare = copy_name(alloc, name)?;
    bare.realm.clear();
    key_of(alloc, &bare)
}

// Returns the names of entries as keys.
fn exact_keys<A: Allocator + Copy, B: Allocator>(
    alloc: A,
    keytab: &Keytab<B>,
) -> Result<KeyList<A>, NoMemory>
    ensures { IfOk result (λ keys. map vec_items keys.items ≡ map entry_key (placed_entries keytab.now.state)) }
{
    let mut keys = Vec::with_capacity(alloc, keytab.cell_count() as usize)?;
    let mut scratch = Vec::new(alloc);
    'entries: for (_place, entry) in keytab.entries() {
        keys.push(key_over(alloc, entry.principal(), &mut scratch)?)?;
    }
    Ok(keys)
}

// Returns them with small letters, and without their realms.
fn near_keys<A: Allocator + Copy, B: Allocator>(
    alloc: A,
    keytab: &Keytab<B>,
) -> Result<(KeyList<A>, KeyList<A>), NoMemory>
    ensures folded { IfOk result (λ keys. map vec_items keys.0.items
        ≡ map (λ x. folded_key x.1.principal) (placed_entries keytab.now.state)) }
    ensures bare { IfOk result (λ keys. map vec_items keys.1.items
        ≡ map (λ x. bare_key x.1.principal) (placed_entries keytab.now.state)) }
{
    let mut folded = Vec::new(alloc);
    let mut bare = Vec::new(alloc);
    'entries: for (_place, entry) in keytab.entries() {
        folded.push(folded_key(alloc, entry.principal())?)?;
        bare.push(bare_key(alloc, entry.principal())?)?;
    }
    Ok((folded, bare))
}

impl<A: Allocator + Copy> EntryNames<A> {
    /// Returns those of a keytab.
    pub fn of<B: Allocator>(
        alloc: A,
        keytab: &Keytab<B>,
        near: bool,
    ) -> Result<EntryNames<A>, NoMemory>
        ensures { IfOk result (AreNames near (placed_entries keytab.now.state)) }
    {
        let keys = exact_keys(alloc, keytab)?;
        let near = if near {
            Some(near_keys(alloc, keytab)?)
        } else {
            None
        };
        Ok(EntryNames { keys, near })
    }
}

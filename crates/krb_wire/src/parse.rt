//! Names from text, like krb5_parse_name.

ghost use Rattle.std.specs.Prelude.{◌≡◌, ◌<◌, ◌≤◌, Bool, ◌⊎◌, length, Ok, Err, Some, None, IsOk, IfOk, IfErr, IfSome, MatchOption, option_map, option_copied};
ghost use Rattle.krb_wire.specs.Reading.{items_of, principal_parts};
ghost use Rattle.krb_wire.specs.Atoms.{atoms, after_at};
ghost use Rattle.krb_wire.specs.NameOf.{first_component, after_first, faults_from, faults_of, first_fault, components_of, realm_of, name_of};

use crate::atom::{Atom, next_atom, split_plain};
use crate::name_fault::NameFault;
use crate::principal::Principal;
use std::alloc::{AllocError, Allocator};

// Returns the text from its first special byte on. The plain bytes before it have no fault and begin no realm.
fn from_special(text: &[u8]) -> &[u8]
    ensures faults { (in_realm : Bool) → first_fault (faults_from in_realm (atoms result.now))
        ≡ first_fault (faults_from in_realm (atoms text.now)) }
    ensures realm { after_at (atoms result.now) ≡ after_at (atoms text.now) }
    ensures shorter { length result.now ≤ length text.now }
{
    split_plain(text).1
}

// Returns the leftmost fault. What follows it is not read.
fn leftmost_fault(text: &[u8]) -> Option<NameFault>
    ensures { result ≡ first_fault (faults_of (atoms text.now)) }
{
    let mut rest = from_special(text);
    let mut in_realm = false;
    while let Some((atom, more)) = next_atom(rest) {
        match (atom, in_realm) {
            (Atom::Lone, _) => return Some(NameFault::LoneBackslash),
            (Atom::At, true) => return Some(NameFault::SecondAt),
            (Atom::Slash, true) => return Some(NameFault::SlashInRealm),
            (Atom::At, false) => in_realm = true,
            _ => {}
        }
        rest = from_special(more);
    }
    None
}

// Returns the text after the first unquoted `@`.
fn realm_text(text: &[u8]) -> Option<&[u8]>
    ensures { option_map (λ realm. atoms realm.now) result ≡ after_at (atoms text.now) }
{
    let mut rest = from_special(text);
    while let Some((atom, more)) = next_atom(rest) {
        if atom == Atom::At {
            return Some(more);
        }
        rest = from_special(more);
    }
    None
}

// Returns why a text is not a name, apart from memory.
fn fault_of(text: &[u8], default_realm: Option<&[u8]>) -> Option<NameFault>
    ensures { MatchOption result (IsOk (name_of text.now (option_copied default_realm.entry)))
        (λ fault. name_of text.now (option_copied default_realm.entry) ≡ Err fault) }
{
    if let Some(fault) = leftmost_fault(text) {
        return Some(fault);
    }
    if realm_text(text).is_none() && default_realm.is_none() {
        return Some(NameFault::NoRealm);
    }
    None
}

// Returns the first component, and the text after the `/` that ends it, if one does.
fn read_first_component<A: Allocator>(
    alloc: A,
    text: &[u8],
) -> Result<(Vec<u8, A>, Option<&[u8]>), AllocError>
    ensures bytes { IfOk result (λ x. x.0.items ≡ first_component (atoms text.now)) }
    ensures rest { IfOk result (λ x. option_map (λ rest. atoms rest.now) x.1
        ≡ after_first (atoms text.now)) }
    ensures shorter { IfOk result (λ x. IfSome x.1 (λ rest. length rest.now < length text.now)) }
{
    let (plain, special) = split_plain(text);
    let mut bytes = Vec::from_slice(alloc, plain)?;
    let mut rest = special;
    while let Some((atom, more)) = next_atom(rest) {
        let byte = match atom {
            Atom::Byte(byte) => byte,
            Atom::Lone => b'\\',
            Atom::Slash => return Ok((bytes, Some(more))),
            Atom::At => return Ok((bytes, None)),
        };
        bytes.push(byte)?;
        rest = more;
    }
    Ok((bytes, None))
}

// Returns all components, in order.
fn read_components<A: Allocator + Copy>(
    alloc: A,
    text: &[u8],
) -> Result<Vec<Vec<u8, A>, A>, AllocError>
    ensures { IfOk result (λ v. items_of v.items ≡ components_of (atoms text.now)) }
{
    let mut all = Vec::new(alloc);
    let mut rest = text;
    loop {
        let (component, more) = read_first_component(alloc, rest)?;
        all.push(component)?;
        let Some(next) = more else {
            return Ok(all);
        };
        rest = next;
    }
}

// Returns the realm after the `@`, or else a copy of the default realm.
fn read_realm<A: Allocator>(
    alloc: A,
    text: &[u8],
    default_realm: Option<&[u8]>,
) -> Result<Vec<u8, A>, AllocError>
    requires { IsOk (name_of text.now (option_copied default_realm)) }
    ensures { IfOk result (λ v. realm_of (atoms text.now) (option_copied default_realm.entry)
        ≡ Some v.items) }
{
    // A realm without a fault has neither `/` nor `@`, so it reads like a component.
    if let Some(realm) = realm_text(text) {
        let (bytes, _) = read_first_component(alloc, realm)?;
        return Ok(bytes);
    }
    let Some(realm) = default_realm else {
        unreachable!()
    };
    Vec::from_slice(alloc, realm)
}

fn read_name<A: Allocator + Copy>(
    alloc: A,
    text: &[u8],
    default_realm: Option<&[u8]>,
) -> Result<Principal<A>, AllocError>
    requires { IsOk (name_of text.now (option_copied default_realm)) }
    ensures { IfOk result (λ p. name_of text.now (option_copied default_realm.entry)
        ≡ Ok (principal_parts p)) }
{
    let realm = read_realm(alloc, text, default_realm)?;
    let components = read_components(alloc, text)?;
    Ok(Principal {
        name_type: 1,
        realm,
        components,
    })
}

/// Parses a text as a name of type 1. Components are separated by `/`, and the realm follows an `@` or is the default
/// realm. A backslash quotes the next byte: `\n`, `\t`, `\b` and `\0` are newline, tab, backspace and NUL, and any
/// other byte is itself. The fault is the leftmost of a backslash at the end, a second `@` and a `/` in the realm; a
/// missing realm comes after these.
pub fn parse_name<A: Allocator + Copy>(
    alloc: A,
    text: &[u8],
    default_realm: Option<&[u8]>,
) -> Result<Principal<A>, NameFault>
    ensures ok { IfOk result (λ p. name_of text.now (option_copied default_realm.entry)
        ≡ Ok (principal_parts p)) }
    // Only a text that has a name can run out of memory.
    ensures err { IfErr result (λ fault.
        (name_of text.now (option_copied default_realm.entry) ≡ Err fault)
        ⊎ ((fault ≡ NameFault.NoMemory)
        × IsOk (name_of text.now (option_copied default_realm.entry)))) }
{
    if let Some(fault) = fault_of(text, default_realm) {
        return Err(fault);
    }
    match read_name(alloc, text, default_realm) {
        Ok(name) => Ok(name),
        Err(_) => Err(NameFault::NoMemory),
    }
}

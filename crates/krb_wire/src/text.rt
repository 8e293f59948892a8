//! Appending text, and names as text, like krb5_unparse_name.

ghost use Rattle.std.specs.Prelude.{◌≡◌, ◌++◌, ℕ, List, Vec, vec_len};
ghost use Rattle.krb_wire.specs.Names.{quote, joined_components, name_text};
ghost use Rattle.krb_wire.specs.Text.{separator, Appended, AppendedPart};
ghost use Rattle.krb_wire.specs.NameOf.{TextsNameTheirNames};

use crate::memory::NoMemory;
use crate::name::Name;
use crate::quote::push_quote;
use std::alloc::{AllocError, Allocator};

/// Truncates `out` to its first `len` bytes if an append failed.
pub fn all_or_nothing<E: Drop, A: Allocator>(
    appended: Result<(), E>,
    len: usize,
    out: &mut Vec<u8, A>,
) -> Result<(), NoMemory>
    ensures { (text : List ℕ) (start : Vec ℕ A) → vec_len start ≡ len
        → AppendedPart text start out.old appended → Appended text start out.new result }
{
    match appended {
        Ok(()) => Ok(()),
        Err(_) => {
            out.truncate(len);
            Err(NoMemory)
        }
    }
}

// Appends a component, after a `/` unless it is the first.
fn push_component<A: Allocator>(
    out: &mut Vec<u8, A>,
    first: bool,
    component: &[u8],
) -> Result<(), AllocError>
    ensures { AppendedPart (separator first ++ quote component.now) out.old out.new result }
{
    if !first {
        out.push(b'/')?;
        return push_quote(out, component);
    }
    push_quote(out, component)
}

fn push_components<N: Name, A: Allocator>(name: &N, out: &mut Vec<u8, A>) -> Result<(), AllocError>
    ensures { AppendedPart (joined_components (N.parts name.now).components)
        out.old out.new result }
{
    let mut first = true;
    for component in name.components() {
        push_component(out, first, component)?;
        first = false;
    }
    Ok(())
}

fn push_name<N: Name, A: Allocator>(name: &N, out: &mut Vec<u8, A>) -> Result<(), AllocError>
    ensures { AppendedPart (name_text (N.parts name.now)) out.old out.new result }
{
    push_components(name, out)?;
    out.push(b'@')?;
    push_quote(out, name.realm())
}

/// Appends the name's text: the components joined by `/`, an `@` and the realm, with a backslash before each byte that
/// must be quoted. A name without components is `@` and its realm.
pub fn write_name<N: Name, A: Allocator>(name: &N, out: &mut Vec<u8, A>) -> Result<(), NoMemory>
    ensures { Appended (name_text (N.parts name.now)) out.old out.new result }
{
    let len = out.len();
    let appended = push_name(name, out);
    all_or_nothing(appended, len, out)
}

/// The text of a name with a component parses as a name of type 1 with the same realm and components, whatever the
/// default realm is.
#[tactic(auto, using(crate::proofs::RoundTrip::round_trip))]
pub fn texts_name_their_names()
    ensures { TextsNameTheirNames }
{}

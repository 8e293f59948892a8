//! Equal names.

ghost use Rattle.std.specs.Prelude.{◌≡◌, ◌↔◌, IsTrue};
ghost use Rattle.krb_wire.specs.Names.{have_same_name};

use crate::components::Components;
use crate::name::Name;
use std::alloc::Allocator;

fn same_components<A: Allocator, B: Allocator>(
    one: Components<'_, A>,
    mut other: Components<'_, B>,
) -> bool
    ensures { IsTrue result ↔ (one.entry ≡ other.entry) }
{
    for component in one {
        let Some(next) = other.next() else {
            return false;
        };
        if component != next {
            return false;
        }
    }
    other.next().is_none()
}

/// Returns whether the realms and the components are equal. Name types are ignored.
pub fn same_name<N: Name, M: Name>(one: &N, other: &M) -> bool
    ensures { result ≡ have_same_name (N.parts one.now) (M.parts other.now) }
{
    one.realm() == other.realm() && same_components(one.components(), other.components())
}

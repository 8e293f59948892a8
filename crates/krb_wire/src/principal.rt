//! Owned names, and copies of names.

ghost use Rattle.std.specs.Prelude.{◌≡◌, IfOk};
ghost use Rattle.krb_wire.specs.Reading.{items_of, principal_parts};

use crate::components::Components;
use crate::memory::NoMemory;
use crate::name::Name;
use std::alloc::Allocator;

/// An owned name.
#[derive(Drop)]
pub struct Principal<A: Allocator> {
    pub name_type: u32,
    pub realm: Vec<u8, A>,
    pub components: Vec<Vec<u8, A>, A>,
}

impl<A: Allocator> Name for Principal<A> {
    type Heap = A;

    ghost parts = { λ p. principal_parts p };

    fn name_type(&self) -> u32 {
        self.name_type
    }

    fn realm(&self) -> &[u8] {
        &self.realm
    }

    fn count(&self) -> usize {
        self.components.len()
    }

    fn component(&self, i: usize) -> Option<&[u8]> {
        match self.components.get(i) {
            Some(component) => Some(component),
            None => None,
        }
    }

    fn components(&self) -> Components<'_, A> {
        Components::kept(&self.components)
    }
}

fn copy_components<N: Name, A: Allocator + Copy>(
    alloc: A,
    name: &N,
) -> Result<Vec<Vec<u8, A>, A>, NoMemory>
    ensures { IfOk result (λ v. items_of v.items ≡ (N.parts name.now).components) }
{
    let mut all = Vec::with_capacity(alloc, name.count())?;
    for component in name.components() {
        all.push(Vec::from_slice(alloc, component)?)?;
    }
    Ok(all)
}

/// Returns an owned copy with the same name type, realm and components.
pub fn copy_name<N: Name, A: Allocator + Copy>(alloc: A, name: &N) -> Result<Principal<A>, NoMemory>
    ensures { IfOk result (λ p. principal_parts p ≡ N.parts name.now) }
{
    let realm = Vec::from_slice(alloc, name.realm())?;
    let components = copy_components(alloc, name)?;
    Ok(Principal {
        name_type: name.name_type(),
        realm,
        components,
    })
}

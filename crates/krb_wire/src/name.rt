//! Names of principals, owned or borrowed.

ghost use Rattle.std.specs.Prelude.{◌≡◌, length, slice_get, option_copied};
ghost use Rattle.krb_wire.specs.Spelling.{Parts};

use crate::components::Components;
use std::alloc::Allocator;

/// The name of a principal. Its realm and components are bytes and need not be text.
pub trait Name {
    /// The allocator of the components, where they are owned.
    type Heap: Allocator;

    /// Which name it is.
    ghost parts: { Self → Parts };

    /// Returns the name type: 0 unknown, 1 a principal, and others (RFC 4120, section 6.2).
    fn name_type(&self) -> u32
        ensures { result ≡ (parts self.now).name_type };

    fn realm(&self) -> &[u8]
        ensures { result.now ≡ (parts self.now).realm };

    /// Returns the number of components.
    fn count(&self) -> usize
        ensures { result ≡ length (parts self.now).components };

    /// Returns the component at index `i`. A borrowed name scans those before it: to iterate all, use `components`.
    fn component(&self, i: usize) -> Option<&[u8]>
        ensures { option_copied result ≡ slice_get (parts self.now).components i };

    /// Returns an iterator over all components in order, in one pass.
    fn components(&self) -> Components<'_, Self::Heap>
        ensures { result ≡ (parts self.now).components };
}

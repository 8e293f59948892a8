//! Keytabs for C.

mod calls;
mod changes;
mod findings;
mod looks;
mod opener;
mod opening;

use crate::heap::Heap;
use crate::walked::Walked;
use krb_keytab::Indexed;

/// A keytab in memory, with a table of its cells: adding and removing take no pass over them.
pub type HeldKeytab = Walked<Indexed<Heap>>;

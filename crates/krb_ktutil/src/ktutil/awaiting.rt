//! What the next line of ktutil is, and an entry whose key is still to come.

ghost use Rattle.std.specs.Prelude.{◌≡◌};
ghost use Rattle.krb_wire.specs.Reading.{principal_parts};
ghost use Rattle.krb_ktutil.specs.KtutilPlan.{Awaited, is_pending, key_prompt};
ghost use Rattle.krb_ktutil.specs.KtutilTalk.{prompt_of};

use krb_wire::Principal;
use std::alloc::Allocator;
use std::marker::Model;

/// What the next line is: a command, the key of an entry, or a password, which is passed over.
#[derive(Drop)]
pub enum Awaiting<K> {
    Nothing,
    Key(K),
    Password,
}

impl<K: Drop> Awaiting<K> {
    /// Returns whether the next line is not read as a command.
    pub fn is_pending(&self) -> bool
        ensures { result ≡ is_pending self.now }
    {
        !matches!(self, Awaiting::Nothing)
    }
}

impl<A: Allocator> Awaiting<Addition<A>> {
    /// Returns the prompt before the next line.
    pub fn prompt(&self) -> &[u8]
        ensures { result.now ≡ prompt_of self.now }
    {
        match self {
            Awaiting::Nothing => b"ktutil: ",
            Awaiting::Key(entry) => &entry.prompt,
            Awaiting::Password => b"password (not used): ",
        }
    }
}

/// An entry without its key and its time, and the prompt for its key.
#[derive(Drop)]
pub struct Addition<A: Allocator> {
    pub principal: Principal<A>,
    pub kvno: u32,
    pub enctype: u16,
    pub prompt: Vec<u8, A>,
}

impl<A: Allocator> Model for Addition<A> {
    ghost Value = { Awaited };

    ghost view = { λ x. record {
      principal = principal_parts x.principal;
      version = x.kvno;
      enctype = x.enctype;
    } };

    ghost invariant = { λ x. x.prompt.items ≡ key_prompt (principal_parts x.principal) };
}

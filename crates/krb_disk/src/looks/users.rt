//! Which owners of a stale file are accepted.

ghost use Rattle.std.specs.Prelude.{◌↔◌, IsTrue};
ghost use Rattle.krb_disk.specs.Looks.{MayBeLeft};

use crate::looks::{Found, Looks};
use crate::open_file::System;

/// Where the system reports which user runs this program.
const THIS_PROCESS: &str = "/proc/self";

/// The users who may own a stale file.
#[derive(Clone, Copy)]
pub struct Users {
    owner: Option<u32>,
    this: Option<u32>,
}

impl Users {
    /// Returns the owner of the file to be changed, and the user who runs this program, if the system reports it.
    pub fn of_run<R: System>(looks: &Looks<'_, R>, owner: Option<u32>) -> Users {
        let process = looks.come_to(THIS_PROCESS).ok();
        let this = process.map(|process| process.owner);
        Users { owner, this }
    }

    pub fn may_have_left(self, found: &Found) -> bool
        ensures { IsTrue result ↔ MayBeLeft self.owner self.this found.now }
    {
        let user = Some(found.owner);
        found.is_file() && found.links == 1 && (user == self.owner || user == self.this)
    }
}

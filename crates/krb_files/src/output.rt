//! Writes to a watched writer.

ghost use Rattle.std.specs.Prelude.{◌≡◌, Some, [], is_err, OnOk, OnErr, IfErr};
ghost use Rattle.std.specs.Io.KnownBytes.{Appends};
ghost use Rattle.krb_files.specs.declared.output.OutFault.TheVariants.{NoMemory as OutOfMemory};
ghost use Rattle.krb_files.specs.Bytes.{AppendsPrefix};
ghost use Rattle.krb_files.specs.Phrases.{out_phrase};

use crate::watched::Watched;
use krb_wire::NoMemory;
use std::fmt;
use std::io::Write;
use thiserror::Error;

/// Why a text was not written.
#[derive(Clone, Copy, Debug, PartialEq, Eq, Error)]
pub enum OutFault {
    /// The writer failed, or took no bytes.
    Write,
    NoMemory,
}

impl OutFault {
    /// Returns its phrase.
    pub fn phrase(self) -> &'static str
        ensures { result.now ≡ out_phrase self }
    {
        match self {
            OutFault::Write => "cannot write",
            OutFault::NoMemory => "out of memory",
        }
    }
}

impl fmt::Display for OutFault {
    ghost output = { λ fault. Some (out_phrase fault) };

    fn fmt<W: fmt::Write>(&self, f: &mut fmt::Formatter<W>) -> fmt::Result {
        f.write_str(self.phrase())
    }
}

impl From<NoMemory> for OutFault {
    ghost from_gives = { λ _ fault. fault ≡ OutOfMemory };

    fn from(_refused: NoMemory) -> OutFault {
        OutFault::NoMemory
    }
}

/// Writes all the bytes, or none if the writer failed before. After a failure it has taken a prefix of them.
pub fn put<W: Write>(out: &mut Watched<W>, bytes: &[u8]) -> Result<(), OutFault>
    ensures ok { OnOk result (Appends out.old.contents out.new.contents bytes.now) }
    ensures prefix { OnErr result (AppendsPrefix out.old.contents out.new.contents bytes.now) }
    ensures failed { out.new.failed ≡ is_err result }
    ensures why { IfErr result (λ fault. fault ≡ OutFault.Write) }
    ensures nothing { bytes.now ≡ [] → out.new.failed ≡ out.old.failed }
{
    if out.has_failed() {
        return Err(OutFault::Write);
    }
    let mut done = 0;
    while done < bytes.len() {
        match out.write_some(&bytes[done..]) {
            Some(n) => done += n,
            None => return Err(OutFault::Write),
        }
    }
    Ok(())
}

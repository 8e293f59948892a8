//! The line of a fault.

ghost use Rattle.std.specs.Prelude.{◌≡◌, ◌++◌, OnOk, IsFalse};
ghost use Rattle.krb_wire.specs.Text.{AppendedPart};
ghost use Rattle.krb_text.specs.FaultLine.{fault_line, fault_text};
ghost use Rattle.krb_text.specs.Gathered.{Prints};

use crate::bytes::{append_byte, append_labelled};
use krb_files::{OutFault, Watched, put};
use krb_walk::Fault;
use krb_wire::NoMemory;
use std::alloc::Allocator;
use std::io::Write;

/// Appends a fault's kind, as a number, and its place, and ends the line. If an allocation fails, part of it may
/// have been appended.
pub fn append_fault<A: Allocator>(fault: Fault, out: &mut Vec<u8, A>) -> Result<(), NoMemory>
    ensures { AppendedPart (fault_text fault) out.old out.new result }
{
    append_labelled(b"fault ", fault.kind.number(), out)?;
    append_labelled(b" at ", fault.place, out)?;
    append_byte(b'\n', out)
}

/// Appends the line of the fault, if there is one.
pub fn append_fault_line<A: Allocator>(
    fault: Option<Fault>,
    out: &mut Vec<u8, A>,
) -> Result<(), NoMemory>
    ensures { OnOk result (out.new.items ≡ out.old.items ++ fault_line fault) }
{
    match fault {
        Some(fault) => append_fault(fault, out),
        None => Ok(()),
    }
}

/// Writes what is gathered, and after it the line of the fault, if there is one.
pub fn send_last<A: Allocator, W: Write>(
    fault: Option<Fault>,
    gathered: &mut Vec<u8, A>,
    out: &mut Watched<W>,
) -> Result<(), OutFault>
    requires { IsFalse out.old.failed }
    ensures { Prints out.old out.new result (gathered.old.items ++ fault_line fault) }
{
    append_fault_line(fault, gathered)?;
    put(out, gathered)
}

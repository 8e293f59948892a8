//! Buffered output: text is gathered into large writes.

ghost use Rattle.std.specs.Prelude.{◌≡◌, ◌<◌, [], vec_len, is_err, IsFalse, OnOk, OnErr, IfOk, IfErr};
ghost use Rattle.krb_files.specs.Bytes.{AppendsPrefix};
ghost use Rattle.krb_text.specs.Gathered.{Sent};

use krb_files::{OutFault, Watched, put};
use krb_wire::NoMemory;
use std::alloc::Allocator;
use std::io::Write;

// Once this many bytes are gathered, they are written.
const FULL: usize = 32_768;

/// Returns an empty buffer with room for the first lines. It grows for a long listing, to at most twice what is
/// gathered before a write, if no line is longer than that.
pub fn room_to_gather<A: Allocator>(alloc: A) -> Result<Vec<u8, A>, NoMemory>
    ensures { IfOk result (λ gathered. gathered.items ≡ []) }
{
    Ok(Vec::with_capacity(alloc, FULL / 8)?)
}

/// Writes what is gathered if it is 32,768 bytes or more; otherwise does nothing.
pub fn send_if_full<A: Allocator, W: Write>(
    gathered: &mut Vec<u8, A>,
    out: &mut Watched<W>,
) -> Result<(), OutFault>
    requires { IsFalse out.old.failed }
    ensures ok { OnOk result (Sent out.old.contents out.new.contents
        gathered.old.items gathered.new.items) }
    ensures little { OnOk result (vec_len gathered.new < FULL) }
    ensures prefix { OnErr result
        (AppendsPrefix out.old.contents out.new.contents gathered.old.items) }
    ensures failed { out.new.failed ≡ is_err result }
    ensures why { IfErr result (λ fault. fault ≡ OutFault.Write) }
{
    if gathered.len() < FULL {
        return Ok(());
    }
    put(out, gathered)?;
    gathered.clear();
    Ok(())
}

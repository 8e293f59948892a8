//! Clearing a block.
ghost use Rattle.wiping.specs.Zeros.{HasSize, cleared};
ghost use mir.Syntax.{Ty};
ghost use types.Logic.{sem};
ghost use denote.RawPtr.{room_for};

/// Writes zeros over the `size` bytes at `ptr`.
pub unsafe fn wipe(ptr: *mut u8, size: usize)
    ghost ty: { Ty }
    requires layout { HasSize ty size }
    requires* block { sem 𝓛 (room_for ty ptr) }
    ensures* { sem 𝓛 (cleared ty size ptr) }
{
    let mut at = 0;
    while at < size {
        unsafe {
            ptr.add(at).write(0);
        }
        at += 1;
    }
}

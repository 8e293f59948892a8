//! A writer that escapes for a terminal.

ghost use Rattle.std.specs.Prelude.{◌≡◌, ℕ, ◌&&◌, ◌≤◌, List, [], ◌++◌, length, min, take, IsFalse, IsTrue, IfOk, OnOk, OnErr};
ghost use Rattle.std.specs.Io.{WritesAtMost};
ghost use Rattle.std.specs.Io.KnownBytes.{Keeps, WriteAppends, Appends};
ghost use Rattle.krb_wire.specs.Controls.{escaped};
ghost use Rattle.krb_wire.specs.declared.controls.Style.TheVariants.{Terminal};
ghost use Rattle.krb_files.specs.Bytes.{AppendsPrefix};
ghost use Rattle.krb_terminal.specs.Screen.{Fails, Takes, finished, passed};

use arrayvec::ArrayVec;
use krb_wire::controls::{FIRST, Style, add};
use std::io::{self, ErrorKind, Write};
use std::marker::Model;

// The most bytes that are escaped at once: what messages are gathered in.
const MOST: usize = 4352;

// Room for what they add.
const ROOM: usize = 9 * MOST;

// Escapes bytes, after a c2 that may be held back. Returns whether one is held back now.
#[tactic(auto, unfolding(krb_wire::specs::Controls::escaped))]
fn escape(bytes: &[u8], holds: bool, text: &mut ArrayVec<u8, ROOM>) -> bool
    requires few { length bytes.now ≤ 4352 }
    requires empty { text.old.items ≡ [] }
    ensures { (rest : List ℕ) → text.new.items ++ escaped Terminal result rest ≡ escaped Terminal holds (bytes.now ++ rest) }
{
    let mut holding = holds;
    'bytes: for byte in bytes {
        holding = add(Style::Terminal, *byte, holding, text);
    }
    holding
}

/// Writes all the bytes. A write that fails or takes no bytes is the last: a prefix of the bytes was written.
pub fn send<W: Write>(writer: &mut W, bytes: &[u8]) -> io::Result<()>
    ensures ok { OnOk result (Appends (W.contents writer.old) (W.contents writer.new) bytes.now) }
    ensures prefix { OnErr result (AppendsPrefix (W.contents writer.old) (W.contents writer.new) bytes.now) }
{
    let mut done = 0;
    while done < bytes.len() {
        match writer.write(&bytes[done..]) {
            Ok(0) => return Err(ErrorKind::WriteZero.into()),
            Ok(taken) => done += taken,
            Err(error) => return Err(error),
        }
    }
    Ok(())
}

/// A writer before another. It escapes what could change a terminal, or passes all on as it is. It holds back a c2
/// until the next byte comes. Contracts see what the other holds, if known, whether it escapes, and whether a c2 is
/// held back.
#[derive(Drop)]
pub struct Screen<W: Write> {
    writer: W,
    escapes: bool,
    holds: bool,
}

impl<W: Write> Model for Screen<W> {
    ghost use Rattle.krb_terminal.specs.Screen.{Shown};

    ghost Value = { Shown };

    ghost view = { λ s. record { contents = W.contents s.writer; escapes = s.escapes; holds = s.holds } };
}

impl<W: Write> Screen<W> {
    /// Wraps a writer, to escape or to pass all on.
    pub fn new(writer: W, escapes: bool) -> Screen<W>
        ensures contents { result.contents ≡ W.contents writer }
        ensures escapes { result.escapes ≡ escapes }
        ensures holds { IsFalse result.holds }
    {
        Screen {
            writer,
            escapes,
            holds: false,
        }
    }

    /// Ends the output: writes a c2 that is held back.
    #[tactic(auto, unfolding(krb_wire::specs::Controls::escaped))]
    pub fn finish(&mut self) -> io::Result<()>
        ensures ok { OnOk result (Keeps (finished self.old []) self.new.contents) }
        ensures ended { OnOk result (Keeps self.new.contents (finished self.new [])) }
        ensures err { OnErr result (Fails self.old self.new []) }
    {
        if !self.is_holding() {
            return Ok(());
        }
        self.holds = false;
        send(&mut self.writer, &[FIRST])?;
        Ok(())
    }

    // Returns whether a c2 is held back.
    fn is_holding(&self) -> bool
        ensures { result ≡ (self.now.escapes && self.now.holds) }
    {
        self.escapes && self.holds
    }

    // Writes some bytes escaped.
    fn write_escaped(&mut self, bytes: &[u8]) -> io::Result<usize>
        requires { IsTrue self.old.escapes }
        ensures much { IfOk result (λ n. n ≡ min (length bytes.now) 4352) }
        ensures ok { IfOk result (λ n. Takes self.old self.new (take n bytes.now)) }
        ensures err { OnErr result (Fails self.old self.new bytes.now) }
    {
        let count = bytes.len().min(MOST);
        let mut text = ArrayVec::new();
        let holds = escape(&bytes[..count], self.holds, &mut text);
        self.holds = false;
        send(&mut self.writer, text.as_slice())?;
        self.holds = holds;
        Ok(count)
    }
}

impl<W: Write> Write for Screen<W> {
    ghost use Rattle.krb_terminal.specs.Screen.{passed};

    ghost contents = { passed };

    fn write(&mut self, bytes: &[u8]) -> io::Result<usize>
        ensures bound { WritesAtMost result bytes.now }
        ensures bytes { WriteAppends (passed self.old) (passed self.new) result bytes.now }
        ensures ok { IfOk result (λ n. Takes self.old self.new (take n bytes.now)) }
        ensures err { OnErr result (Fails self.old self.new bytes.now) }
        ensures much { IsTrue self.old.escapes → IfOk result (λ n. n ≡ min (length bytes.now) 4352) }
    {
        if self.escapes {
            return self.write_escaped(bytes);
        }
        self.writer.write(bytes)
    }

    // Keeps a c2 back, since its pair may still come.
    fn flush(&mut self) -> io::Result<()>
        ensures bytes { Keeps (passed self.old) (passed self.new) }
        ensures same { Takes self.old self.new [] }
    {
        self.writer.flush()
    }
}

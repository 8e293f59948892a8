//! A writer and a reader that keep why they failed.

ghost use Rattle.std.specs.Prelude.{◌≡◌, ◌<◌, ◌≤◌, length, take, IsTrue, IsFalse, MatchOption};
ghost use Rattle.std.specs.Io.KnownBytes.{Appends, Keeps, Consumes, IsAtEnd};

use crate::cause::Cause;
use std::io::{Read, Write};
use std::marker::Model;

/// A writer that remembers for good whether one of its writes failed, with an error or by taking no bytes. Contracts
/// see what was written to it, if known, and whether it has failed.
#[derive(Drop)]
pub struct Watched<W: Write> {
    writer: W,
    failed: bool,
    cause: Option<Cause>,
}

impl<W: Write> Model for Watched<W> {
    ghost use Rattle.krb_files.specs.Bytes.{Watch};

    ghost Value = { Watch };

    ghost view = { λ w. record { contents = W.contents w.writer; failed = w.failed } };
}

impl<W: Write> Watched<W> {
    /// Wraps a writer. No write has failed yet.
    pub fn new(writer: W) -> Watched<W>
        ensures contents { result.contents ≡ W.contents writer }
        ensures failed { IsFalse result.failed }
    {
        Watched {
            writer,
            failed: false,
            cause: None,
        }
    }

    /// Returns whether a write failed.
    pub fn has_failed(&self) -> bool
        ensures { result ≡ self.now.failed }
    {
        self.failed
    }

    /// Returns the cause of the last write that failed with an error.
    pub fn cause(&self) -> Option<Cause> {
        self.cause
    }

    /// Writes once. Returns the number of bytes that were taken, or `None` if it failed.
    pub fn write_some(&mut self, bytes: &[u8]) -> Option<usize>
        requires { 0 < length bytes.now }
        ensures { MatchOption result
            (Keeps self.old.contents self.new.contents × IsTrue self.new.failed)
            (λ n. (0 < n) × (n ≤ length bytes.now) × Appends self.old.contents self.new.contents (take n bytes.now)
            × (self.new.failed ≡ self.old.failed)) }
    {
        match self.writer.write(bytes) {
            Ok(n) if n > 0 => Some(n),
            Ok(_) => {
                self.failed = true;
                None
            }
            Err(error) => {
                self.failed = true;
                self.cause = Some(Cause::from(&error));
                None
            }
        }
    }
}

/// A reader that remembers for good whether one of its reads failed. Contracts see what is left to read, if known, and
/// whether it has failed.
#[derive(Drop)]
pub struct WatchedReader<R: Read> {
    reader: R,
    failed: bool,
    cause: Option<Cause>,
}

impl<R: Read> Model for WatchedReader<R> {
    ghost use Rattle.krb_files.specs.Bytes.{Source};

    ghost Value = { Source };

    ghost view = { λ r. record { left = R.remaining r.reader; failed = r.failed } };
}

impl<R: Read> WatchedReader<R> {
    /// Wraps a reader. No read has failed yet.
    pub fn new(reader: R) -> WatchedReader<R>
        ensures left { result.left ≡ R.remaining reader }
        ensures failed { IsFalse result.failed }
    {
        WatchedReader {
            reader,
            failed: false,
            cause: None,
        }
    }

    /// Returns the reader.
    pub fn into_reader(self) -> R
        ensures { R.remaining result ≡ self.left }
    {
        self.reader
    }

    /// Returns the cause of the last read that failed.
    pub fn cause(&self) -> Option<Cause> {
        self.cause
    }

    /// Reads once. Returns the number of bytes read, 0 at the end, or `None` if it failed.
    pub fn read_some(&mut self, bytes: &mut [u8]) -> Option<usize>
        requires { 0 < length bytes.old }
        ensures { MatchOption result
            (Keeps self.old.left self.new.left × IsTrue self.new.failed)
            (λ n. (n ≤ length bytes.new) × Consumes self.old.left self.new.left (take n bytes.new)
            × (n ≡ 0 → IsAtEnd self.new.left) × (self.new.failed ≡ self.old.failed)) }
    {
        match self.reader.read(bytes) {
            Ok(n) => Some(n),
            Err(error) => {
                self.failed = true;
                self.cause = Some(Cause::from(&error));
                None
            }
        }
    }
}

//! A file that keeps its last error.

use std::io::{self, Write};

#[derive(Drop)]
pub struct Noted<F> {
    pub file: F,
    error: Option<io::Error>,
}

impl<F> Noted<F> {
    ghost use Rattle.std.specs.Prelude.{◌≡◌};

    pub fn new(file: F) -> Noted<F>
        ensures { result.file ≡ file }
    {
        Noted { file, error: None }
    }

    /// Returns the last error, or `WriteZero` if there was none: a write that took no bytes has no error of its own.
    pub fn error(&self) -> io::Error {
        self.error.unwrap_or(io::ErrorKind::WriteZero.into())
    }
}

impl<F: Write> Write for Noted<F> {
    ghost contents = { λ noted. F.contents noted.file };

    fn write(&mut self, buf: &[u8]) -> io::Result<usize> {
        let written = self.file.write(buf);
        if let Err(error) = &written {
            self.error = Some(*error);
        }
        written
    }

    fn flush(&mut self) -> io::Result<()> {
        self.file.flush()
    }
}

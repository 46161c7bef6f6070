//! Standard error as a writer.
use std::io::{self, ErrorKind, Write};
use std::str::from_utf8;

/// Standard error. It takes only text.
#[derive(Drop)]
pub struct ErrorStream<'a, R: Eprint> {
    rt: &'a R,
}

impl<'a, R: Eprint> ErrorStream<'a, R> {
    /// The standard error of `rt`.
    pub fn new(rt: &'a R) -> ErrorStream<'a, R> {
        ErrorStream { rt }
    }
}

impl<R: Eprint> Write for ErrorStream<'_, R> {
    fn write(&mut self, buf: &[u8]) -> io::Result<usize> {
        let Ok(text) = from_utf8(buf) else {
            return Err(io::Error::from(ErrorKind::InvalidData));
        };
        self.rt.eprint(text)?;
        Ok(buf.len())
    }

    fn flush(&mut self) -> io::Result<()> {
        Ok(())
    }
}

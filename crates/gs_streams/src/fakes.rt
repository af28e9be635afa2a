//! Streams that fail, to test with.
ghost use Rattle.std.specs.Prelude.{Some};

use std::io;
use std::io::{ErrorKind, Read, Write};

/// A reader that gives a text and then fails.
#[derive(Debug, Drop)]
pub struct Broken<'a> {
    pub rest: &'a [u8],
}

impl<'a> Read for Broken<'a> {
    ghost remaining = { λ broken. Some broken.rest.now };

    fn read(&mut self, buf: &mut [u8]) -> io::Result<usize> {
        if self.rest.is_empty() {
            return Err(io::Error::from(ErrorKind::ConnectionReset));
        }
        self.rest.read(buf)
    }
}

/// A writer that takes at most `step` bytes at a time and `room` bytes in all. After that it fails or takes none.
#[derive(Debug, Drop)]
pub struct Narrow {
    pub taken: Vec<u8>,
    pub step: usize,
    pub room: usize,
    pub fails: bool,
}

impl Write for Narrow {
    ghost contents = { λ narrow. Some narrow.taken.items };

    fn write(&mut self, buf: &[u8]) -> io::Result<usize> {
        let count = buf.len().min(self.step).min(self.room);
        if count == 0 && self.fails {
            return Err(io::Error::from(ErrorKind::BrokenPipe));
        }
        self.taken.extend_from_slice(&buf[..count])?;
        self.room -= count;
        Ok(count)
    }

    fn flush(&mut self) -> io::Result<()> {
        Ok(())
    }
}

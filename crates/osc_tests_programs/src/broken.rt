//! Inputs and outputs that fail.
use std::io::{self, ErrorKind, Read, Write};
use std::os::fd::{AsRawFd, RawFd};

/// Gives some bytes and then fails.
#[derive(Drop)]
pub(crate) struct BrokenReader {
    pub(crate) bytes: &'static [u8],
}

impl Read for BrokenReader {
    fn read(&mut self, buf: &mut [u8]) -> io::Result<usize> {
        if self.bytes.is_empty() {
            return Err(io::Error::from(ErrorKind::BrokenPipe));
        }
        self.bytes.read(buf)
    }
}

/// Never ends, and counts what it gave.
#[derive(Drop)]
pub(crate) struct Endless {
    pub(crate) given: usize,
}

impl Read for Endless {
    fn read(&mut self, buf: &mut [u8]) -> io::Result<usize> {
        buf.fill(b'#');
        self.given = self.given.saturating_add(buf.len());
        Ok(buf.len())
    }
}

/// Takes some writes and then fails.
#[derive(Drop)]
pub(crate) struct BrokenWriter {
    pub(crate) writes: usize,
}

impl Write for BrokenWriter {
    fn write(&mut self, buf: &[u8]) -> io::Result<usize> {
        if self.writes == 0 {
            return Err(io::Error::from(ErrorKind::BrokenPipe));
        }
        self.writes -= 1;
        Ok(buf.len())
    }

    fn flush(&mut self) -> io::Result<()> {
        Ok(())
    }
}

/// Refuses some writes, as a pipe that is full, and then takes all.
#[derive(Drop)]
pub(crate) struct FullPipe {
    pub(crate) refuses: usize,
    pub(crate) taken: Vec<u8>,
    pub(crate) fd: RawFd,
}

impl Write for FullPipe {
    fn write(&mut self, buf: &[u8]) -> io::Result<usize> {
        if self.refuses > 0 {
            self.refuses -= 1;
            return Err(io::Error::from(ErrorKind::WouldBlock));
        }
        self.taken.extend_from_slice(buf)?;
        Ok(buf.len())
    }

    fn flush(&mut self) -> io::Result<()> {
        Ok(())
    }
}

impl AsRawFd for FullPipe {
    fn as_raw_fd(&self) -> RawFd {
        self.fd
    }
}

/// Takes so many bytes, and then nothing more.
#[derive(Drop)]
pub(crate) struct Narrow {
    pub(crate) room: usize,
    pub(crate) taken: Vec<u8>,
}

impl Write for Narrow {
    fn write(&mut self, buf: &[u8]) -> io::Result<usize> {
        let count = buf.len().min(self.room);
        if count == 0 {
            return Err(io::Error::from(ErrorKind::WouldBlock));
        }
        self.taken.extend_from_slice(&buf[..count])?;
        self.room -= count;
        Ok(count)
    }

    fn flush(&mut self) -> io::Result<()> {
        Ok(())
    }
}

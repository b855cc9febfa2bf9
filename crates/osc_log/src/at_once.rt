//! A writer that never waits.
ghost use Rattle.std.specs.Prelude.{◌≡◌};

use libc::net::{POLLOUT, poll};
use libc::types::pollfd;
use std::cmp::min;
use std::io::{self, ErrorKind, Write};
use std::os::fd::AsRawFd;

// What a pipe takes at once where it takes anything (PIPE_BUF in POSIX's limits.h, as Linux has it).
const MOST_AT_ONCE: usize = 4096;

/// Writes what is taken at once, and waits for nobody: where nothing is, as by a pipe that is full, a write fails by `WouldBlock`.
///
/// Where others write to the same pipe, it may fill up in between, and then a write waits all the same.
#[derive(Drop)]
pub struct AtOnce<W: Write + AsRawFd + Drop> {
    writer: W,
}

impl<W: Write + AsRawFd + Drop> AtOnce<W> {
    /// Writes to this writer.
    pub fn new(writer: W) -> AtOnce<W>
        ensures { result.writer ≡ writer }
    {
        AtOnce { writer }
    }
}

impl<W: Write + AsRawFd + Drop> Write for AtOnce<W> {
    fn write(&mut self, buf: &[u8]) -> io::Result<usize> {
        if !takes_some(self.writer.as_raw_fd()) {
            return Err(io::Error::from(ErrorKind::WouldBlock));
        }
        self.writer.write(&buf[..min(buf.len(), MOST_AT_ONCE)])
    }

    fn flush(&mut self) -> io::Result<()> {
        self.writer.flush()
    }
}

// Whether a write would end at once, be it by an error.
fn takes_some(fd: i32) -> bool {
    let mut asked = [pollfd {
        fd,
        events: POLLOUT,
        revents: 0,
    }];
    poll(&mut asked, 0) > 0
}

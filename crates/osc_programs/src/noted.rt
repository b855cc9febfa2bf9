//! Why an input or an output failed, and what an input gave.
ghost use Rattle.std.specs.Prelude.{◌≡◌, ◌⊎◌, ◌++◌, None, option_map};

use std::alloc::Global;
use std::io::{self, ErrorKind, Read, Write};

/// A reader or a writer that keeps why it failed last.
#[derive(Drop)]
pub struct FaultKeeper<T: Drop> {
    inner: T,
    fault: Option<ErrorKind>,
}

impl<T: Drop> FaultKeeper<T> {
    /// One that didn't fail yet.
    pub fn new(inner: T) -> FaultKeeper<T>
        ensures { result.inner ≡ inner }
    {
        FaultKeeper { inner, fault: None }
    }

    /// Why it failed last, if it did.
    pub fn fault(&self) -> Option<ErrorKind>
        ensures { result ≡ self.now.fault }
    {
        self.fault
    }
}

impl<T: Read + Drop> Read for FaultKeeper<T> {
    fn read(&mut self, buf: &mut [u8]) -> io::Result<usize> {
        match self.inner.read(buf) {
            Ok(count) => Ok(count),
            Err(error) => {
                self.fault = Some(error.kind());
                Err(error)
            }
        }
    }
}

impl<T: Write + Drop> Write for FaultKeeper<T> {
    fn write(&mut self, buf: &[u8]) -> io::Result<usize> {
        match self.inner.write(buf) {
            Ok(count) => Ok(count),
            Err(error) => {
                self.fault = Some(error.kind());
                Err(error)
            }
        }
    }

    fn flush(&mut self) -> io::Result<()> {
        match self.inner.flush() {
            Ok(()) => Ok(()),
            Err(error) => {
                self.fault = Some(error.kind());
                Err(error)
            }
        }
    }
}

/// A reader that keeps what it gave, as long as there is memory for that.
#[derive(Drop)]
pub struct KeepingReader<T: Drop> {
    inner: T,
    bytes: Option<Vec<u8>>,
}

impl<T: Drop> KeepingReader<T> {
    /// One that gave nothing yet.
    pub fn new(alloc: Global, inner: T) -> KeepingReader<T>
        ensures { result.inner ≡ inner }
    {
        KeepingReader {
            inner,
            bytes: Some(Vec::new(alloc)),
        }
    }

    /// The reader that it reads.
    pub fn inner(&self) -> &T
        ensures { result.now ≡ self.now.inner }
    {
        &self.inner
    }

    /// What it gave, where there was memory for all of it.
    pub fn kept(&self) -> Option<&[u8]>
        ensures { option_map (λ bytes. bytes.now) result ≡ option_map (λ bytes. bytes.items) self.now.bytes }
    {
        match &self.bytes {
            Some(bytes) => Some(bytes.as_slice()),
            None => None,
        }
    }

    // Keeps this too, or nothing from here on where there is no memory for it.
    fn keep(&mut self, given: &[u8])
        ensures kept { (self.new.bytes ≡ None)
            ⊎ (option_map (λ bytes. bytes.items) self.new.bytes ≡ option_map (λ bytes. bytes.items ++ given.now) self.old.bytes) }
        ensures inner { self.new.inner ≡ self.old.inner }
    {
        let kept = match &mut self.bytes {
            Some(bytes) => bytes.extend_from_slice(given).is_ok(),
            None => false,
        };
        if !kept {
            self.bytes = None;
        }
    }
}

impl<T: Read + Drop> Read for KeepingReader<T> {
    fn read(&mut self, buf: &mut [u8]) -> io::Result<usize> {
        let count = self.inner.read(buf)?;
        self.keep(&buf[..count]);
        Ok(count)
    }
}

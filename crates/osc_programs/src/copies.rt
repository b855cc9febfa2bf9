//! Copies of a store's two files, which are only read.

use osc_store::OpenStoreError;
use std::fs::{self, File};
use std::io::{self, ErrorKind, Read};

/// How often the files are read again where a server carried its log into the file meanwhile.
const MOST_TRIES: usize = 8;

/// The bytes of a log's header, which changes whenever the log was carried into the file.
const HEADER: usize = 32;

/// The most that is read of a file: a store has 1,024 resources of 512 bytes, and its log 256 pages.
const MOST_BYTES: u64 = 1 << 26;

/// What the two files of a store held at one moment.
#[derive(Drop)]
pub(crate) struct Copies {
    pub(crate) log: Vec<u8>,
    pub(crate) db: Vec<u8>,
}

/// Why there are no copies.
#[derive(Drop)]
pub(crate) enum Uncopied {
    /// The system says so.
    Io(io::Error),
    /// The files aren't those of a store that may be read.
    Refused(OpenStoreError),
}

/// Reads the file and its log, also where a server goes on with them: the log, the file and the log again, until the log's header was the same
/// before and after, so that the log wasn't carried into the file between.
pub(crate) fn copy_files(rt: &HostRuntime, file: &str) -> Result<Copies, Uncopied> {
    let names = match names_of(rt, file) {
        Ok(names) => names,
        Err(error) => return Err(Uncopied::Io(error)),
    };
    if has_bytes(rt, names.journal.as_str()) {
        return Err(Uncopied::Refused(OpenStoreError::Journal));
    }
    for _ in 0..MOST_TRIES {
        match copy_once(rt, file, names.log.as_str()) {
            Ok(Some(copies)) => return Ok(copies),
            Ok(None) => {}
            Err(error) => return Err(Uncopied::Io(error)),
        }
    }
    Err(Uncopied::Refused(OpenStoreError::Busy))
}

fn copy_once(rt: &HostRuntime, file: &str, log: &str) -> io::Result<Option<Copies>> {
    let before = bytes_if_any(rt, log)?;
    let db = bytes(rt, file)?;
    let log = bytes_if_any(rt, log)?;
    if header(&before) != header(&log) {
        return Ok(None);
    }
    Ok(Some(Copies { log, db }))
}

fn header(log: &[u8]) -> &[u8] {
    match log.get(..HEADER) {
        Some(header) => header,
        None => log,
    }
}

fn bytes(rt: &HostRuntime, file: &str) -> io::Result<Vec<u8>> {
    let mut bytes = Vec::new(rt.alloc());
    File::open(rt, file)?
        .take(MOST_BYTES)
        .read_to_end(&mut bytes)?;
    Ok(bytes)
}

// The same, and nothing where there is no such file.
fn bytes_if_any(rt: &HostRuntime, file: &str) -> io::Result<Vec<u8>> {
    match bytes(rt, file) {
        Err(error) if error.kind() == ErrorKind::NotFound => Ok(Vec::new(rt.alloc())),
        read => read,
    }
}

// Where the log of a file is, and what sqlite3 may have left beside it.
#[derive(Drop)]
struct Names {
    log: String,
    journal: String,
}

fn names_of(rt: &HostRuntime, file: &str) -> io::Result<Names> {
    let real = fs::canonicalize(rt, file)?;
    let real = real.as_str();
    Ok(Names {
        log: format!(in rt.alloc(); "{real}-wal")?,
        journal: format!(in rt.alloc(); "{real}-journal")?,
    })
}

fn has_bytes(rt: &HostRuntime, file: &str) -> bool {
    match fs::metadata(rt, file) {
        Ok(found) => found.len() > 0,
        Err(_) => false,
    }
}

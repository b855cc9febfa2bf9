//! Files in memory.
ghost use Rattle.std.specs.Prelude.{IfOk, IsTrue};
ghost use Rattle.sqlite_disk.specs.Memory.{memory_is_usable};

use crate::changes::is_after;
use osc_store::{OpenStoreError, open_files};
use osc_tree::Tree;
use sqlite_disk::{Disk, Files, Fuse, Memory};
use std::alloc::Global;
use std::test::Fail;

/// A file that holds these bytes, and has them on the disk.
pub fn memory(alloc: Global, bytes: &[u8]) -> Result<Memory, Fail>
    ensures { IfOk result (λ file. IsTrue (memory_is_usable file)) }
{
    let mut file = Memory::new(alloc);
    if !bytes.is_empty() {
        file.write_at(0, bytes)?;
        file.sync()?;
    }
    Ok(file)
}

/// A log and a database file that hold these bytes.
pub fn pair(alloc: Global, log: &[u8], db: &[u8]) -> Result<Files<Memory>, Fail>
    ensures log { IfOk result (λ files. IsTrue (memory_is_usable files.log)) }
    ensures db { IfOk result (λ files. IsTrue (memory_is_usable files.db)) }
{
    let log = memory(alloc, log)?;
    let db = memory(alloc, db)?;
    Ok(Files { log, db })
}

/// The tree that a start finds in them, or why it fails.
pub fn start(alloc: Global, log: &[u8], db: &[u8]) -> Result<Result<Tree, OpenStoreError>, Fail> {
    match open_files(alloc, pair(alloc, log, db)?, 7) {
        Ok((_store, tree)) => Ok(Ok(tree)),
        Err((error, _left)) => Ok(Err(error)),
    }
}

/// What is left of the two files where the power went, and how many of the changes were kept.
pub struct Cut {
    pub log: Vec<u8>,
    pub db: Vec<u8>,
    pub kept: usize,
}

impl Drop for Cut {
    fn drop(self) {
        let Cut {
            log: _,
            db: _,
            kept: _,
        } = self;
    }
}

/// What frozen disks are left with.
pub fn cut_of(alloc: Global, files: Files<Fuse<Memory>>, kept: usize) -> Result<Cut, Fail> {
    let log = Vec::from_slice(alloc, files.log.inner().bytes())?;
    let db = Vec::from_slice(alloc, files.db.inner().bytes())?;
    Ok(Cut { log, db, kept })
}

/// The next start finds the tree of what was kept, with the change that was under way or without.
pub fn is_found(alloc: Global, log: &[u8], db: &[u8], kept: usize) -> Result<bool, Fail> {
    match start(alloc, log, db)? {
        Ok(tree) => Ok(
            is_after(alloc, &tree, kept)? || is_after(alloc, &tree, kept.saturating_add(1))?,
        ),
        Err(_) => Ok(false),
    }
}

//! A store that is only read: over copies of its files in memory, so that nothing is written.
ghost use Rattle.std.specs.Prelude.{◌≡◌, ◌≢◌, ⊤, IfErr, IfOk, IsTrue};
ghost use Rattle.sqlite_disk.specs.Memory.{memory_bytes, memory_is_usable};
ghost use Rattle.osc_store.specs.Belonging.{BelongTogether, IsDamagedLog, Refuses, RefusesPair};
ghost use Rattle.osc_store.specs.Starting.{FindsTree};

use crate::error::OpenStoreError;
use crate::files::{open_checked, open_files};
use osc_tree::Tree;
use sqlite_disk::{Disk, Files, Memory};
use std::alloc::Global;
use std::io;

/// The tree that a start finds in a log and a database file of these contents, or why it fails.
pub fn read_store(alloc: Global, log: &[u8], db: &[u8]) -> Result<Tree, OpenStoreError>
    ensures found { IfOk result (FindsTree (record { log = log.now; db = db.now })) }
    ensures belong { IfOk result (λ _. BelongTogether (record { log = log.now; db = db.now })) }
    ensures intact { IfOk result (λ _. ¬ IsDamagedLog log.now) }
    ensures refused { IfErr result (Refuses (record { log = log.now; db = db.now }) ⊤) }
{
    let Ok(log) = copied(alloc, log) else {
        return Err(OpenStoreError::OutOfMemory);
    };
    let Ok(db) = copied(alloc, db) else {
        return Err(OpenStoreError::OutOfMemory);
    };
    match open_files(alloc, Files { log, db }, 0) {
        Ok((_store, tree)) => Ok(tree),
        Err((error, _left)) => Err(error),
    }
}

/// The same, where the log may be damaged: what a start would find that takes what stands before the damage for all there is.
pub fn read_until_damage(alloc: Global, log: &[u8], db: &[u8]) -> Result<Tree, OpenStoreError>
    ensures found { IfOk result (FindsTree (record { log = log.now; db = db.now })) }
    ensures belong { IfOk result (λ _. BelongTogether (record { log = log.now; db = db.now })) }
    ensures refused { IfErr result (RefusesPair (record { log = log.now; db = db.now }) ⊤) }
    ensures kind { IfErr result (λ e. e ≢ OpenStoreError.DamagedLog) }
{
    let Ok(log) = copied(alloc, log) else {
        return Err(OpenStoreError::OutOfMemory);
    };
    let Ok(db) = copied(alloc, db) else {
        return Err(OpenStoreError::OutOfMemory);
    };
    match open_checked(alloc, Files { log, db }, 0) {
        Ok((_store, tree)) => Ok(tree),
        Err((error, _left)) => Err(error),
    }
}

// A file in memory that holds these bytes, and has them on the disk.
fn copied(alloc: Global, bytes: &[u8]) -> io::Result<Memory>
    ensures bytes { IfOk result (λ file. memory_bytes file ≡ bytes.now) }
    ensures usable { IfOk result (λ file. IsTrue (memory_is_usable file)) }
{
    let mut file = Memory::new(alloc);
    file.write_at(0, bytes)?;
    file.sync()?;
    Ok(file)
}

//! A byte that flips in a page is told, and so is a page that is missing.
ghost use Rattle.std.specs.Prelude.{◌+◌, ◌≤◌, IfSome, length};

use crate::changes::{CHANGES, is_after, keep_each};
use crate::disks::{pair, start};
use osc_store::{Keeper, OpenStoreError, open_files, read_until_damage};
use osc_tree::Tree;
use sqlite_disk::Memory;
use sqlite_store::FileStore;
use std::alloc::Global;
use std::test::Fail;

/// A store of all changes, every page of which is in the database file.
pub fn settled(alloc: Global) -> Result<(Vec<u8>, Vec<u8>), Fail> {
    match open_files(alloc, pair(alloc, &[], &[])?, 7) {
        Ok((store, _tree)) => {
            let mut store = kept_in(alloc, store)?;
            store.checkpoint()?;
            copied(alloc, store)
        }
        Err((error, _left)) => Err(Fail::from(error)),
    }
}

/// The same, where all but the empty table is in the log.
pub fn logged(alloc: Global) -> Result<(Vec<u8>, Vec<u8>), Fail> {
    match open_files(alloc, pair(alloc, &[], &[])?, 7) {
        Ok((store, _tree)) => copied(alloc, kept_in(alloc, store)?),
        Err((error, _left)) => Err(Fail::from(error)),
    }
}

// The store, in which all changes are kept, each by itself.
fn kept_in(alloc: Global, store: FileStore<Memory>) -> Result<FileStore<Memory>, Fail> {
    let mut keeper = Keeper::new(alloc, store);
    keep_each(alloc, &mut keeper)?;
    Ok(keeper.into_store())
}

fn copied(alloc: Global, store: FileStore<Memory>) -> Result<(Vec<u8>, Vec<u8>), Fail> {
    let files = store.close();
    let log = Vec::from_slice(alloc, files.log.bytes())?;
    let db = Vec::from_slice(alloc, files.db.bytes())?;
    Ok((log, db))
}

// The bytes of `/a`.
const PAYLOAD: [u8; 511] = [8; 511];

// Where they begin.
fn payload_at(db: &[u8]) -> Option<usize>
    ensures { IfSome result (λ at. at + 511 ≤ length db.now) }
{
    for at in 0..db.len() {
        if db.len() - at >= 511 && db[at..].starts_with(&PAYLOAD) {
            return Some(at);
        }
    }
    None
}

// The same bytes with one bit turned.
fn flipped(alloc: Global, bytes: &[u8], at: usize, bit: u8) -> Result<Vec<u8>, Fail> {
    let mut flipped = Vec::from_slice(alloc, bytes)?;
    if let Some(byte) = flipped.get_mut(at) {
        *byte ^= bit;
    }
    Ok(flipped)
}

// Whether a start refuses the file with this byte changed in each bit, as damaged.
fn is_told(alloc: Global, log: &[u8], db: &[u8], at: usize) -> Result<bool, Fail> {
    for bit in [1u8, 2, 4, 8, 16, 32, 64, 128] {
        let flipped = flipped(alloc, db, at, bit)?;
        match start(alloc, log, &flipped)? {
            Err(OpenStoreError::Damaged) => {}
            _ => return Ok(false),
        }
    }
    Ok(true)
}

#[test]
fn a_flipped_byte_is_refused(rt: HostRuntime) -> Result<(), Fail> {
    let alloc = rt.alloc();
    let (log, db) = settled(alloc)?;
    match start(alloc, &log, &db)? {
        Ok(tree) => assert!(&rt; is_after(alloc, &tree, CHANGES.len())?),
        Err(error) => return Err(Fail::from(error)),
    }
    let Some(at) = payload_at(&db) else {
        return Err(Fail::from("the payload isn't in the database file"));
    };
    assert!(&rt; is_told(alloc, &log, &db, at)?, "first");
    assert!(&rt; is_told(alloc, &log, &db, at + 1)?, "second");
    assert!(&rt; is_told(alloc, &log, &db, at + 255)?, "middle");
    assert!(&rt; is_told(alloc, &log, &db, at + 510)?, "last");
    Ok(())
}

// How many bytes stand in a log before its first frame, and how many a frame has: 24, and a page.
const HEADER: usize = 32;

const FRAME: usize = 24 + 4096;

// How many commits end in the log past this frame.
fn ends_past(log: &[u8], frame: usize) -> usize {
    let mut ends = 0usize;
    for (at, bytes) in log[HEADER.min(log.len())..].chunks(FRAME).enumerate() {
        if at > frame && bytes.len() == FRAME && bytes[4..8] != [0; 4] {
            ends = ends.saturating_add(1);
        }
    }
    ends
}

// Whether the tree is what some of the changes leave, from the first on.
fn is_beginning(alloc: Global, tree: &Tree) -> Result<bool, Fail> {
    for kept in 0..CHANGES.len() + 1 {
        if is_after(alloc, tree, kept)? {
            return Ok(true);
        }
    }
    Ok(false)
}

// Whether a start refuses the log with a byte of this frame changed, where two commits end past it, and else takes what stands before; and
// whether that can be read in each case.
fn is_seen(alloc: Global, log: &[u8], db: &[u8], frame: usize) -> Result<bool, Fail> {
    let at = frame.saturating_mul(FRAME).saturating_add(HEADER + 100);
    let damaged = flipped(alloc, log, at, 1)?;
    let is_refused = match start(alloc, &damaged, db)? {
        Ok(tree) => {
            if !is_beginning(alloc, &tree)? {
                return Ok(false);
            }
            false
        }
        Err(OpenStoreError::DamagedLog) => true,
        Err(_) => return Ok(false),
    };
    match read_until_damage(alloc, &damaged, db) {
        Ok(tree) => {
            Ok(is_refused == (ends_past(log, frame) >= 2) && is_beginning(alloc, &tree)?)
        }
        Err(_) => Ok(false),
    }
}

#[test]
fn damage_in_a_log_is_told_before_its_end(rt: HostRuntime) -> Result<(), Fail> {
    let alloc = rt.alloc();
    let (log, db) = logged(alloc)?;
    assert!(&rt; ends_past(&log, 0) >= CHANGES.len() - 1, "commits");
    for frame in 0..log.len() / FRAME {
        assert!(&rt; is_seen(alloc, &log, &db, frame)?, "frame {frame}");
    }
    Ok(())
}

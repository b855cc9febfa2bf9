//! The power goes at each call of the disk, and inside each write at each byte.
use crate::changes::{CHANGES, keep_until};
use crate::disks::{Cut, cut_of, is_found};
use osc_store::{Keeper, open_files};
use sqlite_disk::{Files, Fuse, Memory};
use sqlite_store::FileStore;
use std::alloc::Global;
use std::test::Fail;

const NEVER: u64 = 1 << 40;

// More calls than a first start and all changes make of the log.
const CALLS: u64 = 60;

// Of this number of bytes of a write, one is the last that is written.
const STEP: usize = 97;

fn keep_all(alloc: Global, store: FileStore<Fuse<Memory>>) -> Result<Cut, Fail> {
    let mut keeper = Keeper::new(alloc, store);
    let kept = keep_until(alloc, &mut keeper)?;
    cut_of(alloc, keeper.into_store().close(), kept)
}

// A first start and all changes, over disks that freeze after these numbers of calls.
fn run(alloc: Global, log_calls: u64, db_calls: u64) -> Result<Cut, Fail> {
    let files = Files {
        log: Fuse::new(Memory::new(alloc), log_calls),
        db: Fuse::new(Memory::new(alloc), db_calls),
    };
    match open_files(alloc, files, 7) {
        Ok((store, _tree)) => keep_all(alloc, store),
        Err((_error, left)) => cut_of(alloc, left.into_files(), 0),
    }
}

// The file that a write leaves which is cut off after byte `at`, between what it leaves whole and what was before it.
fn torn(alloc: Global, before: &[u8], after: &[u8], at: usize) -> Result<Vec<u8>, Fail> {
    let mut torn = Vec::new(alloc);
    for i in 0..after.len() {
        if i <= at {
            torn.push(after[i])?;
        } else if i < before.len() {
            torn.push(before[i])?;
        }
    }
    Ok(torn)
}

// The first byte from this one on that differs, if any.
fn differs_from(before: &[u8], after: &[u8], from: usize) -> Option<usize> {
    for at in from..after.len() {
        if at >= before.len() || before[at] != after[at] {
            return Some(at);
        }
    }
    None
}

// Whether the next start finds a tree wherever what was written between the two is cut off, at every `STEP`th byte.
fn is_found_within(alloc: Global, before: &Cut, after: &Cut) -> Result<bool, Fail> {
    for at in 0..after.log.len() {
        if at % STEP == 0 && differs_from(&before.log, &after.log, at) == Some(at) {
            let log = torn(alloc, &before.log, &after.log, at)?;
            if !is_found(alloc, &log, &before.db, before.kept)? {
                return Ok(false);
            }
        }
    }
    Ok(true)
}

#[test]
fn cut_at_each_call_of_the_log(rt: HostRuntime) -> Result<(), Fail> {
    let alloc = rt.alloc();
    for calls in 0..CALLS {
        let cut = run(alloc, calls, NEVER)?;
        assert!(&rt; is_found(alloc, &cut.log, &cut.db, cut.kept)?, "{calls}");
    }
    Ok(())
}

#[test]
fn all_is_kept_where_nothing_is_cut(rt: HostRuntime) -> Result<(), Fail> {
    let alloc = rt.alloc();
    assert_eq!(&rt; run(alloc, CALLS, NEVER)?.kept, CHANGES.len());
    assert_eq!(&rt; run(alloc, 0, NEVER)?.kept, 0);
    Ok(())
}

#[test]
fn cut_at_each_call_of_the_database(rt: HostRuntime) -> Result<(), Fail> {
    let alloc = rt.alloc();
    for calls in 0..24 {
        let cut = run(alloc, NEVER, calls)?;
        assert!(&rt; is_found(alloc, &cut.log, &cut.db, cut.kept)?, "{calls}");
    }
    Ok(())
}

#[test]
fn cut_inside_each_write(rt: HostRuntime) -> Result<(), Fail> {
    let alloc = rt.alloc();
    let mut before = run(alloc, 0, NEVER)?;
    for calls in 1..CALLS {
        let after = run(alloc, calls, NEVER)?;
        assert!(&rt; is_found_within(alloc, &before, &after)?, "{calls}");
        before = after;
    }
    Ok(())
}

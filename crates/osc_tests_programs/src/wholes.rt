//! A database file that holds the whole store, one that says that a log belongs to it, and what isn't taken for one store.
use crate::changes::{CHANGES, is_after, keep, path_of, resource_of};
use crate::disks::{Cut, cut_of, is_found, pair, start};
use osc_store::{FileKeeper, OpenStoreError, open_files, whole_file};
use sqlite_disk::{Disk, Files, Fuse, Memory};
use std::alloc::Global;
use std::test::Fail;

const NEVER: u64 = 1 << 40;

// More calls than all of it makes of the log, and of the database file.
const LOG_CALLS: u64 = 140;

const DB_CALLS: u64 = 70;

// The bits of a mark.
const OWN: u32 = 0x0102_0304;

// How many changes are kept.
const MANY: usize = 3;

// Of this number of bytes of a write, one is the last that is written; and of the first, where the header is, one of `FIRST`.
const STEP: usize = 2039;

const FIRST: usize = 17;

// The file is made whole before this change, too.
const MIDDLE: usize = 2;

// Keeps `many` of the changes, from a file that is made whole, and whole again on the way; gives how many were kept.
fn keep_some(
    alloc: Global,
    keeper: &mut FileKeeper<Fuse<Memory>>,
    many: usize,
) -> Result<usize, Fail> {
    for (at, change) in CHANGES.iter().enumerate() {
        if at == many || (at % MIDDLE == 0 && keeper.make_whole().is_err()) {
            return Ok(at);
        }
        let path = path_of(alloc, change.0)?;
        let resource = resource_of(alloc, change.1)?;
        if keep(keeper, &path, resource.as_ref()).is_err() {
            return Ok(at);
        }
    }
    Ok(CHANGES.len())
}

// A first start and `many` changes, over disks that freeze after these numbers of calls.
fn run(alloc: Global, log_calls: u64, db_calls: u64, many: usize) -> Result<Cut, Fail> {
    run_by(alloc, OWN, log_calls, db_calls, many)
}

// The same, by a mark with these bits of its own.
fn run_by(
    alloc: Global,
    own: u32,
    log_calls: u64,
    db_calls: u64,
    many: usize,
) -> Result<Cut, Fail> {
    let files = Files {
        log: Fuse::new(Memory::new(alloc), log_calls),
        db: Fuse::new(Memory::new(alloc), db_calls),
    };
    match open_files(alloc, files, 7) {
        Ok((store, _tree)) => {
            let mut keeper = FileKeeper::new(alloc, store, own);
            let kept = keep_some(alloc, &mut keeper, many)?;
            cut_of(alloc, keeper.into_store().close(), kept)
        }
        Err((_error, left)) => cut_of(alloc, left.into_files(), 0),
    }
}

// The file that a write leaves which is cut off after byte `at`.
fn torn(alloc: Global, before: &[u8], after: &[u8], at: usize) -> Result<Vec<u8>, Fail> {
    let mut torn = Vec::new(alloc);
    for i in 0..after.len().max(before.len()) {
        if i <= at && i < after.len() {
            torn.push(after[i])?;
        } else if i < before.len() {
            torn.push(before[i])?;
        }
    }
    Ok(torn)
}

fn is_last(before: &[u8], after: &[u8], at: usize) -> bool {
    let is_tried = at % STEP == 0 || (at < 104 && at % FIRST == 0);
    is_tried && at < after.len() && (at >= before.len() || before[at] != after[at])
}

#[test]
fn cut_at_each_call_of_the_log(rt: HostRuntime) -> Result<(), Fail> {
    let alloc = rt.alloc();
    for calls in 0..LOG_CALLS {
        let cut = run(alloc, calls, NEVER, MANY)?;
        assert!(&rt; is_found(alloc, &cut.log, &cut.db, cut.kept)?, "{calls}");
    }
    assert_eq!(&rt; run(alloc, LOG_CALLS, NEVER, MANY)?.kept, MANY);
    Ok(())
}

#[test]
fn cut_at_each_call_of_the_database(rt: HostRuntime) -> Result<(), Fail> {
    let alloc = rt.alloc();
    for calls in 0..DB_CALLS {
        let cut = run(alloc, NEVER, calls, MANY)?;
        assert!(&rt; is_found(alloc, &cut.log, &cut.db, cut.kept)?, "{calls}");
    }
    assert_eq!(&rt; run(alloc, NEVER, DB_CALLS, MANY)?.kept, MANY);
    Ok(())
}

#[test]
fn cut_inside_each_write_of_the_log(rt: HostRuntime) -> Result<(), Fail> {
    let alloc = rt.alloc();
    let mut before = run(alloc, 0, NEVER, MANY)?;
    for calls in 1..LOG_CALLS {
        let after = run(alloc, calls, NEVER, MANY)?;
        for at in 0..after.log.len() {
            if is_last(&before.log, &after.log, at) {
                let log = torn(alloc, &before.log, &after.log, at)?;
                assert!(&rt;
                    is_found(alloc, &log, &before.db, before.kept)?,
                    "{calls} {at}"
                );
            }
        }
        before = after;
    }
    Ok(())
}

#[test]
fn cut_inside_each_write_of_the_database(rt: HostRuntime) -> Result<(), Fail> {
    let alloc = rt.alloc();
    let mut before = run(alloc, NEVER, 0, MANY)?;
    for calls in 1..DB_CALLS {
        let after = run(alloc, NEVER, calls, MANY)?;
        for at in 0..after.db.len() {
            if is_last(&before.db, &after.db, at) {
                let db = torn(alloc, &before.db, &after.db, at)?;
                assert!(&rt;
                    is_found(alloc, &before.log, &db, before.kept)?,
                    "{calls} {at}"
                );
            }
        }
        before = after;
    }
    Ok(())
}

// A start over these bytes is refused so, and leaves both files as they are.
fn is_refused(alloc: Global, log: &[u8], db: &[u8], want: OpenStoreError) -> Result<bool, Fail> {
    match open_files(alloc, pair(alloc, log, db)?, 7) {
        Ok(_) => Ok(false),
        Err((error, left)) => {
            let files = left.into_files();
            Ok(error == want && files.db.bytes() == db && files.log.bytes() == log)
        }
    }
}

// Keeps the first of the changes, and makes the file whole.
fn keep_whole<D: Disk>(alloc: Global, keeper: &mut FileKeeper<D>, many: usize) -> Result<(), Fail> {
    for (at, change) in CHANGES.iter().enumerate() {
        if at < many {
            let path = path_of(alloc, change.0)?;
            let resource = resource_of(alloc, change.1)?;
            keep(keeper, &path, resource.as_ref())?;
        }
    }
    keeper.make_whole()?;
    Ok(())
}

// The file of a store with the first of the changes, which was made whole.
fn whole_after(alloc: Global, many: usize) -> Result<Vec<u8>, Fail> {
    match open_files(alloc, pair(alloc, &[], &[])?, 7) {
        Ok((store, _tree)) => {
            let mut keeper = FileKeeper::new(alloc, store, 5);
            keep_whole(alloc, &mut keeper, many)?;
            let files = keeper.into_store().close();
            Ok(Vec::from_slice(alloc, files.db.bytes())?)
        }
        Err((error, _left)) => Err(Fail::from(error)),
    }
}

#[test]
fn a_whole_file_is_a_store_alone(rt: HostRuntime) -> Result<(), Fail> {
    let alloc = rt.alloc();
    for many in 0..CHANGES.len() {
        let file = whole_after(alloc, many)?;
        match start(alloc, &[], &file)? {
            Ok(tree) => assert!(&rt; is_after(alloc, &tree, many)?, "{many}"),
            Err(error) => return Err(Fail::from(error)),
        }
    }
    Ok(())
}

#[test]
fn a_file_without_its_log_is_refused(rt: HostRuntime) -> Result<(), Fail> {
    let alloc = rt.alloc();
    for many in 1..CHANGES.len() {
        let cut = run(alloc, NEVER, NEVER, many)?;
        for short in [0usize, 1, 31] {
            let log = cut.log.get(..short).ok_or("a log")?;
            assert!(&rt;
                is_refused(alloc, log, &cut.db, OpenStoreError::NoLog)?,
                "{many} {short}"
            );
        }
        match start(alloc, &cut.log, &cut.db)? {
            Ok(tree) => assert!(&rt; is_after(alloc, &tree, many)?, "{many}"),
            Err(error) => return Err(Fail::from(error)),
        }
    }
    Ok(())
}

#[test]
fn an_empty_file_beside_a_log_is_refused(rt: HostRuntime) -> Result<(), Fail> {
    let alloc = rt.alloc();
    let cut = run(alloc, NEVER, NEVER, 3)?;
    for db in [&[][..], &[0][..], &[83][..]] {
        assert!(&rt; is_refused(alloc, &cut.log, db, OpenStoreError::EmptyFile)?);
    }
    match start(alloc, cut.log.get(..41).ok_or("a log")?, &[])? {
        Ok(tree) => assert!(&rt; is_after(alloc, &tree, 0)?),
        Err(error) => return Err(Fail::from(error)),
    }
    Ok(())
}

#[test]
fn a_file_beside_another_files_log_is_refused(rt: HostRuntime) -> Result<(), Fail> {
    let alloc = rt.alloc();
    let whole = run(alloc, NEVER, NEVER, 0)?;
    for many in 1..CHANGES.len() {
        let one = run(alloc, NEVER, NEVER, many)?;
        // the twelve bits that all marks have count for nothing
        for other in [OWN + 1, OWN ^ (1 << 19)] {
            let other = run_by(alloc, other, NEVER, NEVER, many)?;
            assert!(&rt;
                is_refused(alloc, &other.log, &one.db, OpenStoreError::ForeignLog)?,
                "{many}"
            );
            assert!(&rt;
                is_refused(alloc, &one.log, &other.db, OpenStoreError::ForeignLog)?,
                "{many}"
            );
        }
        let same = run_by(alloc, OWN ^ (1 << 20), NEVER, NEVER, many)?;
        assert!(&rt; is_found(alloc, &same.log, &one.db, many)?, "{many}");
        // nor does a log belong to a file that was whole before it
        assert!(&rt;
            is_refused(alloc, &one.log, &whole.db, OpenStoreError::ForeignLog)?,
            "{many}"
        );
    }
    Ok(())
}

#[test]
fn a_file_of_another_time_is_refused(rt: HostRuntime) -> Result<(), Fail> {
    let alloc = rt.alloc();
    // (the file is made whole before each second change)
    let early = run(alloc, NEVER, NEVER, 1)?;
    let late = run(alloc, NEVER, NEVER, 3)?;
    assert!(&rt; is_refused(alloc, &late.log, &early.db, OpenStoreError::ForeignLog)?);
    assert!(&rt; is_refused(alloc, &early.log, &late.db, OpenStoreError::ForeignLog)?);
    Ok(())
}

#[test]
fn resources_are_written_to_one_file(rt: HostRuntime) -> Result<(), Fail> {
    let alloc = rt.alloc();
    for many in 0..CHANGES.len() {
        let cut = run(alloc, NEVER, NEVER, many)?;
        let tree = match start(alloc, &cut.log, &cut.db)? {
            Ok(tree) => tree,
            Err(error) => return Err(Fail::from(error)),
        };
        let file = whole_file(alloc, &tree)?;
        match start(alloc, &[], &file)? {
            Ok(tree) => assert!(&rt; is_after(alloc, &tree, many)?, "{many}"),
            Err(error) => return Err(Fail::from(error)),
        }
    }
    Ok(())
}

//! What is no store is told from one, and is only read.
use crate::changes::{CHANGES, is_after};
use crate::damage::settled;
use crate::disks::{pair, start};
use osc_store::{OpenStoreError, open_files};
use sqlite_disk::Memory;
use sqlite_pager::{Options, Pager};
use sqlite_store::{FileStore, Unopened};
use sqlite_trees::schema::Object;
use sqlite_trees::store::Shape;
use sqlite_wal::PageSize;
use std::alloc::Global;
use std::test::Fail;

// A database of one other table, as another program makes it.
fn other(alloc: Global, name: &str, has_sums: bool) -> Result<(Vec<u8>, Vec<u8>), Fail> {
    let size = PageSize::new(4096).ok_or("a page size")?;
    let pager = Pager::new(alloc, pair(alloc, &[], &[])?, size, Options::new(7))?;
    let table = Object {
        shape: Shape::Table,
        kind: "table",
        name,
        table: name,
        reals: 0,
        sql: Some("CREATE TABLE t(a)"),
    };
    match Unopened::with_sums(alloc, pager, &[table], has_sums)?.create() {
        Ok(store) => bytes_of(alloc, store),
        Err((error, _left)) => Err(Fail::from(error)),
    }
}

fn bytes_of(alloc: Global, store: FileStore<Memory>) -> Result<(Vec<u8>, Vec<u8>), Fail> {
    let files = store.close();
    let log = Vec::from_slice(alloc, files.log.bytes())?;
    let db = Vec::from_slice(alloc, files.db.bytes())?;
    Ok((log, db))
}

// A start over these bytes is refused so, and leaves the database file as it is.
fn is_refused(alloc: Global, log: &[u8], db: &[u8], want: OpenStoreError) -> Result<bool, Fail> {
    match open_files(alloc, pair(alloc, log, db)?, 7) {
        Ok(_) => Ok(false),
        Err((error, left)) => {
            let files = left.into_files();
            Ok(error == want && files.db.bytes() == db)
        }
    }
}

#[test]
fn foreign_files_stay(rt: HostRuntime) -> Result<(), Fail> {
    let alloc = rt.alloc();
    let text = "These are no resources. ".repeat(alloc, 400)?;
    for length in [2usize, 17, 18, 100, 4096, 9000] {
        let bytes = text.as_bytes().get(..length).ok_or("a text")?;
        assert!(&rt;
            is_refused(alloc, &[], bytes, OpenStoreError::NoStore)?,
            "text of {length}"
        );
    }
    for has_sums in [false, true] {
        let (log, db) = other(alloc, "t", has_sums)?;
        assert!(&rt;
            is_refused(alloc, &log, &db, OpenStoreError::NoStore)?,
            "{has_sums}"
        );
        let (log, db) = other(alloc, "resource", has_sums)?;
        assert!(&rt;
            is_refused(alloc, &log, &db, OpenStoreError::OtherVersion)?,
            "{has_sums}"
        );
    }
    Ok(())
}

#[test]
fn short_files_are_damaged_or_new(rt: HostRuntime) -> Result<(), Fail> {
    let alloc = rt.alloc();
    let (log, db) = settled(alloc)?;
    for short in [4096usize, 4097, 8191] {
        let bytes = db.get(..short).ok_or("a database of two pages")?;
        assert!(&rt;
            is_refused(alloc, &log, bytes, OpenStoreError::Damaged)?,
            "{short}"
        );
    }
    for bytes in [&[][..], &[0][..]] {
        match start(alloc, &[], bytes)? {
            Ok(tree) => assert!(&rt; is_after(alloc, &tree, 0)?),
            Err(error) => return Err(Fail::from(error)),
        }
    }
    match start(alloc, &log, &db)? {
        Ok(tree) => assert!(&rt; is_after(alloc, &tree, CHANGES.len())?),
        Err(error) => return Err(Fail::from(error)),
    }
    Ok(())
}

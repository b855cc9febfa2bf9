//! Stores in files of the system.

use crate::changes::{CHANGES, is_after, keep_each};
use osc_store::{Keeper, Keeping, OpenStoreError, Wary, open};
use osc_tree::Tree;
use std::alloc::Global;
use std::fs;
use std::test::Fail;

const FOLDER: &str = "osc_store_test";

const STORE: &str = "osc_store_test/store.db";

const LOG: &str = "osc_store_test/store.db-wal";

fn keep_all(rt: &HostRuntime) -> Result<(), Fail> {
    match open(rt, STORE, Wary) {
        Ok((store, tree)) => keep_in(rt, Keeper::new(rt.alloc(), store), &tree),
        Err((error, _left)) => Err(Fail::from(error)),
    }
}

// Keeps all the changes of a new store. While it is open, it isn't opened again.
fn keep_in<K: Keeping + Drop>(rt: &HostRuntime, keeper: K, tree: &Tree) -> Result<(), Fail> {
    let mut keeper = keeper;
    if !is_after(rt.alloc(), tree, 0)? {
        return Err(Fail::from("a new store has a resource"));
    }
    keep_each(rt.alloc(), &mut keeper)?;
    if is_busy(rt) {
        Ok(())
    } else {
        Err(Fail::from("a file that is open was opened again"))
    }
}

fn is_busy(rt: &HostRuntime) -> bool {
    match open(rt, STORE, Wary) {
        Err((OpenStoreError::Busy, None)) => true,
        _ => false,
    }
}

// Whether the store holds what all the changes leave.
fn is_kept(rt: &HostRuntime) -> Result<bool, Fail> {
    match open(rt, STORE, Wary) {
        Ok((_store, tree)) => is_after(rt.alloc(), &tree, CHANGES.len()),
        Err((error, _left)) => Err(Fail::from(error)),
    }
}

fn refusal(rt: &HostRuntime, path: &str) -> Option<OpenStoreError> {
    match open(rt, path, Wary) {
        Ok(_) => None,
        Err((error, _left)) => Some(error),
    }
}

#[test]
fn a_store_outlives_its_process(rt: HostRuntime) -> Result<(), Fail> {
    let _ = fs::remove_dir_all(&rt, FOLDER);
    fs::create_dir(&rt, FOLDER)?;
    keep_all(&rt)?;
    assert!(&rt; is_kept(&rt)?);
    fs::remove_file(&rt, STORE)?;
    fs::remove_file(&rt, LOG)?;
    fs::write(&rt, STORE, b"These are no resources.".as_slice())?;
    assert_eq!(&rt; refusal(&rt, STORE), Some(OpenStoreError::NoStore));
    assert!(&rt; !fs::exists(&rt, LOG)?, "nothing is left beside it");
    assert_eq!(&rt;
        fs::read(&rt, STORE)?.as_slice(),
        b"These are no resources.".as_slice()
    );
    assert_eq!(&rt; refusal(&rt, FOLDER), Some(OpenStoreError::Failed));
    assert_eq!(&rt;
        refusal(&rt, "osc_store_test/none/store.db"),
        Some(OpenStoreError::Failed)
    );
    fs::remove_dir_all(&rt, FOLDER)?;
    Ok(())
}

//! A store in one file, made in memory.
ghost use Rattle.std.specs.Prelude.{◌≡◌, IfOk, IsTrue, []};
ghost use Rattle.osc_store.specs.Starting.{FindsTree};

use crate::error::{KeepError, OpenStoreError};
use crate::files::open_files;
use crate::keeper::{Keeper, Keeping};
use crate::reading::read_store;
use osc_tree::Tree;
use sqlite_disk::{Disk, Files, Memory};
use sqlite_store::FileStore;
use sqlite_trees::error::StoreError;
use std::alloc::Global;

/// The bytes of a database file that alone is a store of these resources. They are read again before they are handed out.
pub fn whole_file(alloc: Global, tree: &Tree) -> Result<Vec<u8>, OpenStoreError>
    ensures found { IfOk result (λ bytes. FindsTree (record { log = []; db = bytes.items }) tree.now) }
{
    let bytes = filled_file(alloc, tree)?;
    let found = read_store(alloc, &[], &bytes)?;
    if are_same(&found, tree) {
        Ok(bytes)
    } else {
        Err(OpenStoreError::Damaged)
    }
}

/// Whether the two have the same resources at the same paths.
pub fn are_same(one: &Tree, other: &Tree) -> bool
    ensures { IsTrue result → one.now ≡ other.now }
{
    let mut theirs = other.iter();
    for (path, resource) in one.iter() {
        let Some((there, held)) = theirs.next() else {
            return false;
        };
        if path != there || resource != held {
            return false;
        }
    }
    match theirs.next() {
        Some(_) => false,
        None => true,
    }
}

// A database file with a row for each resource, whose log was carried into it.
fn filled_file(alloc: Global, tree: &Tree) -> Result<Vec<u8>, OpenStoreError> {
    let files = Files {
        log: Memory::new(alloc),
        db: Memory::new(alloc),
    };
    let store = match open_files(alloc, files, 0) {
        Ok((store, _empty)) => store,
        Err((error, _left)) => return Err(error),
    };
    let mut keeper = Keeper::new(alloc, store);
    fill(&mut keeper, tree)?;
    let files = keeper.into_store().close();
    match Vec::from_slice(alloc, files.db.bytes()) {
        Ok(bytes) => Ok(bytes),
        Err(_) => Err(OpenStoreError::OutOfMemory),
    }
}

fn fill<D: Disk>(keeper: &mut Keeper<FileStore<D>>, tree: &Tree) -> Result<(), OpenStoreError> {
    keep_all(keeper, tree)?;
    match keeper.store.checkpoint() {
        Ok(()) => Ok(()),
        Err(StoreError::OutOfMemory) => Err(OpenStoreError::OutOfMemory),
        Err(_) => Err(OpenStoreError::Full),
    }
}

fn keep_all<K: Keeping>(keeper: &mut K, tree: &Tree) -> Result<(), OpenStoreError> {
    for (path, resource) in tree.iter() {
        match keeper.write(path, Some(resource)) {
            Ok(()) => {}
            Err(error) => return Err(of_keep(error)),
        }
    }
    match keeper.commit() {
        Ok(()) => Ok(()),
        Err(error) => Err(of_keep(error)),
    }
}

// In memory nothing else fails.
fn of_keep(error: KeepError) -> OpenStoreError {
    match error {
        KeepError::OutOfMemory => OpenStoreError::OutOfMemory,
        _ => OpenStoreError::Full,
    }
}

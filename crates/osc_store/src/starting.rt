//! A start over two files.
ghost use Rattle.std.specs.Prelude.{◌≡◌, ◌≢◌, [], ⊤, IfOk, IfErr, IsTrue};
ghost use Rattle.sqlite_pool.specs.Opening.{IsBlankFile};
ghost use Rattle.sqlite_pool.specs.Stored.{used_size};
ghost use Rattle.sqlite_store.specs.FileStore.{view};
ghost use Rattle.sqlite_wal.specs.PageSize.{bytes_of};
ghost use Rattle.sqlite_wal.specs.Reads.{AreClean};
ghost use Rattle.osc_store.specs.Starting.{HasNoTable, IsEmpty, IsStore, IsUnmade, page};
ghost use Rattle.osc_store.specs.Opening.{Fits, Gives, IsCleanLeft, IsOnlyRead, IsOtherVersion, Spares, image_of};

use crate::error::OpenStoreError;
use crate::finding::{NEW_SIZE, find, is_blank};
use crate::left::Left;
use crate::listing::Listed;
use crate::opening::{create, enter, look, unopened};
use sqlite_disk::{Disk, Files};
use sqlite_store::FileStore;
use sqlite_wal::PageSize;
use std::alloc::Global;

/// Makes a store in files that hold nothing, or goes on where a first start was cut off.
pub(crate) fn make<D: Disk>(
    alloc: Global,
    files: Files<D>,
    seed: u64,
) -> Result<FileStore<D>, (OpenStoreError, Left<D>)>
    requires log { IsTrue (D.Disk.is_usable files.log) }
    requires db { IsTrue (D.Disk.is_usable files.db) }
    ensures gives { IfOk result (λ it. IsTrue (view it).is_clean → Gives files it) }
    ensures started { IfOk result (λ it. IsTrue (view it).is_clean → IsUnmade (image_of D.Disk files) × ((view it).committed 0 ≡ [])) }
    ensures spares { IfErr result (λ e. IsCleanLeft e.1 → Spares files e.1 (IsUnmade (image_of D.Disk files)) (IsUnmade (image_of D.Disk files)) ⊥ e.0) }
    ensures kind { IfErr result (λ e. e.0 ≢ OpenStoreError.NoStore) }
{
    let size = PageSize::new(NEW_SIZE).unwrap();
    let fresh = match unopened(alloc, files, size, true, seed) {
        Ok(fresh) => fresh,
        Err(left) => return Err((OpenStoreError::OutOfMemory, Left::Files(left))),
    };
    match create(fresh) {
        Ok(store) => Ok(store),
        Err((error, left)) => Err((error, Left::Unopened(left))),
    }
}

/// The same, where there is a database without a table.
pub(crate) fn remake<D: Disk>(
    alloc: Global,
    mut files: Files<D>,
    seed: u64,
) -> Result<FileStore<D>, (OpenStoreError, Left<D>)>
    requires log { IsTrue (D.Disk.is_usable files.log) }
    requires db { IsTrue (D.Disk.is_usable files.db) }
    ensures gives { IfOk result (λ it. IsTrue (view it).is_clean → Gives files it) }
    ensures started { IfOk result (λ it. IsTrue (view it).is_clean → HasNoTable (image_of D.Disk files) × ((view it).committed 0 ≡ [])) }
    ensures spares { IfErr result (λ e. IsCleanLeft e.1 → Spares files e.1 (IsEmpty (image_of D.Disk files)) (IsEmpty (image_of D.Disk files)) ⊥ e.0) }
    ensures kind { IfErr result (λ e. e.0 ≢ OpenStoreError.NoStore) }
{
    let size = PageSize::new(NEW_SIZE).unwrap();
    match is_blank(alloc, &mut files, size) {
        Ok(false) => match make(alloc, files, seed) {
            Ok(store) => Ok(store),
            Err((error, left)) => Err((error, left)),
        },
        Ok(true) => Err((OpenStoreError::Damaged, Left::Files(files))),
        Err(error) => Err((error, Left::Files(files))),
    }
}

/// Opens the store that begins in these files, in pages of this size, or goes on where a first start was cut off.
pub(crate) fn take<D: Disk>(
    alloc: Global,
    files: Files<D>,
    size: PageSize,
    has_sums: bool,
    seed: u64,
) -> Result<FileStore<D>, (OpenStoreError, Left<D>)>
    requires log { IsTrue (D.Disk.is_usable files.log) }
    requires db { IsTrue (D.Disk.is_usable files.db) }
    requires fits { AreClean D.Disk files.log files.db → Fits (image_of D.Disk files) (used_size (bytes_of size) has_sums) }
    requires some { AreClean D.Disk files.log files.db → ¬ IsBlankFile page (image_of D.Disk files) }
    ensures gives { IfOk result (λ it. IsTrue (view it).is_clean → Gives files it) }
    ensures spares { IfErr result (λ e. IsCleanLeft e.1 → Spares files e.1 ⊤ (IsStore (image_of D.Disk files)) (IsOtherVersion (image_of D.Disk files)) e.0) }
    ensures read { IfErr result (λ e. e.0 ≡ OpenStoreError.NoStore → IsOnlyRead files e.1) }
{
    let mut fresh = match unopened(alloc, files, size, has_sums, seed) {
        Ok(fresh) => fresh,
        Err(left) => return Err((OpenStoreError::OutOfMemory, Left::Files(left))),
    };
    let found = match look(&mut fresh) {
        Ok(found) => found,
        Err(error) => return Err((error, Left::Unopened(fresh))),
    };
    match found {
        Listed::Own => match enter(fresh) {
            Ok(store) => Ok(store),
            Err((error, left)) => Err((error, Left::Unopened(left))),
        },
        Listed::Nothing if size.bytes() == NEW_SIZE && has_sums => {
            match remake(alloc, fresh.close(), seed) {
                Ok(store) => Ok(store),
                Err((error, left)) => Err((error, left)),
            }
        }
        Listed::Other => Err((OpenStoreError::OtherVersion, Left::Unopened(fresh))),
        Listed::Nothing => Err((OpenStoreError::NoStore, Left::Unopened(fresh))),
        Listed::Foreign => Err((OpenStoreError::NoStore, Left::Unopened(fresh))),
    }
}

/// The store of these files, or a new one where they hold none yet.
pub(crate) fn store_over<D: Disk>(
    alloc: Global,
    mut files: Files<D>,
    seed: u64,
) -> Result<FileStore<D>, (OpenStoreError, Left<D>)>
    requires log { IsTrue (D.Disk.is_usable files.log) }
    requires db { IsTrue (D.Disk.is_usable files.db) }
    ensures gives { IfOk result (λ it. IsTrue (view it).is_clean → Gives files it) }
    ensures spares { IfErr result (λ e. IsCleanLeft e.1 → Spares files e.1 ⊤ (IsStore (image_of D.Disk files)) (IsOtherVersion (image_of D.Disk files)) e.0) }
    ensures read { IfErr result (λ e. e.0 ≡ OpenStoreError.NoStore → IsOnlyRead files e.1) }
{
    match find(alloc, &mut files) {
        Ok(None) => match make(alloc, files, seed) {
            Ok(store) => Ok(store),
            Err((error, left)) => Err((error, left)),
        },
        Ok(Some((size, has_sums))) => match take(alloc, files, size, has_sums, seed) {
            Ok(store) => Ok(store),
            Err((error, left)) => Err((error, left)),
        },
        Err(error) => Err((error, Left::Files(files))),
    }
}

//! The store at a path.
ghost use Rattle.std.specs.Prelude.{◌≡◌, ⊤, true, false, None, IfOk, IfErr, IfSome, IsTrue};
ghost use Rattle.sqlite_std_file.specs.File.{IsFresh, file_is_usable};
ghost use Rattle.sqlite_store.specs.FileStore.{recovers, view};
ghost use Rattle.sqlite_wal.specs.Files.{image_at};
ghost use Rattle.osc_store.specs.Belonging.{BelongTogether, IsDamagedLog, Refuses};
ghost use Rattle.osc_store.specs.Causes.{is_of_content};
ghost use Rattle.osc_store.specs.Keeping.{Keeps};
ghost use Rattle.osc_store.specs.Starting.{FindsTree, IsStore, IsUnmade, Leaves};
ghost use Rattle.osc_store.specs.Opening.{Fault, IsCleanLeft, IsFullLeft, IsOtherVersion, WhyNotOpened, outcomes_left};
ghost use Rattle.osc_model.specs.Tree.{Tree as AnyTree};

use crate::error::OpenStoreError;
use crate::files::open_files;
use crate::left::Left;
use osc_tree::Tree;
use sqlite_disk::Files;
use sqlite_std_file::{FileFrom, OpenError as PathError, Start};
use sqlite_store::FileStore;
use std::fs;
use std::hash::{BuildHasher, RandomState};
use std::io::ErrorKind;

/// How many bytes a log has that has no change: its header, and no whole frame.
const EMPTY_LOG: u64 = 56;

/// Opens the store in the file at this path and in its log beside it (the path with `-wal`), with the tree that it holds, or makes one
/// without a resource where there is no file yet. `S` stands for what the files hold, and says how a crash is read: `Wary` supposes nothing
/// of a torn write. As long as the store is open, no other process opens it. A file that is no store, one of another version, and one that
/// doesn't belong to what stands beside it is left as it is, with nothing beside it that wasn't there; so is one beside a log that is damaged before
/// its end. An error of the files' content has its cause, and comes with what is left of them. Why the system doesn't open a file no clause says:
/// then nothing comes with the error.
pub fn open<S: Start>(
    rt: &HostRuntime,
    path: &str,
    start: S,
) -> Result<(FileStore<FileFrom<S>>, Tree), (OpenStoreError, Option<Left<FileFrom<S>>>)>
    ensures kept { IfOk result (λ opened. IsTrue (view opened.0).is_clean → Keeps view recovers opened.0 opened.1) }
    ensures found { IfOk result (λ opened. IsTrue (view opened.0).is_clean → FindsTree (image_at S.Start) opened.1) }
    ensures sums { IfOk result (λ opened. IsTrue (view opened.0).is_clean → IsUnmade (image_at S.Start) → IsTrue (view opened.0).has_sums) }
    ensures unopened { IfErr result (λ e. e.1 ≡ None → is_of_content e.0 ≡ false) }
    ensures cause { IfErr result (λ e. IfSome e.1 (λ left. (files : _) × IsFresh true files.log × IsFresh false files.db
        × (IsCleanLeft left → WhyNotOpened (Fault files left) (IsFullLeft left) (IsStore (image_at S.Start)) (IsOtherVersion (image_at S.Start)) e.0))) }
    ensures unharmed { IfErr result (λ e. IfSome e.1 (λ left. IsCleanLeft left
        → (tree : AnyTree) → FindsTree (image_at S.Start) tree → Leaves (outcomes_left left) tree)) }
    ensures belong { IfOk result (λ opened. IsTrue (view opened.0).is_clean → BelongTogether (image_at S.Start)) }
    ensures intact { IfOk result (λ opened. IsTrue (view opened.0).is_clean → ¬ IsDamagedLog S.Start.log) }
    ensures refused { IfErr result (λ e. IfSome e.1 (λ left. IsCleanLeft left → Refuses (image_at S.Start) ⊤ e.0)) }
{
    let seed = match draw(rt) {
        Ok(seed) => seed,
        Err(error) => return Err((error, None)),
    };
    let log = match missing_log(rt, path) {
        Ok(log) => log,
        Err(error) => return Err((error, None)),
    };
    let is_new = is_missing(rt, path);
    let files = match open_pair(rt, path, start) {
        Ok(files) => files,
        Err(error) => return Err((error, None)),
    };
    match open_files(rt.alloc(), files, seed) {
        Ok(opened) => Ok(opened),
        Err((error, left)) => {
            if is_left(error) {
                if let Some(log) = log {
                    remove_short(rt, log.as_str(), EMPTY_LOG);
                }
                if is_new {
                    remove_short(rt, path, 1);
                }
            }
            Err((error, Some(left)))
        }
    }
}

// A number that no one else knows.
fn draw(rt: &HostRuntime) -> Result<u64, OpenStoreError>
    ensures { IfErr result (λ e. is_of_content e ≡ false) }
{
    match RandomState::new(rt) {
        Ok(random) => Ok(random.hash_one(&0u8)),
        Err(_) => Err(OpenStoreError::Failed),
    }
}

/// A mark for a store that is opened, which no other has but by chance.
pub fn draw_mark(rt: &HostRuntime) -> Result<u32, OpenStoreError>
    ensures { IfErr result (λ e. is_of_content e ≡ false) }
{
    match draw(rt) {
        Ok(drawn) => Ok((drawn >> 32) as u32),
        Err(error) => Err(error),
    }
}

// The files, locked.
fn open_pair<S: Start>(
    rt: &HostRuntime,
    path: &str,
    start: S,
) -> Result<Files<FileFrom<S>>, OpenStoreError>
    ensures log { IfOk result (λ files. IsTrue (file_is_usable S.Start files.log)) }
    ensures db { IfOk result (λ files. IsTrue (file_is_usable S.Start files.db)) }
    ensures fresh { IfOk result (λ files. IsFresh true files.log × IsFresh false files.db) }
    ensures kind { IfErr result (λ e. is_of_content e ≡ false) }
{
    match sqlite_std_file::open(rt, path, start) {
        Ok(files) => Ok(files),
        Err(PathError::OutOfMemory) => Err(OpenStoreError::OutOfMemory),
        Err(PathError::Busy) => Err(OpenStoreError::Busy),
        Err(PathError::HotJournal) => Err(OpenStoreError::Journal),
        Err(PathError::Io(error)) if error.kind() == ErrorKind::OutOfMemory => {
            Err(OpenStoreError::OutOfMemory)
        }
        Err(PathError::Io(_)) => Err(OpenStoreError::Failed),
    }
}

// Where the log of a file that is there would be, if there is none.
fn missing_log(rt: &HostRuntime, path: &str) -> Result<Option<String>, OpenStoreError>
    ensures { IfErr result (λ e. is_of_content e ≡ false) }
{
    let Ok(real) = fs::canonicalize(rt, path) else {
        return Ok(None);
    };
    let Ok(log) = format!(in rt.alloc(); "{}-wal", real.as_str()) else {
        return Err(OpenStoreError::OutOfMemory);
    };
    match fs::symlink_metadata(rt, log.as_str()) {
        Err(error) if error.kind() == ErrorKind::NotFound => Ok(Some(log)),
        _ => Ok(None),
    }
}

// Whether the files are left as they are, with nothing beside them that wasn't there.
fn is_left(error: OpenStoreError) -> bool {
    matches!(
        error,
        OpenStoreError::NoStore
            | OpenStoreError::OtherVersion
            | OpenStoreError::EmptyFile
            | OpenStoreError::NoLog
    )
}

fn is_missing(rt: &HostRuntime, path: &str) -> bool {
    match fs::symlink_metadata(rt, path) {
        Ok(_) => false,
        Err(error) => error.kind() == ErrorKind::NotFound,
    }
}

// Removes a file that was made beside what is no store, where it has fewer bytes than this. The files are still locked.
fn remove_short(rt: &HostRuntime, path: &str, most: u64) {
    let Ok(found) = fs::symlink_metadata(rt, path) else {
        return;
    };
    if found.is_file() && found.len() < most {
        let _ = fs::remove_file(rt, path);
    }
}

//! The store of two files.
ghost use Rattle.std.specs.Prelude.{◌≡◌, ⊤, IfOk, IfErr, IsTrue};
ghost use Rattle.sqlite_store.specs.FileStore.{recovers, view};
ghost use Rattle.sqlite_store.specs.Report.{named as name_of};
ghost use Rattle.sqlite_wal.specs.Reads.{AreClean};
ghost use Rattle.osc_model.specs.Tree.{Tree as AnyTree};
ghost use Rattle.osc_store.specs.Belonging.{BelongTogether, IsDamagedLog, Refuses, RefusesPair};
ghost use Rattle.osc_store.specs.Causes.{is_refusal};
ghost use Rattle.osc_store.specs.Keeping.{Keeps};
ghost use Rattle.osc_store.specs.Starting.{FindsTree, IsStore, IsUnmade, Leaves};
ghost use Rattle.osc_store.specs.Opening.{Fault, IsCleanLeft, IsFullLeft, IsLeftAlone, IsOnlyRead, IsOtherVersion, Spares, Stops, WhyNotOpened, image_of, outcomes_left, outcomes_of};

use crate::belonging::check_pair;
use crate::damage::check_damage;
use crate::error::{OpenStoreError, by_fault};
use crate::left::Left;
use crate::loading::adopt;
use crate::starting::store_over;
use osc_tree::Tree;
use sqlite_disk::{Disk, Files};
use sqlite_store::{FileStore, name_fault};
use std::alloc::Global;

/// Opens the store in a database file and its log, with the tree that it holds, or makes one without a resource where there is none yet: in
/// files without a byte, and where a first start was cut off. The disk is any that the caller gives; `seed` is a number that no one else
/// knows. The tree is what the files held, as they are recovered. A start that is cut off loses nothing: where a crash before it left files
/// that are found as a tree, so does one after it, whatever the result. A log that is damaged before its end is refused. An error has a cause, and
/// comes with what is left of the files.
pub fn open_files<D: Disk + Drop>(
    alloc: Global,
    files: Files<D>,
    seed: u64,
) -> Result<(FileStore<D>, Tree), (OpenStoreError, Left<D>)>
    requires log { IsTrue (D.Disk.is_usable files.log) }
    requires db { IsTrue (D.Disk.is_usable files.db) }
    ensures kept { IfOk result (λ opened. IsTrue (view opened.0).is_clean → Keeps view recovers opened.0 opened.1) }
    ensures found { IfOk result (λ opened. IsTrue (view opened.0).is_clean → FindsTree (image_of D.Disk files) opened.1) }
    ensures sums { IfOk result (λ opened. IsTrue (view opened.0).is_clean → IsUnmade (image_of D.Disk files) → IsTrue (view opened.0).has_sums) }
    ensures cause { IfErr result (λ e. IsCleanLeft e.1
        → WhyNotOpened (Fault files e.1) (IsFullLeft e.1) (IsStore (image_of D.Disk files)) (IsOtherVersion (image_of D.Disk files)) e.0) }
    ensures unharmed { IfErr result (λ e. IsCleanLeft e.1 → (tree : AnyTree) → Leaves (outcomes_of D.Disk files) tree → Leaves (outcomes_left e.1) tree) }
    ensures read { IfErr result (λ e. e.0 ≡ OpenStoreError.NoStore → IsOnlyRead files e.1) }
    ensures belong { IfOk result (λ opened. IsTrue (view opened.0).is_clean → BelongTogether (image_of D.Disk files)) }
    ensures intact { IfOk result (λ opened. IsTrue (view opened.0).is_clean → ¬ IsDamagedLog (D.Disk.seen files.log)) }
    ensures refused { IfErr result (λ e. IsCleanLeft e.1 → Refuses (image_of D.Disk files) ⊤ e.0) }
    ensures left_alone { IfErr result (λ e. IsCleanLeft e.1 → IsTrue (is_refusal e.0) → IsLeftAlone files e.1) }
{
    let before = files.tally();
    match open_intact(alloc, files, seed) {
        Ok(opened) => Ok(opened),
        Err((error, left)) => {
            let error = by_fault(name_fault(before, left.tally()), error);
            Err((error, left))
        }
    }
}

// The same, before a failure of the disk is named.
fn open_intact<D: Disk + Drop>(
    alloc: Global,
    mut files: Files<D>,
    seed: u64,
) -> Result<(FileStore<D>, Tree), (OpenStoreError, Left<D>)>
    requires log { IsTrue (D.Disk.is_usable files.log) }
    requires db { IsTrue (D.Disk.is_usable files.db) }
    ensures kept { IfOk result (λ opened. IsTrue (view opened.0).is_clean → Keeps view recovers opened.0 opened.1) }
    ensures found { IfOk result (λ opened. IsTrue (view opened.0).is_clean → FindsTree (image_of D.Disk files) opened.1) }
    ensures sums { IfOk result (λ opened. IsTrue (view opened.0).is_clean → IsUnmade (image_of D.Disk files) → IsTrue (view opened.0).has_sums) }
    ensures belong { IfOk result (λ opened. IsTrue (view opened.0).is_clean → BelongTogether (image_of D.Disk files)) }
    ensures intact { IfOk result (λ opened. IsTrue (view opened.0).is_clean → ¬ IsDamagedLog (D.Disk.seen files.log)) }
    ensures stops { IfErr result (λ e. IsCleanLeft e.1 → Stops files e.1 (Refuses (image_of D.Disk files) ⊥ e.0) e.0) }
    ensures read { IfErr result (λ e. e.0 ≡ OpenStoreError.NoStore → IsOnlyRead files e.1) }
    ensures left_alone { IfErr result (λ e. IsCleanLeft e.1 → IsTrue (is_refusal e.0) → IsLeftAlone files e.1) }
{
    match check_damage(alloc, &mut files) {
        Ok(()) => match open_checked(alloc, files, seed) {
            Ok(opened) => Ok(opened),
            Err((error, left)) => Err((error, left)),
        },
        Err(error) => Err((error, Left::Files(files))),
    }
}

/// The same, whether or not the log is damaged: the store is that of what stands before the damage.
pub(crate) fn open_checked<D: Disk + Drop>(
    alloc: Global,
    mut files: Files<D>,
    seed: u64,
) -> Result<(FileStore<D>, Tree), (OpenStoreError, Left<D>)>
    requires log { IsTrue (D.Disk.is_usable files.log) }
    requires db { IsTrue (D.Disk.is_usable files.db) }
    ensures kept { IfOk result (λ opened. IsTrue (view opened.0).is_clean → Keeps view recovers opened.0 opened.1) }
    ensures found { IfOk result (λ opened. IsTrue (view opened.0).is_clean → FindsTree (image_of D.Disk files) opened.1) }
    ensures sums { IfOk result (λ opened. IsTrue (view opened.0).is_clean → IsUnmade (image_of D.Disk files) → IsTrue (view opened.0).has_sums) }
    ensures honest { IfOk result (λ opened. IsTrue (view opened.0).is_clean → AreClean D.Disk files.log files.db) }
    ensures belong { IfOk result (λ opened. IsTrue (view opened.0).is_clean → BelongTogether (image_of D.Disk files)) }
    ensures stops { IfErr result (λ e. IsCleanLeft e.1 → Stops files e.1 (RefusesPair (image_of D.Disk files) ⊥ e.0) e.0) }
    ensures read { IfErr result (λ e. e.0 ≡ OpenStoreError.NoStore → IsOnlyRead files e.1) }
    ensures left_alone { IfErr result (λ e. IsCleanLeft e.1 → IsTrue (is_refusal e.0) → IsLeftAlone files e.1) }
{
    match check_pair(alloc, &mut files) {
        Ok(()) => match open_over(alloc, files, seed) {
            Ok(opened) => Ok(opened),
            Err((error, left)) => Err((error, left)),
        },
        Err(error) => Err((error, Left::Files(files))),
    }
}

// The same, where the two belong together.
fn open_over<D: Disk + Drop>(
    alloc: Global,
    files: Files<D>,
    seed: u64,
) -> Result<(FileStore<D>, Tree), (OpenStoreError, Left<D>)>
    requires log { IsTrue (D.Disk.is_usable files.log) }
    requires db { IsTrue (D.Disk.is_usable files.db) }
    ensures kept { IfOk result (λ opened. IsTrue (view opened.0).is_clean → Keeps view recovers opened.0 opened.1) }
    ensures found { IfOk result (λ opened. IsTrue (view opened.0).is_clean → FindsTree (image_of D.Disk files) opened.1) }
    ensures sums { IfOk result (λ opened. IsTrue (view opened.0).is_clean → IsUnmade (image_of D.Disk files) → IsTrue (view opened.0).has_sums) }
    ensures honest { IfOk result (λ opened. IsTrue (view opened.0).is_clean → AreClean D.Disk files.log files.db) }
    ensures spares { IfErr result (λ e. IsCleanLeft e.1 → Spares files e.1 ⊤ (IsStore (image_of D.Disk files)) (IsOtherVersion (image_of D.Disk files)) e.0) }
    ensures read { IfErr result (λ e. e.0 ≡ OpenStoreError.NoStore → IsOnlyRead files e.1) }
{
    let store = match store_over(alloc, files, seed) {
        Ok(store) => store,
        Err((error, left)) => return Err((error, left)),
    };
    match adopt(alloc, store) {
        Ok(opened) => Ok(opened),
        Err((error, store)) => Err((error, Left::Store(store))),
    }
}

//! What two files are, as far as their first page tells: nothing is written.
ghost use Rattle.std.specs.Prelude.{◌≡◌, ◌≢◌, ◌≤◌, ◌↔◌, ℕ, ⊤, IsTrue, IfOk, IfErr, IfSome, None};
ghost use Rattle.sqlite_disk.specs.Disk.{MoreFaults};
ghost use Rattle.sqlite_wal.specs.Files as log_files;
ghost use Rattle.sqlite_wal.specs.PageSize.{bytes_of};
ghost use Rattle.sqlite_wal.specs.Reads.{AreClean, OnlyReads};
ghost use Rattle.sqlite_pool.specs.Opening.{IsBlankFile};
ghost use Rattle.sqlite_pool.specs.Stored.{stored_size, used_size};
ghost use Rattle.osc_store.specs.Starting.{IsStore, page};
ghost use Rattle.osc_store.specs.Opening.{Fails, Fits, HasSound, IsTooLong, faults_of, image_of};

use crate::error::{OpenStoreError, of_probe};
use sqlite_disk::{Disk, Files};
use sqlite_pool::probe_blank;
use sqlite_wal::{PageSize, probe_first_page, probe_page_size};
use std::alloc::Global;

/// The bytes of a page of a new file, 8 of which are a sum.
pub(crate) const NEW_SIZE: usize = 4096;

/// Bytes 20 to 23 of a database's header where eight bytes of each page are a sum.
const WITH_SUMS: u32 = 0x0840_2020;

/// The page size of a database that the files begin as, and whether its pages have sums; none where a store has still to be made.
pub(crate) fn find<D: Disk>(
    alloc: Global,
    files: &mut Files<D>,
) -> Result<Option<(PageSize, bool)>, OpenStoreError>
    requires log { IsTrue (D.Disk.is_usable files.old.log) }
    requires db { IsTrue (D.Disk.is_usable files.old.db) }
    ensures blank { IfOk result (λ found. AreClean D.Disk files.new.log files.new.db → found ≡ None → IsBlankFile page (image_of D.Disk files.old)) }
    ensures some { IfOk result (λ found. AreClean D.Disk files.new.log files.new.db → IfSome found (λ _. ¬ IsBlankFile page (image_of D.Disk files.old))) }
    ensures fits { IfOk result (λ found. AreClean D.Disk files.new.log files.new.db → IfSome found (λ it. Fits (image_of D.Disk files.old) (used_size (bytes_of it.0) it.1))) }
    ensures cause { IfErr result (λ e. AreClean D.Disk files.new.log files.new.db
        → Fails (MoreFaults (faults_of D.Disk files.old) (faults_of D.Disk files.new)) (IsTooLong (image_of D.Disk files.new)) (IsStore (image_of D.Disk files.old)) ⊥ e) }
    ensures counts { faults_of D.Disk files.old ≤ faults_of D.Disk files.new }
    ensures log { OnlyReads D.Disk files.old.log files.new.log }
    ensures db { OnlyReads D.Disk files.old.db files.new.db }
{
    let new_size = PageSize::new(NEW_SIZE).unwrap();
    match is_blank(alloc, files, new_size) {
        Ok(false) => {}
        Ok(true) => return Ok(None),
        Err(error) => return Err(error),
    }
    let Ok(found) = probe_page_size(files) else {
        return Err(OpenStoreError::Failed);
    };
    let Some(size) = found else {
        return Err(OpenStoreError::NoStore);
    };
    match has_sums(alloc, files, size) {
        Ok(has_sums) => Ok(Some((size, has_sums))),
        Err(error) => Err(error),
    }
}

/// Whether a store has still to be made, from the first page on.
pub(crate) fn is_blank<D: Disk>(
    alloc: Global,
    files: &mut Files<D>,
    size: PageSize,
) -> Result<bool, OpenStoreError>
    requires log { IsTrue (D.Disk.is_usable files.old.log) }
    requires db { IsTrue (D.Disk.is_usable files.old.db) }
    requires size { bytes_of size ≡ 4096 }
    ensures ok { IfOk result (λ b. AreClean D.Disk files.new.log files.new.db → (IsTrue b ↔ IsBlankFile page (image_of D.Disk files.old))) }
    ensures cause { IfErr result (λ e. AreClean D.Disk files.new.log files.new.db
        → Fails (MoreFaults (faults_of D.Disk files.old) (faults_of D.Disk files.new)) (IsTooLong (image_of D.Disk files.old)) ⊤ ⊥ e) }
    ensures kind { IfErr result (λ e. e ≢ OpenStoreError.NoStore) }
    ensures counts { faults_of D.Disk files.old ≤ faults_of D.Disk files.new }
    ensures log { OnlyReads D.Disk files.old.log files.new.log }
    ensures db { OnlyReads D.Disk files.old.db files.new.db }
{
    match probe_blank(alloc, files, size, true) {
        Ok(is_blank) => Ok(is_blank),
        Err(error) => Err(of_probe(error)),
    }
}

// Whether the pages end in sums, by the first page. It refuses what doesn't begin as a database does.
fn has_sums<D: Disk>(
    alloc: Global,
    files: &mut Files<D>,
    size: PageSize,
) -> Result<bool, OpenStoreError>
    requires log { IsTrue (D.Disk.is_usable files.old.log) }
    requires db { IsTrue (D.Disk.is_usable files.old.db) }
    ensures ok { IfOk result (λ b. AreClean D.Disk files.new.log files.new.db → (n : ℕ) → HasSound (image_of D.Disk files.old) n
        → stored_size n ≡ bytes_of size → n ≡ used_size (bytes_of size) b) }
    ensures cause { IfErr result (λ e. AreClean D.Disk files.new.log files.new.db
        → Fails (MoreFaults (faults_of D.Disk files.old) (faults_of D.Disk files.new)) (log_files.IsHuge (bytes_of size) (image_of D.Disk files.old))
        ((n : ℕ) × HasSound (image_of D.Disk files.old) n × (stored_size n ≡ bytes_of size)) ⊥ e) }
    ensures counts { faults_of D.Disk files.old ≤ faults_of D.Disk files.new }
    ensures log { OnlyReads D.Disk files.old.log files.new.log }
    ensures db { OnlyReads D.Disk files.old.db files.new.db }
{
    let head = match probe_first_page(alloc, files, size) {
        Ok(head) => head,
        Err(error) => return Err(of_probe(error)),
    };
    if head.0 != b'S' {
        return Err(OpenStoreError::NoStore);
    }
    Ok(head.1 == WITH_SUMS)
}

//! A store in two files.
ghost use Rattle.std.specs.Prelude.{◌≡◌, ◌≢◌, ◌≤◌, true, [], IfOk, IfErr, OnOk, IsTrue};
ghost use Rattle.sqlite_disk.specs.Disk.{MoreFaults};
ghost use Rattle.sqlite_pool.specs.Stored.{Recovers, stored_size, used_size};
ghost use Rattle.sqlite_store.specs.FileStore.{faults, state, view};
ghost use Rattle.sqlite_store.specs.Unopened.{AreUsable, HasFileAs, HasSomeFile, IsFullFile, Opens, StopsCreating, files_of, image, state_of, wanted_by};
ghost use Rattle.sqlite_wal.specs.Recovery.{Image};
ghost use Rattle.sqlite_wal.specs.PageSize.{IsPageSize, bytes_of};
ghost use Rattle.osc_model.specs.Tree.{Tree as AnyTree};
ghost use Rattle.osc_store.specs.Keeping.{IsReady};
ghost use Rattle.osc_store.specs.Starting.{FindsTree, IsUnmade, Leaves, ListsTable, ReadsAs, page, schema};
ghost use Rattle.osc_store.specs.Opening.{Fails, IsLook, IsOver};

use crate::error::{OpenStoreError, of_open};
use crate::listing::{Listed, TABLE, read_list};
use sqlite_disk::{Disk, Files};
use sqlite_pager::{Options, Pager};
use sqlite_store::{FileStore, Unopened};
use sqlite_wal::PageSize;
use std::alloc::{AllocFailed, Global};

/// How many pages that were read are kept in memory: 128 kB of the 1 MB that 1,024 resources take.
const CACHE_PAGES: usize = 32;

/// How many pages the log has at most, 10 MB of 4,096 bytes each, before it is copied into the database file: more than come under one mark.
const LONGEST_LOG: usize = 2560;

/// The files with the table to look for, of which nothing is read yet; without memory they come back.
pub(crate) fn unopened<D: Disk>(
    alloc: Global,
    files: Files<D>,
    size: PageSize,
    has_sums: bool,
    seed: u64,
) -> Result<Unopened<D>, Files<D>>
    ensures back { IfErr result (λ left. (left.log ≡ files.log) × (left.db ≡ files.db)) }
    ensures files { IfOk result (λ it. files_of it ≡ (files.log, files.db)) }
    ensures size { IfOk result (λ it. (state_of it).page_size ≡ used_size (bytes_of size) has_sums) }
    ensures schema { IfOk result (λ it. wanted_by it ≡ schema) }
{
    let mut options = Options::new(seed);
    options.cache_pages = CACHE_PAGES;
    options.checkpoint_frames = LONGEST_LOG;
    let pager = match Pager::new(alloc, files, size, options) {
        Ok(pager) => pager,
        Err(AllocFailed { value }) => return Err(value),
    };
    match Unopened::with_sums(alloc, pager, &[TABLE], has_sums) {
        Ok(fresh) => Ok(fresh),
        Err(AllocFailed { value }) => Err(value.close()),
    }
}

/// Makes the store, or what a first start that was cut off left to be made.
pub(crate) fn create<D: Disk>(
    files: Unopened<D>,
) -> Result<FileStore<D>, (OpenStoreError, Unopened<D>)>
    requires usable { AreUsable files }
    requires schema { wanted_by files ≡ schema }
    requires size { (state_of files).page_size ≡ page }
    ensures honest { IfOk result (λ it. IsTrue (view it).is_clean → IsTrue (state_of files).is_clean) }
    ensures falls { IfErr result (λ e. IsTrue (state_of e.1).is_clean → IsTrue (state_of files).is_clean) }
    ensures over { IfOk result (λ it. IsTrue (view it).is_clean → IsOver (image files) it) }
    ensures counts { IfOk result (λ it. IsTrue (view it).is_clean → (state_of files).faults ≤ faults it) }
    ensures goes_on { IfOk result (λ it. IsTrue (view it).is_clean → (tree : AnyTree) → FindsTree (image files) tree
        → Leaves (state_of files).may_leave tree → Leaves (state it).may_leave tree) }
    ensures started { IfOk result (λ it. IsTrue (view it).is_clean → IsUnmade (image files) × ((view it).committed 0 ≡ [])) }
    ensures cause { IfErr result (λ e. IsTrue (state_of e.1).is_clean
        → Fails (MoreFaults (state_of files).faults (state_of e.1).faults) (StopsCreating e.1) (IsUnmade (image files)) ⊥ e.0) }
    ensures unharmed { IfErr result (λ e. IsTrue (state_of e.1).is_clean → IsUnmade (image files) → (tree : AnyTree) → FindsTree (image files) tree
        → Leaves (state_of files).may_leave tree → Leaves (state_of e.1).may_leave tree) }
    ensures more { IfErr result (λ e. IsTrue (state_of e.1).is_clean → (state_of files).faults ≤ (state_of e.1).faults) }
    ensures kind { IfErr result (λ e. e.0 ≢ OpenStoreError.NoStore) }
{
    match files.create() {
        Ok(store) => Ok(store),
        Err((error, left)) => Err((of_open(error), left)),
    }
}

/// Opens a database of the table, as far as sqlite_schema tells.
pub(crate) fn enter<D: Disk>(
    files: Unopened<D>,
) -> Result<FileStore<D>, (OpenStoreError, Unopened<D>)>
    requires usable { AreUsable files }
    requires schema { wanted_by files ≡ schema }
    requires sized { IsTrue (state_of files).is_clean → IsPageSize (stored_size (state_of files).page_size) }
    ensures honest { IfOk result (λ it. IsTrue (view it).is_clean → IsTrue (state_of files).is_clean) }
    ensures falls { IfErr result (λ e. IsTrue (state_of e.1).is_clean → IsTrue (state_of files).is_clean) }
    ensures ready { IfOk result (λ it. IsTrue (view it).is_clean → IsReady (view it)) }
    ensures settled { IfOk result (λ it. (view it).trees ≡ (view it).committed) }
    ensures lists { IfOk result (λ it. IsTrue (view it).is_clean → ListsTable (view it).committed) }
    ensures found { IfOk result (λ it. IsTrue (view it).is_clean → Recovers (state_of files).page_size (image files) (state it).committed) }
    ensures reads { IfOk result (λ it. IsTrue (view it).is_clean → (at : Image) → Recovers (state_of files).page_size at (state it).committed
        → ReadsAs at (view it).committed) }
    ensures counts { IfOk result (λ it. IsTrue (view it).is_clean → (state_of files).faults ≤ faults it) }
    ensures kept { IfOk result (λ it. IsTrue (view it).is_clean → Opens files (state it)) }
    ensures cause { IfErr result (λ e. IsTrue (state_of e.1).is_clean
        → Fails (MoreFaults (state_of files).faults (state_of e.1).faults) (IsFullFile e.1) (HasFileAs files true) ⊥ e.0) }
    ensures unharmed { IfErr result (λ e. IsTrue (state_of e.1).is_clean → Opens files (state_of e.1)) }
{
    match files.open_numbered() {
        Ok(store) => Ok(store),
        Err((error, left)) => Err((of_open(error), left)),
    }
}

/// What the files list, once they are recovered.
pub(crate) fn look<D: Disk>(files: &mut Unopened<D>) -> Result<Listed, OpenStoreError>
    requires { AreUsable files.old }
    ensures ok { IfOk result (λ found. IsTrue (state_of files.new).is_clean → IsLook files.old files.new found) }
    ensures cause { IfErr result (λ e. IsTrue (state_of files.new).is_clean
        → Fails (MoreFaults (state_of files.old).faults (state_of files.new).faults) (IsFullFile files.new) (HasSomeFile files.old) ⊥ e) }
    ensures usable { OnOk result (AreUsable files.new) }
    ensures schema { wanted_by files.new ≡ wanted_by files.old }
    ensures honest { IsTrue (state_of files.new).is_clean → IsTrue (state_of files.old).is_clean }
    ensures kept { IsTrue (state_of files.new).is_clean → Opens files.old (state_of files.new) }
{
    match files.read_catalog() {
        Ok(rows) => Ok(read_list(rows.as_slice())),
        Err(error) => Err(of_open(error)),
    }
}

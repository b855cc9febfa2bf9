//! A database file that holds the whole store, and one that says that a log belongs to it.
ghost use Rattle.std.specs.Prelude.{◌≡◌, ◌≤◌, Bool, false, IfErr, OnOk};
ghost use Rattle.sqlite_disk.specs.Disk.{MoreFaults};
ghost use Rattle.sqlite_trees.specs.Objects.{version_rows, version_tree};
ghost use Rattle.sqlite_trees.specs.View.{IsClean, doubt, KeepsSchema, OnlyWrites, Tells};
ghost use Rattle.sqlite_store.specs.FileStore.{blamed, faults, recovers, view, HasSpilled};
ghost use Rattle.osc_model.specs.Tree.{Tree as AnyTree};
ghost use Rattle.osc_store.specs.Causes.{Excuses, IsNamedBy, WhyNotKept};
ghost use Rattle.osc_store.specs.Rows.{Holds};
ghost use Rattle.osc_store.specs.Inner.Writing.{AddsNone, KeepsList};
ghost use Rattle.osc_store.specs.Keeping.{Keeps, MayHold, MayLeave, Writes};
ghost use Rattle.osc_store.specs.Starting.{IsWhole};

use crate::error::{KeepError, told};
use crate::keeping::commit_changes;
use sqlite_disk::Disk;
use sqlite_store::FileStore;
use sqlite_trees::error::StoreError;
use sqlite_trees::store::{Alter, Store};

/// The mark of a file that holds the whole store: none.
pub(crate) const WHOLE: u32 = 0;

/// Gives the file this mark and carries the log into it, so that it holds the whole store. What the store keeps it keeps, wherever the power
/// goes.
pub(crate) fn carry<D: Disk>(store: &mut FileStore<D>, mark: u32) -> Result<(), StoreError>
    ensures kept { (tree : AnyTree) → Keeps view recovers store.old tree → IsClean (view store.new) → OnOk result (Keeps view recovers store.new tree) }
    ensures crash { (tree : AnyTree) → Keeps view recovers store.old tree → IsClean (view store.new) → MayLeave view recovers store.new tree tree }
    ensures whole { (tree : AnyTree) → Keeps view recovers store.old tree → IsClean (view store.new) → OnOk result (IsWhole store.new tree) }
    ensures cause { (tree : AnyTree) → Keeps view recovers store.old tree → IsClean (view store.new)
        → IfErr result (Excuses (MoreFaults (faults store.old) (faults store.new)) ⊥) }
    ensures clean { doubt (view store.old).is_clean ≤ doubt (view store.new).is_clean }
    ensures counts { faults store.old ≤ faults store.new }
    ensures told { IfErr result (Tells (blamed store.new)) }
    ensures sums { OnOk result (IsClean (view store.new) → (view store.new).has_sums ≡ (view store.old).has_sums) }
{
    set_mark(store, mark)?;
    store.checkpoint()
}

// The mark of the file, once it is recovered, is this from now on.
fn set_mark<D: Disk>(store: &mut FileStore<D>, mark: u32) -> Result<(), StoreError>
    ensures kept { (tree : AnyTree) → Keeps view recovers store.old tree → IsClean (view store.new) → OnOk result (Keeps view recovers store.new tree) }
    ensures crash { (tree : AnyTree) → Keeps view recovers store.old tree → IsClean (view store.new) → MayHold view recovers store.new tree tree }
    ensures cause { (tree : AnyTree) → Keeps view recovers store.old tree → IsClean (view store.new)
        → IfErr result (Excuses (MoreFaults (faults store.old) (faults store.new)) ⊥) }
    ensures clean { doubt (view store.old).is_clean ≤ doubt (view store.new).is_clean }
    ensures counts { faults store.old ≤ faults store.new }
    ensures told { IfErr result (Tells (blamed store.new)) }
    ensures logged { OnOk result (¬ HasSpilled store.new) }
    ensures sums { OnOk result (IsClean (view store.new) → (view store.new).has_sums ≡ (view store.old).has_sums) }
{
    write_mark(store, mark)?;
    store.commit()
}

/// Writes it, and commits nothing.
pub(crate) fn write_mark<S: Alter>(store: &mut S, mark: u32) -> Result<(), StoreError>
    ensures marked { OnOk result (IsClean (S.Store.view store.new) → (S.Store.view store.new).trees version_tree ≡ version_rows mark) }
    ensures held { (tree : AnyTree) → Holds (S.Store.view store.old).trees tree → IsClean (S.Store.view store.new) → OnOk result (Holds (S.Store.view store.new).trees tree) }
    ensures frame { OnOk result (IsClean (S.Store.view store.new) → OnlyWrites (S.Store.view store.old) (S.Store.view store.new)) }
    ensures list { OnOk result (IsClean (S.Store.view store.new) → KeepsList (S.Store.view store.old) (S.Store.view store.new)) }
    ensures schema { IsClean (S.Store.view store.new) → KeepsSchema (S.Store.view store.old) (S.Store.view store.new) }
    ensures cause { (S.Store.view store.old).is_broken ≡ false → IsClean (S.Store.view store.new)
        → IfErr result (Excuses (MoreFaults (S.Store.faults store.old) (S.Store.faults store.new)) ⊥) }
    ensures told { IfErr result (Tells (S.Store.blamed store.new)) }
    ensures quiet { AddsNone S.Store.view S.Store.recovers S.Store.faults store.old store.new }
{
    store.set_version(mark)
}

/// As `commit_changes`, in a commit that gives the file this user version.
pub(crate) fn commit_marked<S: Alter>(store: &mut S, mark: u32) -> Result<(), KeepError>
    ensures marked { OnOk result (IsClean (S.Store.view store.new) → (S.Store.view store.new).committed version_tree ≡ version_rows mark) }
    ensures kept { (pending : Bool) (kept written : AnyTree) → Writes S.Store.view S.Store.recovers store.old pending kept written → IsClean (S.Store.view store.new)
        → OnOk result (Keeps S.Store.view S.Store.recovers store.new written) }
    ensures crash { (pending : Bool) (kept written : AnyTree) → Writes S.Store.view S.Store.recovers store.old pending kept written → IsClean (S.Store.view store.new)
        → MayHold S.Store.view S.Store.recovers store.new kept written }
    ensures cause { (pending : Bool) (kept written : AnyTree) → Writes S.Store.view S.Store.recovers store.old pending kept written → IsClean (S.Store.view store.new)
        → IfErr result (WhyNotKept (MoreFaults (S.Store.faults store.old) (S.Store.faults store.new)) ⊥) }
    ensures named { IfErr result (IsNamedBy (S.Store.blamed store.new)) }
    ensures counts { S.Store.faults store.old ≤ S.Store.faults store.new }
    ensures clean { doubt (S.Store.view store.old).is_clean ≤ doubt (S.Store.view store.new).is_clean }
{
    match write_mark(store, mark) {
        Ok(()) => commit_changes(store),
        Err(error) => Err(told(error)),
    }
}

//! Keeping a change of a tree.
ghost use Rattle.std.specs.Prelude.{◌≡◌, ◌≤◌, ◌↔◌, Bool, false, true, IsTrue, IfOk, IfErr, OnOk, Some, option_copied};
ghost use Rattle.std.specs.FinMap as map;
ghost use Rattle.sqlite_disk.specs.Disk.{MoreFaults};
ghost use Rattle.sqlite_trees.specs.View.{IsClean, doubt, KeepsSchema, OnlyWrites, Tells};
ghost use Rattle.osc_model.specs.Tree.{Tree as AnyTree};
ghost use Rattle.osc_store.specs.Causes.{Excuses, IsNamedBy, IsTooLong, WhyNotKept};
ghost use Rattle.osc_store.specs.Rows.{Holds, changed};
ghost use Rattle.osc_store.specs.Inner.Writing.{AddsNone, Finds, IsSame, KeepsList};
ghost use Rattle.osc_store.specs.Keeping.{HasTable, Keeps, MayHold, Writes};

use crate::error::{KeepError, told};
use crate::rows::{is_at, write_key, write_row};
use osc_model::{Path, Resource, laws};
use sqlite_trees::error::StoreError;
use sqlite_trees::store::{Direction, Shape, Store};
use sqlite_value::keys::Order;
use sqlite_value::row::Row;

/// The number of the table among the trees of the file.
pub(crate) const TREE: u32 = 0;

/// Whether the first tree is the table.
pub(crate) fn has_table<S: Store>(store: &S) -> bool
    ensures { IsTrue result ↔ HasTable (S.Store.view store.now) }
{
    store.shape(TREE) == Shape::Index(Order::PLAIN) && store.reals(TREE) == 0
}

/// Writes what the path has from now on, or that it has nothing: one row, which the next commit keeps. Whatever the result, each crash leaves a
/// file that holds what was kept. After an `Err` the store has to be opened again. `row` is room that is written over, so that a server writes a
/// change with little allocated.
pub(crate) fn write_change<S: Store>(
    store: &mut S,
    row: &mut Row,
    path: &Path,
    resource: Option<&Resource>,
) -> Result<(), KeepError>
    ensures written { (pending : Bool) (kept written : AnyTree) → Writes S.Store.view S.Store.recovers store.old pending kept written → IsClean (S.Store.view store.new)
        → OnOk result (Writes S.Store.view S.Store.recovers store.new true kept (changed written path.now (option_copied resource.entry))) }
    ensures crash { (pending : Bool) (kept written : AnyTree) → Writes S.Store.view S.Store.recovers store.old pending kept written → IsClean (S.Store.view store.new)
        → MayHold S.Store.view S.Store.recovers store.new kept kept }
    ensures cause { (pending : Bool) (kept written : AnyTree) → Writes S.Store.view S.Store.recovers store.old pending kept written → IsClean (S.Store.view store.new)
        → IfErr result (WhyNotKept (MoreFaults (S.Store.faults store.old) (S.Store.faults store.new)) (IsTooLong path.now (option_copied resource.entry))) }
    ensures named { IfErr result (IsNamedBy (S.Store.blamed store.new)) }
    ensures counts { S.Store.faults store.old ≤ S.Store.faults store.new }
    ensures clean { doubt (S.Store.view store.old).is_clean ≤ doubt (S.Store.view store.new).is_clean }
{
    match write(store, row, path, resource) {
        Ok(()) => Ok(()),
        Err(error) => Err(told(error)),
    }
}

/// Keeps all that has been written, in one commit. At `Ok` each crash leaves a file that has it. Whatever the result, each crash leaves a file
/// that holds what was kept, or what has been written, and nothing else. After an `Err` the store has to be opened again.
pub(crate) fn commit_changes<S: Store>(store: &mut S) -> Result<(), KeepError>
    ensures all { OnOk result (IsClean (S.Store.view store.new) → (S.Store.view store.new).committed ≡ (S.Store.view store.old).trees) }
    ensures kept { (pending : Bool) (kept written : AnyTree) → Writes S.Store.view S.Store.recovers store.old pending kept written → IsClean (S.Store.view store.new)
        → OnOk result (Keeps S.Store.view S.Store.recovers store.new written) }
    ensures crash { (pending : Bool) (kept written : AnyTree) → Writes S.Store.view S.Store.recovers store.old pending kept written → IsClean (S.Store.view store.new)
        → MayHold S.Store.view S.Store.recovers store.new kept written }
    ensures cause { (pending : Bool) (kept written : AnyTree) → Writes S.Store.view S.Store.recovers store.old pending kept written → IsClean (S.Store.view store.new)
        → IfErr result (WhyNotKept (MoreFaults (S.Store.faults store.old) (S.Store.faults store.new)) ⊥) }
    ensures named { IfErr result (IsNamedBy (S.Store.blamed store.new)) }
    ensures counts { S.Store.faults store.old ≤ S.Store.faults store.new }
    ensures clean { doubt (S.Store.view store.old).is_clean ≤ doubt (S.Store.view store.new).is_clean }
{
    match store.commit() {
        Ok(()) => Ok(()),
        Err(error) => Err(told(error)),
    }
}

/// Writes it, and commits nothing.
pub(crate) fn write<S: Store>(
    store: &mut S,
    row: &mut Row,
    path: &Path,
    resource: Option<&Resource>,
) -> Result<(), StoreError>
    ensures held { (tree : AnyTree) → Holds (S.Store.view store.old).trees tree → IsClean (S.Store.view store.new)
        → OnOk result (Holds (S.Store.view store.new).trees (changed tree path.now (option_copied resource.entry))) }
    ensures frame { OnOk result (IsClean (S.Store.view store.new) → OnlyWrites (S.Store.view store.old) (S.Store.view store.new)) }
    ensures list { OnOk result (IsClean (S.Store.view store.new) → KeepsList (S.Store.view store.old) (S.Store.view store.new)) }
    ensures schema { KeepsSchema (S.Store.view store.old) (S.Store.view store.new) }
    ensures cause { HasTable (S.Store.view store.old) → (S.Store.view store.old).is_broken ≡ false → IsClean (S.Store.view store.new)
        → IfErr result (Excuses (MoreFaults (S.Store.faults store.old) (S.Store.faults store.new)) (IsTooLong path.now (option_copied resource.entry))) }
    ensures told { IfErr result (Tells (S.Store.blamed store.new)) }
    ensures quiet { AddsNone S.Store.view S.Store.recovers S.Store.faults store.old store.new }
{
    if !has_table(store) {
        return Err(StoreError::Broken);
    }
    forget(store, row, path)?;
    match resource {
        None => Ok(()),
        Some(resource) => add(store, row, path, resource),
    }
}

// Leaves the path with nothing.
fn forget<S: Store>(store: &mut S, row: &mut Row, path: &Path) -> Result<(), StoreError>
    requires { HasTable (S.Store.view store.old) }
    ensures gone { (tree : AnyTree) → Holds (S.Store.view store.old).trees tree → IsClean (S.Store.view store.new)
        → OnOk result (Holds (S.Store.view store.new).trees (map.remove tree path.now)) }
    ensures frame { OnOk result (IsClean (S.Store.view store.new) → OnlyWrites (S.Store.view store.old) (S.Store.view store.new)) }
    ensures list { OnOk result (IsClean (S.Store.view store.new) → KeepsList (S.Store.view store.old) (S.Store.view store.new)) }
    ensures schema { KeepsSchema (S.Store.view store.old) (S.Store.view store.new) }
    ensures cause { (S.Store.view store.old).is_broken ≡ false → IsClean (S.Store.view store.new)
        → IfErr result (Excuses (MoreFaults (S.Store.faults store.old) (S.Store.faults store.new)) ⊥) }
    ensures told { IfErr result (Tells (S.Store.blamed store.new)) }
    ensures quiet { AddsNone S.Store.view S.Store.recovers S.Store.faults store.old store.new }
{
    if find(store, row, path)? {
        laws::paths_are_ordered();
        store.remove(TREE, row)
    } else {
        laws::paths_are_ordered();
        Ok(())
    }
}

// Gives the path, which has nothing, this.
fn add<S: Store>(
    store: &mut S,
    row: &mut Row,
    path: &Path,
    resource: &Resource,
) -> Result<(), StoreError>
    requires { HasTable (S.Store.view store.old) }
    ensures added { (tree : AnyTree) → Holds (S.Store.view store.old).trees (map.remove tree path.now) → IsClean (S.Store.view store.new)
        → OnOk result (Holds (S.Store.view store.new).trees (map.insert tree path.now resource.now)) }
    ensures frame { OnOk result (IsClean (S.Store.view store.new) → OnlyWrites (S.Store.view store.old) (S.Store.view store.new)) }
    ensures list { OnOk result (IsClean (S.Store.view store.new) → KeepsList (S.Store.view store.old) (S.Store.view store.new)) }
    ensures schema { KeepsSchema (S.Store.view store.old) (S.Store.view store.new) }
    ensures cause { (S.Store.view store.old).is_broken ≡ false → IsClean (S.Store.view store.new)
        → IfErr result (Excuses (MoreFaults (S.Store.faults store.old) (S.Store.faults store.new)) (IsTooLong path.now (Some resource.now))) }
    ensures told { IfErr result (Tells (S.Store.blamed store.new)) }
    ensures quiet { AddsNone S.Store.view S.Store.recovers S.Store.faults store.old store.new }
{
    laws::paths_are_ordered();
    write_row(row, path, resource)?;
    store.insert(TREE, row)
}

// Writes the row of the path over `row`, if it has one, and answers whether it does.
fn find<S: Store>(store: &mut S, row: &mut Row, path: &Path) -> Result<bool, StoreError>
    requires { HasTable (S.Store.view store.old) }
    ensures found { (tree : AnyTree) → Holds (S.Store.view store.old).trees tree → IsClean (S.Store.view store.new)
        → IfOk result (λ found. Finds tree path.now row.new found) }
    ensures same { OnOk result (IsClean (S.Store.view store.new) → IsSame (S.Store.view store.old) (S.Store.view store.new)) }
    ensures schema { KeepsSchema (S.Store.view store.old) (S.Store.view store.new) }
    ensures cause { (S.Store.view store.old).is_broken ≡ false → IsClean (S.Store.view store.new)
        → IfErr result (Excuses (MoreFaults (S.Store.faults store.old) (S.Store.faults store.new)) ⊥) }
    ensures told { IfErr result (Tells (S.Store.blamed store.new)) }
    ensures quiet { AddsNone S.Store.view S.Store.recovers S.Store.faults store.old store.new }
{
    laws::paths_are_ordered();
    write_key(row, path)?;
    store.seek(0, TREE, row, Direction::Forward)?;
    Ok(store.next(0, row)? && is_at(row, path))
}

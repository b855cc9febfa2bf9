//! What a store holds.
ghost use Rattle.std.specs.Prelude.{◌≡◌, ◌≢◌, ◌≤◌, ◌+◌, false, IfOk, IfErr, IfSome, IfNone, IsSome, OnOk};
ghost use Rattle.std.specs.FinMap as map;
ghost use Rattle.sqlite_disk.specs.Disk.{MoreFaults};
ghost use Rattle.sqlite_trees.specs.View.{IsClean, KeepsSchema};
ghost use Rattle.osc_model.specs.{most_resources};
ghost use Rattle.osc_store.specs.Causes.{Excuses};
ghost use Rattle.osc_store.specs.Rows.{Holds};
ghost use Rattle.osc_store.specs.Inner.Loading.{HoldsSome, IsForeign, Reads, Took};
ghost use Rattle.osc_store.specs.Inner.Writing.{AddsNone, IsSame};
ghost use Rattle.osc_store.specs.Keeping.{HasTable, IsReady, Keeps};
ghost use Rattle.osc_store.specs.Opening.{Fails};
ghost use Rattle.osc_store.specs.Starting.{ListsTable};

use crate::error::{OpenStoreError, of_call};
use crate::keeping::{TREE, has_table};
use crate::rows::read_row;
use osc_model::laws;
use osc_tree::{LONGEST_PAYLOAD, MOST_RESOURCES, Tree};
use sqlite_trees::error::StoreError;
use sqlite_trees::store::{Direction, Store};
use sqlite_value::row::Row;
use std::alloc::Global;

/// What became of the next row.
#[derive(Clone, Copy, Debug, PartialEq, Eq)]
pub(crate) enum NextRow {
    /// It is in the tree.
    NextRow,
    /// There is none.
    End,
    /// It is no resource, or one too many.
    Refused,
}

/// The tree that the store holds, or none where its table isn't that of a tree that a server may have.
pub(crate) fn load<S: Store>(alloc: Global, store: &mut S) -> Result<Option<Tree>, StoreError>
    ensures held { IsClean (S.Store.view store.new) → IfOk result (λ found. IfSome found (λ tree. Holds (S.Store.view store.old).trees tree)) }
    ensures none { IsClean (S.Store.view store.new) → HasTable (S.Store.view store.old) → IfOk result (λ found. IfNone found (IsForeign (S.Store.view store.old).trees)) }
    ensures same { OnOk result (IsClean (S.Store.view store.new) → IsSame (S.Store.view store.old) (S.Store.view store.new)) }
    ensures schema { KeepsSchema (S.Store.view store.old) (S.Store.view store.new) }
    ensures cause { (S.Store.view store.old).is_broken ≡ false → IsClean (S.Store.view store.new)
        → IfErr result (Excuses (MoreFaults (S.Store.faults store.old) (S.Store.faults store.new)) ⊥) }
    ensures quiet { AddsNone S.Store.view S.Store.recovers S.Store.faults store.old store.new }
{
    if !has_table(store) {
        return Ok(None);
    }
    let mut tree = Tree::new(alloc);
    begin(alloc, store)?;
    let mut row = Row::new(alloc);
    'rows: for _ in 0..MOST_RESOURCES + 1 {
        match take(alloc, store, &mut row, &mut tree)? {
            NextRow::NextRow => {}
            NextRow::End => return Ok(Some(tree)),
            NextRow::Refused => return Ok(None),
        }
    }
    Ok(None)
}

// Places the cursor at the first row.
fn begin<S: Store>(alloc: Global, store: &mut S) -> Result<(), StoreError>
    requires { HasTable (S.Store.view store.old) }
    ensures reads { OnOk result (IsClean (S.Store.view store.new) → Reads (S.Store.view store.new) map.empty) }
    ensures live { OnOk result (IsSome ((S.Store.view store.new).cursors 0)) }
    ensures same { OnOk result (IsClean (S.Store.view store.new) → IsSame (S.Store.view store.old) (S.Store.view store.new)) }
    ensures schema { KeepsSchema (S.Store.view store.old) (S.Store.view store.new) }
    ensures cause { (S.Store.view store.old).is_broken ≡ false → IsClean (S.Store.view store.new)
        → IfErr result (Excuses (MoreFaults (S.Store.faults store.old) (S.Store.faults store.new)) ⊥) }
    ensures quiet { AddsNone S.Store.view S.Store.recovers S.Store.faults store.old store.new }
{
    store.seek(0, TREE, &Row::new(alloc), Direction::Forward)
}

// Takes the next row into the tree.
fn take<S: Store>(
    alloc: Global,
    store: &mut S,
    row: &mut Row,
    tree: &mut Tree,
) -> Result<NextRow, StoreError>
    requires { IsSome ((S.Store.view store.old).cursors 0) }
    ensures took { IfOk result (λ taken. IsClean (S.Store.view store.new) → HasTable (S.Store.view store.old) → (S.Store.view store.old).is_broken ≡ false
        → Reads (S.Store.view store.old) tree.old → Took taken (S.Store.view store.new) tree.new) }
    ensures count { IfOk result (λ taken. taken ≡ NextRow.NextRow → (map.len tree.new ≡ map.len tree.old + 1) × (map.len tree.new ≤ most_resources)) }
    ensures live { OnOk result (IsSome ((S.Store.view store.new).cursors 0)) }
    ensures same { OnOk result (IsClean (S.Store.view store.new) → IsSame (S.Store.view store.old) (S.Store.view store.new)) }
    ensures sound { OnOk result (IsClean (S.Store.view store.new) → (S.Store.view store.old).is_broken ≡ false) }
    ensures schema { KeepsSchema (S.Store.view store.old) (S.Store.view store.new) }
    ensures cause { (S.Store.view store.old).is_broken ≡ false → IsClean (S.Store.view store.new)
        → IfErr result (Excuses (MoreFaults (S.Store.faults store.old) (S.Store.faults store.new)) ⊥) }
    ensures quiet { AddsNone S.Store.view S.Store.recovers S.Store.faults store.old store.new }
{
    laws::paths_are_ordered();
    if !store.next(0, row)? {
        return Ok(NextRow::End);
    }
    let Some((path, resource)) = read_row(alloc, row)? else {
        return Ok(NextRow::Refused);
    };
    if resource.payload.len() > LONGEST_PAYLOAD || tree.is_full() || tree.get(&path).is_some() {
        return Ok(NextRow::Refused);
    }
    tree.put(alloc, path, resource)?;
    Ok(NextRow::NextRow)
}

/// The store with the tree that it holds.
pub(crate) fn adopt<S: Store>(alloc: Global, mut store: S) -> Result<(S, Tree), (OpenStoreError, S)>
    requires ready { IsClean (S.Store.view store) → IsReady (S.Store.view store) }
    requires settled { IsClean (S.Store.view store) → (S.Store.view store).trees ≡ (S.Store.view store).committed }
    requires lists { IsClean (S.Store.view store) → ListsTable (S.Store.view store).committed }
    ensures kept { IfOk result (λ opened. IsClean (S.Store.view opened.0) → Keeps S.Store.view S.Store.recovers opened.0 opened.1) }
    ensures held { IfOk result (λ opened. IsClean (S.Store.view opened.0) → Holds (S.Store.view store).committed opened.1) }
    ensures same { IfOk result (λ opened. IsClean (S.Store.view opened.0) → IsSame (S.Store.view store) (S.Store.view opened.0)) }
    ensures quiet { IfOk result (λ opened. AddsNone S.Store.view S.Store.recovers S.Store.faults store opened.0) }
    ensures cause { IfErr result (λ e. IsClean (S.Store.view e.1)
        → Fails (MoreFaults (S.Store.faults store) (S.Store.faults e.1)) ⊥ (HoldsSome (S.Store.view store).committed) ⊥ e.0) }
    ensures numbered { IfErr result (λ e. (S.Store.view e.1).is_numbered ≡ (S.Store.view store).is_numbered) }
    ensures undone { IfErr result (λ e. AddsNone S.Store.view S.Store.recovers S.Store.faults store e.1) }
    ensures kind { IfErr result (λ e. e.0 ≢ OpenStoreError.NoStore) }
{
    match load(alloc, &mut store) {
        Ok(Some(tree)) => Ok((store, tree)),
        Ok(None) => Err((OpenStoreError::Damaged, store)),
        Err(error) => Err((of_call(error), store)),
    }
}

//! Laws of the definitions. These functions do nothing: whoever calls one has its clauses for a proof.
ghost use Rattle.std.specs.Prelude.{◌≡◌, ℕ, List, None, Some};
ghost use Rattle.std.specs.FinMap as map;
ghost use Rattle.sqlite_value.specs.Keys.{plain};
ghost use Rattle.sqlite_trees.specs.Tree.{insert_entry, remove_entry};
ghost use Rattle.sqlite_store.specs.FileStore.{recovers, state, view};
ghost use Rattle.sqlite_store.specs.declared.store.FileStore.{FileStore};
ghost use Rattle.sqlite_wal.specs.Recovery.{Image};
ghost use Rattle.osc_model.specs.Tree.{Tree as AnyTree};
ghost use Rattle.osc_model.specs.declared.resource.Resource.{Resource as AnyResource};
ghost use Rattle.osc_store.specs.Keeping.{Keeps, MayHold};
ghost use Rattle.osc_store.specs.Rows.{row_of, rows_of};
ghost use Rattle.osc_store.specs.Starting.{AreOne, FindsEither, FindsTree, Leaves};

use sqlite_disk::Disk;

/// One row more or less is one resource more or less.
pub fn rows_are_resources()
    ensures removed { (tree : AnyTree) (path : List ℕ) (resource : AnyResource) → map.get tree path ≡ Some resource
        → remove_entry plain (row_of (path, resource)) (rows_of tree) ≡ rows_of (map.remove tree path) }
    ensures inserted { (tree : AnyTree) (path : List ℕ) (resource : AnyResource) → map.get tree path ≡ None
        → insert_entry plain (row_of (path, resource)) (rows_of tree) ≡ rows_of (map.insert tree path resource) }
{
    osc_model::laws::paths_are_ordered();
}

/// The rows of a table are of one tree at most, and so is what a start may find in two files.
pub fn files_hold_one_tree()
    ensures rows { (a b : AnyTree) → rows_of a ≡ rows_of b → a ≡ b }
    ensures files { (image : Image) (a b : AnyTree) → FindsTree image a → FindsTree image b → AreOne a b }
{}

/// What a crash leaves of the files is found by the next start: of a store that keeps a tree, that tree; of one whose change may be kept or
/// not, the tree without the change, or with it.
pub fn starts_go_on<D: Disk>()
    ensures kept { (it : FileStore D D.Disk) (tree : AnyTree) → Keeps view recovers it tree → Leaves (state it).may_leave tree }
    ensures cut { (it : FileStore D D.Disk) (before after : AnyTree) → MayHold view recovers it before after
        → (left : Image) → (state it).may_leave left → FindsEither left before after }
{}

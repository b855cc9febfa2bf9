//! What a server keeps its changes in.
ghost use Rattle.std.specs.Prelude.{◌≡◌, ◌≤◌, Bool, false, true, IfErr, IsOk, IsTrue, OnErr, OnOk, ℕ, option_copied, ⊤};
ghost use Rattle.sqlite_disk.specs.Disk.{MoreFaults};
ghost use Rattle.sqlite_store.specs.FileStore.{blamed, faults, recovers, view};
ghost use Rattle.osc_model.specs.Tree.{Tree as AnyTree};
ghost use Rattle.osc_store.specs.declared.error.KeepError.{KeepError as Unkept};
ghost use Rattle.osc_store.specs.Rows.{changed};
ghost use Rattle.sqlite_trees.specs.View.{IsClean, doubt};
ghost use Rattle.osc_store.specs.Causes.{IsNamedBy, IsTooLong, WhyNotKept};
ghost use Rattle.osc_store.specs.Starting.{IsWhole};
ghost use Rattle.osc_store.specs.Keeping.{Keeps, MayHold, MayLeave, Writes, may_hold_either, may_hold_first, may_hold_kept, may_hold_second, may_leave_either, may_leave_first, may_leave_kept, may_leave_second, keeps_writes};

use crate::belonging::{logged_of, mark_of};
use crate::error::{KeepError, told};
use crate::keeping::{commit_changes, write_change};
use crate::marking::{WHOLE, carry, commit_marked};
use osc_model::{Path, Resource};
use sqlite_disk::Disk;
use sqlite_store::FileStore;
use sqlite_trees::store::Store;
use sqlite_value::row::Row;
use std::alloc::Global;

/// What the changes of a tree are kept in: a store, or nothing. Changes are written, any number of them, and one commit keeps them all. After an
/// `Err` it has to be opened again.
pub trait Keeping {
    /// Whatever a crash leaves from now on, the next start finds this tree.
    ghost keeps: { Self → AnyTree → Type 0 };

    /// Whatever a crash leaves from now on, the next start finds the first tree. The second is what has been written, which a commit keeps.
    ghost writes: { Self → AnyTree → AnyTree → Type 0 };

    /// Whatever a crash leaves from now on, the next start finds one of these two.
    ghost may_hold: { Self → AnyTree → AnyTree → Type 0 };

    /// Something is written that isn't committed.
    ghost pending: { Self → Bool };

    /// How many calls of the disk have failed, or met a limit of the file.
    ghost faults: { Self → ℕ };

    /// No wrong answer of the disk was taken as true.
    ghost trusted: { Self → Type 0 };

    /// It may fail to keep a change.
    ghost may_fail: { Type 0 };

    /// This error, if it tells of the disk, is the last failure.
    ghost names: { Self → Unkept → Type 0 };

    /// Writes what the path has from now on, or that it has nothing. Nothing new is kept before the commit. An error has a cause: the disk failed or
    /// is full, the resource is too long, or there was no memory, of which nothing else tells.
    fn write(&mut self, path: &Path, resource: Option<&Resource>) -> Result<(), KeepError>
        ensures written { (kept written : AnyTree) → writes self.old kept written
            → OnOk result (writes self.new kept (changed written path.now (option_copied resource.entry))) }
        ensures crash { (kept written : AnyTree) → writes self.old kept written → may_hold self.new kept kept }
        ensures cause { (kept written : AnyTree) → writes self.old kept written → trusted self.new
            → IfErr result (WhyNotKept (MoreFaults (faults self.old) (faults self.new)) (IsTooLong path.now (option_copied resource.entry))) }
        ensures fails { OnErr result may_fail }
        ensures named { IfErr result (names self.new) }
        ensures counts { faults self.old ≤ faults self.new }
        ensures trust { trusted self.new → trusted self.old };

    /// Keeps all that has been written, at once: a crash leaves what was kept before, or all of it. Where nothing is pending, nothing is done. An error
    /// has a cause, as of `write`.
    fn commit(&mut self) -> Result<(), KeepError>
        ensures kept { (kept written : AnyTree) → writes self.old kept written → OnOk result (keeps self.new written) }
        ensures crash { (kept written : AnyTree) → writes self.old kept written → may_hold self.new kept written }
        ensures cause { (kept written : AnyTree) → writes self.old kept written → trusted self.new
            → IfErr result (WhyNotKept (MoreFaults (faults self.old) (faults self.new)) ⊥) }
        ensures nothing { pending self.old ≡ false → IsOk result × (self.new ≡ self.old) }
        ensures done { OnOk result (pending self.new ≡ false) }
        ensures fails { OnErr result may_fail }
        ensures named { IfErr result (names self.new) }
        ensures counts { faults self.old ≤ faults self.new }
        ensures trust { trusted self.new → trusted self.old };

    // What keeps a tree has written it.
    ghost writes_first: { (it : Self) (tree : AnyTree) → keeps it tree → writes it tree tree };

    // What keeps a tree holds one of two, if the tree is the first, or the second.
    ghost holds_first: { (it : Self) (before after : AnyTree) → keeps it before → may_hold it before after };

    ghost holds_second: { (it : Self) (before after : AnyTree) → keeps it after → may_hold it before after };

    // Whatever has been written, it holds what is kept.
    ghost holds_kept: { (it : Self) (kept written : AnyTree) → writes it kept written → may_hold it kept kept };

    // What holds a tree holds it or another.
    ghost holds_either: { (it : Self) (before after : AnyTree) → may_hold it before before → may_hold it before after };
}

/// For a client, a proxy, and a server whose resources end with the process: nothing is kept, and nothing is said of a crash.
#[derive(Drop)]
pub struct Forgetful;

impl Keeping for Forgetful {
    ghost keeps = { λ _ _. ⊤ };

    ghost writes = { λ _ _ _. ⊤ };

    ghost may_hold = { λ _ _ _. ⊤ };

    ghost pending = { λ _. false };

    ghost faults = { λ _. 0 };

    ghost trusted = { λ _. ⊤ };

    ghost may_fail = { ⊥ };

    ghost names = { λ _ _. ⊤ };

    fn write(&mut self, _path: &Path, _resource: Option<&Resource>) -> Result<(), KeepError> {
        Ok(())
    }

    fn commit(&mut self) -> Result<(), KeepError> {
        Ok(())
    }

    ghost writes_first = { λ it tree keeps. tt };

    ghost holds_first = { λ it before after keeps. tt };

    ghost holds_second = { λ it before after keeps. tt };

    ghost holds_kept = { λ it kept written writes. tt };

    ghost holds_either = { λ it before after may. tt };
}

/// A store, and room for the row that is written. What it keeps is said as long as no wrong answer of the disk was taken as true.
#[derive(Drop)]
pub struct Keeper<S: Store> {
    pub store: S,
    /// Something is written that isn't committed.
    pub pending: bool,
    row: Row,
}

impl<S: Store> Keeper<S> {
    /// Keeps changes in this store from now on.
    pub fn new(alloc: Global, store: S) -> Keeper<S>
        ensures store { result.store ≡ store }
        ensures pending { result.pending ≡ false }
    {
        let row = Row::new(alloc);
        Keeper {
            store,
            pending: false,
            row,
        }
    }

    /// Gives the store back. What isn't committed is lost.
    pub fn into_store(self) -> S
        ensures { result ≡ self.store }
    {
        let Keeper {
            store,
            pending: _,
            row: _,
        } = self;
        store
    }
}

impl<S: Store> Keeping for Keeper<S> {
    ghost keeps = { λ it tree. IsClean (S.Store.view it.store) → Keeps S.Store.view S.Store.recovers it.store tree };

    ghost writes = { λ it kept written. IsClean (S.Store.view it.store) → Writes S.Store.view S.Store.recovers it.store it.pending kept written };

    ghost may_hold = { λ it before after. IsClean (S.Store.view it.store) → MayHold S.Store.view S.Store.recovers it.store before after };

    ghost pending = { λ it. it.pending };

    ghost faults = { λ it. S.Store.faults it.store };

    ghost trusted = { λ it. IsClean (S.Store.view it.store) };

    ghost may_fail = { ⊤ };

    ghost names = { λ it e. IsNamedBy (S.Store.blamed it.store) e };

    fn write(&mut self, path: &Path, resource: Option<&Resource>) -> Result<(), KeepError> {
        self.pending = true;
        write_change(&mut self.store, &mut self.row, path, resource)
    }

    fn commit(&mut self) -> Result<(), KeepError> {
        if !self.pending {
            return Ok(());
        }
        commit_changes(&mut self.store)?;
        self.pending = false;
        Ok(())
    }

    ghost writes_first = { λ it tree keeps clean. keeps_writes S.Store.view S.Store.recovers it.store it.pending tree (keeps clean) };

    ghost holds_first = { λ it before after keeps clean. may_hold_first S.Store.view S.Store.recovers it.store before after (keeps clean) };

    ghost holds_second = { λ it before after keeps clean. may_hold_second S.Store.view S.Store.recovers it.store before after (keeps clean) };

    ghost holds_kept = { λ it kept written writes clean. may_hold_kept S.Store.view S.Store.recovers it.store it.pending kept written (writes clean) };

    ghost holds_either = { λ it before after may clean. may_hold_either S.Store.view S.Store.recovers it.store before after (may clean) };
}

/// A store in two files, and room for the row that is written. Before the first change since the database file held all, that file is marked:
/// it says that a log belongs to it, without which it isn't opened.
#[derive(Drop)]
pub struct FileKeeper<D: Disk> {
    pub store: FileStore<D>,
    /// Something is written that isn't committed.
    pub pending: bool,
    row: Row,
    // The bits of the mark that are its own.
    own: u32,
    // How many changes may come before the file is marked again: none, where it isn't marked.
    left: u32,
}

/// How many changes come under one mark, beside those of the last commit, which are 64 at most. A change writes eight pages at most: so the log is
/// shorter than one that is carried into the file without a mark.
const MOST_UNDER_MARK: u32 = 256;

impl<D: Disk> FileKeeper<D> {
    /// Keeps changes in this store from now on. Twenty bits of `own` are those of its first mark.
    pub fn new(alloc: Global, store: FileStore<D>, own: u32) -> FileKeeper<D>
        ensures store { result.store ≡ store }
        ensures pending { result.pending ≡ false }
    {
        let row = Row::new(alloc);
        FileKeeper {
            store,
            pending: false,
            row,
            own,
            left: 0,
        }
    }

    /// Gives the store back. What isn't committed is lost.
    pub fn into_store(self) -> FileStore<D>
        ensures { result ≡ self.store }
    {
        let FileKeeper {
            store,
            pending: _,
            row: _,
            own: _,
            left: _,
        } = self;
        store
    }

    /// Carries the log into the database file and takes the mark back, so that this file alone holds the tree, until the next change. However
    /// far that comes, a crash loses nothing. After an `Err` the store has to be opened again.
    pub fn make_whole(&mut self) -> Result<(), KeepError>
        ensures kept { (tree : AnyTree) → Keeps view recovers self.old.store tree → IsClean (view self.new.store) → OnOk result (Keeps view recovers self.new.store tree) }
        ensures whole { (tree : AnyTree) → Keeps view recovers self.old.store tree → IsClean (view self.new.store) → OnOk result (IsWhole self.new.store tree) }
        ensures crash { (tree : AnyTree) → Keeps view recovers self.old.store tree → IsClean (view self.new.store) → MayLeave view recovers self.new.store tree tree }
        ensures cause { (tree : AnyTree) → Keeps view recovers self.old.store tree → IsClean (view self.new.store)
            → IfErr result (WhyNotKept (MoreFaults (faults self.old.store) (faults self.new.store)) ⊥) }
        ensures named { IfErr result (IsNamedBy (blamed self.new.store)) }
        ensures done { OnOk result (self.new.pending ≡ false) }
        ensures counts { faults self.old.store ≤ faults self.new.store }
        ensures clean { doubt (view self.old.store).is_clean ≤ doubt (view self.new.store).is_clean }
    {
        carried(&mut self.store, WHOLE)?;
        self.pending = false;
        self.own = self.own.wrapping_add(1);
        self.left = 0;
        Ok(())
    }

    // The database file says that a log belongs to it.
    fn mark_file(&mut self) -> Result<(), KeepError>
        ensures kept { (tree : AnyTree) → Keeps view recovers self.old.store tree → IsClean (view self.new.store) → OnOk result (Keeps view recovers self.new.store tree) }
        ensures crash { (tree : AnyTree) → Keeps view recovers self.old.store tree → IsClean (view self.new.store) → MayLeave view recovers self.new.store tree tree }
        ensures cause { (tree : AnyTree) → Keeps view recovers self.old.store tree → IsClean (view self.new.store)
            → IfErr result (WhyNotKept (MoreFaults (faults self.old.store) (faults self.new.store)) ⊥) }
        ensures named { IfErr result (IsNamedBy (blamed self.new.store)) }
        ensures counts { faults self.old.store ≤ faults self.new.store }
        ensures clean { doubt (view self.old.store).is_clean ≤ doubt (view self.new.store).is_clean }
    {
        if self.left > 0 {
            return Ok(());
        }
        carried(&mut self.store, mark_of(self.own))?;
        self.left = MOST_UNDER_MARK;
        Ok(())
    }

    // The same, before the first change since a commit.
    fn begin(&mut self) -> Result<(), KeepError>
        ensures kept { (kept written : AnyTree) → Writes view recovers self.old.store self.old.pending kept written → IsClean (view self.new.store)
            → OnOk result (Writes view recovers self.new.store true kept written) }
        ensures crash { (kept written : AnyTree) → Writes view recovers self.old.store self.old.pending kept written → IsClean (view self.new.store)
            → MayLeave view recovers self.new.store kept kept }
        ensures cause { (kept written : AnyTree) → Writes view recovers self.old.store self.old.pending kept written → IsClean (view self.new.store)
            → IfErr result (WhyNotKept (MoreFaults (faults self.old.store) (faults self.new.store)) ⊥) }
        ensures pending { OnOk result (IsTrue self.new.pending) }
        ensures named { IfErr result (IsNamedBy (blamed self.new.store)) }
        ensures counts { faults self.old.store ≤ faults self.new.store }
        ensures clean { doubt (view self.old.store).is_clean ≤ doubt (view self.new.store).is_clean }
    {
        if self.pending {
            return Ok(());
        }
        self.mark_file()?;
        self.pending = true;
        Ok(())
    }
}

// Gives the file this mark and carries the log into it.
fn carried<D: Disk>(store: &mut FileStore<D>, mark: u32) -> Result<(), KeepError>
    ensures kept { (tree : AnyTree) → Keeps view recovers store.old tree → IsClean (view store.new) → OnOk result (Keeps view recovers store.new tree) }
    ensures whole { (tree : AnyTree) → Keeps view recovers store.old tree → IsClean (view store.new) → OnOk result (IsWhole store.new tree) }
    ensures crash { (tree : AnyTree) → Keeps view recovers store.old tree → IsClean (view store.new) → MayLeave view recovers store.new tree tree }
    ensures cause { (tree : AnyTree) → Keeps view recovers store.old tree → IsClean (view store.new)
        → IfErr result (WhyNotKept (MoreFaults (faults store.old) (faults store.new)) ⊥) }
    ensures named { IfErr result (IsNamedBy (blamed store.new)) }
    ensures counts { faults store.old ≤ faults store.new }
    ensures clean { doubt (view store.old).is_clean ≤ doubt (view store.new).is_clean }
{
    match carry(store, mark) {
        Ok(()) => Ok(()),
        Err(error) => Err(told(error)),
    }
}

impl<D: Disk> Keeping for FileKeeper<D> {
    ghost keeps = { λ it tree. IsClean (view it.store) → Keeps view recovers it.store tree };

    ghost writes = { λ it kept written. IsClean (view it.store) → Writes view recovers it.store it.pending kept written };

    ghost may_hold = { λ it before after. IsClean (view it.store) → MayLeave view recovers it.store before after };

    ghost pending = { λ it. it.pending };

    ghost faults = { λ it. faults it.store };

    ghost trusted = { λ it. IsClean (view it.store) };

    ghost may_fail = { ⊤ };

    ghost names = { λ it e. IsNamedBy (blamed it.store) e };

    fn write(&mut self, path: &Path, resource: Option<&Resource>) -> Result<(), KeepError> {
        self.begin()?;
        self.left = self.left.saturating_sub(1);
        write_change(&mut self.store, &mut self.row, path, resource)
    }

    fn commit(&mut self) -> Result<(), KeepError> {
        if !self.pending {
            return Ok(());
        }
        commit_marked(&mut self.store, logged_of(self.own))?;
        self.pending = false;
        Ok(())
    }

    ghost writes_first = { λ it tree keeps clean. keeps_writes view recovers it.store it.pending tree (keeps clean) };

    ghost holds_first = { λ it before after keeps clean. may_leave_first view recovers it.store before after (keeps clean) };

    ghost holds_second = { λ it before after keeps clean. may_leave_second view recovers it.store before after (keeps clean) };

    ghost holds_kept = { λ it kept written writes clean. may_leave_kept view recovers it.store it.pending kept written (writes clean) };

    ghost holds_either = { λ it before after may clean. may_leave_either view recovers it.store before after (may clean) };
}

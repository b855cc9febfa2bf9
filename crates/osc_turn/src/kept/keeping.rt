//! What keeps the steps of a node.
ghost use Rattle.std.specs.Prelude.{◌≡◌, ◌≤◌, false, Bool, IfErr, IsOk, List, None, OnErr, OnOk, Option, ⊤, ℕ};
ghost use Rattle.osc_model.specs.declared.step.Step.{Step as AnyStep};
ghost use Rattle.osc_run.specs.{Cause};
ghost use Rattle.sqlite_disk.specs.Disk.{MoreFaults};
ghost use Rattle.sqlite_trees.specs.View.{IsClean};
ghost use Rattle.osc_store.specs.{Keeps, MayHold, Writes};
ghost use Rattle.osc_store.specs.Keeping.{may_hold_either, may_hold_first, keeps_writes};
ghost use Rattle.osc_store.specs.declared.error.KeepError.{KeepError as AnyKeepError};
ghost use Rattle.osc_store.specs.Causes.{IsNamedBy, WhyNotKept};
ghost use Rattle.osc_turn.specs.Kept.Changes.{HasTooLong, path_changed_by};
ghost use Rattle.osc_turn.specs.Kept.Turns.{may_hold_last};

use crate::kept::changes::{commit_changes, write_change};
use crate::kept::laws::one_path_changes;
use osc_ccm::Ciphers;
use osc_model::StepNotes;
use osc_run::Node;
use osc_server::Server;
use osc_store::{Forgetful, KeepError, Keeper};
use sqlite_trees::store::Store;

/// What keeps the steps of a node, each before anything of it is sent: a store, or nothing.
pub trait KeepsSteps<A: Ciphers, N: Node<A>> {
    /// Whatever a crash leaves from now on, the next start finds the resources of this node.
    ghost keeps: { Self → N → Type 0 };

    /// Whatever a crash leaves from now on, the next start finds those of the first. Those of the second are written, and a commit keeps them.
    ghost writes: { Self → N → N → Type 0 };

    /// Whatever a crash leaves from now on, the next start finds those of one of these two.
    ghost may_hold: { Self → N → N → Type 0 };

    /// Something is written that isn't committed.
    ghost pending: { Self → Bool };

    /// Something is kept that is to be put in its place when there is time: so `rest` may have something to do.
    ghost owes: { Self → Bool };

    /// Keeping a step may fail; of what never fails to keep one, never.
    ghost may_fail: { Type 0 };

    /// How often the disk failed so far.
    ghost faults: { Self → ℕ };

    /// No wrong answer of the disk was taken as true.
    ghost trusted: { Self → Type 0 };

    /// The error has the name of the disk's last failure, where it tells of one.
    ghost names: { Self → AnyKeepError → Type 0 };

    /// A resource of this node is too long to be kept.
    ghost too_long: { N → Type 0 };

    /// The name of the file in which the steps are kept, if they are.
    ghost file: { Self → Option (List ℕ) };

    /// Writes what the node's last step changed, of which these are the notes. It is kept by the next commit. It is handed no memory: what keeps the
    /// steps alone may fail.
    fn write_step(&mut self, node: &N, notes: &StepNotes) -> Result<(), KeepError>
        ensures kept { (first old : N) (cause : Cause) (step : AnyStep) → N.is_step old cause step node.now → step.notes ≡ notes.now
            → writes self.old first old → OnOk result (writes self.new first node.now) }
        ensures crash { (first old : N) (cause : Cause) (step : AnyStep) → N.is_step old cause step node.now → step.notes ≡ notes.now
            → writes self.old first old → may_hold self.new first first }
        ensures cause { (first old : N) (cause : Cause) (step : AnyStep) → N.is_step old cause step node.now → step.notes ≡ notes.now
            → writes self.old first old → trusted self.new
            → IfErr result (WhyNotKept (MoreFaults (faults self.old) (faults self.new)) (too_long node.now)) }
        ensures nothing { path_changed_by notes.now.served ≡ None → IsOk result × (self.new ≡ self.old) }
        ensures fails { OnErr result may_fail }
        ensures named { IfErr result (names self.new) }
        ensures counts { faults self.old ≤ faults self.new }
        ensures trust { trusted self.new → trusted self.old }
        ensures file { file self.new ≡ file self.old };

    /// Keeps all that is written, at once.
    fn commit(&mut self) -> Result<(), KeepError>
        ensures kept { (first last : N) → writes self.old first last → OnOk result (keeps self.new last) }
        ensures crash { (first last : N) → writes self.old first last → may_hold self.new first last }
        ensures cause { (first last : N) → writes self.old first last → trusted self.new
            → IfErr result (WhyNotKept (MoreFaults (faults self.old) (faults self.new)) ⊥) }
        ensures nothing { pending self.old ≡ false → IsOk result × (self.new ≡ self.old) }
        ensures done { OnOk result (pending self.new ≡ false) }
        ensures fails { OnErr result may_fail }
        ensures named { IfErr result (names self.new) }
        ensures counts { faults self.old ≤ faults self.new }
        ensures trust { trusted self.new → trusted self.old }
        ensures file { file self.new ≡ file self.old };

    /// Does what is left for a time in which nothing changes.
    fn rest(&mut self) -> Result<(), KeepError>
        ensures kept { (node : N) → keeps self.old node → OnOk result (keeps self.new node) }
        ensures crash { (node : N) → keeps self.old node → may_hold self.new node node }
        ensures cause { (node : N) → keeps self.old node → trusted self.new
            → IfErr result (WhyNotKept (MoreFaults (faults self.old) (faults self.new)) ⊥) }
        ensures nothing { owes self.old ≡ false → IsOk result × (self.new ≡ self.old) }
        ensures done { pending self.old ≡ false → OnOk result (pending self.new ≡ false) }
        ensures fails { OnErr result may_fail }
        ensures named { IfErr result (names self.new) }
        ensures counts { faults self.old ≤ faults self.new }
        ensures trust { trusted self.new → trusted self.old }
        ensures file { file self.new ≡ file self.old };

    // What keeps the resources of a node has written them.
    ghost writes_first: { (it : Self) (node : N) → keeps it node → writes it node node };

    // What keeps the resources of a node holds those of one of two, if they are the first's.
    ghost holds_first: { (it : Self) (first last : N) → keeps it first → may_hold it first last };

    // What holds those of one node alone holds those of one of two, if they are the first's.
    ghost holds_either: { (it : Self) (first last : N) → may_hold it first first → may_hold it first last };

    // What holds those of one node alone holds those of one of two, if they are the second's.
    ghost holds_second: { (it : Self) (first last : N) → may_hold it last last → may_hold it first last };
}

impl<A: Ciphers, N: Node<A>> KeepsSteps<A, N> for Forgetful {
    ghost keeps = { λ _ _. ⊤ };

    ghost writes = { λ _ _ _. ⊤ };

    ghost may_hold = { λ _ _ _. ⊤ };

    ghost pending = { λ _. false };

    ghost owes = { λ _. false };

    ghost may_fail = { ⊥ };

    ghost faults = { λ _. 0 };

    ghost trusted = { λ _. ⊤ };

    ghost names = { λ _ _. ⊤ };

    ghost too_long = { λ _. ⊥ };

    ghost file = { λ _. None };

    fn write_step(&mut self, _node: &N, _notes: &StepNotes) -> Result<(), KeepError> {
        Ok(())
    }

    fn commit(&mut self) -> Result<(), KeepError> {
        Ok(())
    }

    fn rest(&mut self) -> Result<(), KeepError> {
        Ok(())
    }

    ghost writes_first = { λ it node keeps. tt };

    ghost holds_first = { λ it first last keeps. tt };

    ghost holds_either = { λ it first last holds. tt };

    ghost holds_second = { λ it first last holds. tt };
}

impl<A: Ciphers, S: Store> KeepsSteps<A, Server> for Keeper<S> {
    ghost keeps = { λ it node. IsClean (S.Store.view it.store) → Keeps S.Store.view S.Store.recovers it.store node.tree };

    ghost writes = { λ it first last. IsClean (S.Store.view it.store) → Writes S.Store.view S.Store.recovers it.store it.pending first.tree last.tree };

    ghost may_hold = { λ it first last. IsClean (S.Store.view it.store) → MayHold S.Store.view S.Store.recovers it.store first.tree last.tree };

    ghost pending = { λ it. it.pending };

    ghost owes = { λ _. false };

    ghost may_fail = { ⊤ };

    ghost faults = { λ it. S.Store.faults it.store };

    ghost trusted = { λ it. IsClean (S.Store.view it.store) };

    ghost names = { λ it e. IsNamedBy (S.Store.blamed it.store) e };

    ghost too_long = { λ node. HasTooLong node.tree };

    ghost file = { λ _. None };

    fn write_step(&mut self, node: &Server, notes: &StepNotes) -> Result<(), KeepError> {
        one_path_changes();
        write_change(self, node.tree(), notes.served())
    }

    fn commit(&mut self) -> Result<(), KeepError> {
        commit_changes(self)
    }

    fn rest(&mut self) -> Result<(), KeepError> {
        Ok(())
    }

    ghost writes_first = { λ it node keeps clean. keeps_writes S.Store.view S.Store.recovers it.store it.pending node.tree (keeps clean) };

    ghost holds_first = { λ it first last keeps clean. may_hold_first S.Store.view S.Store.recovers it.store first.tree last.tree (keeps clean) };

    ghost holds_either = { λ it first last holds clean. may_hold_either S.Store.view S.Store.recovers it.store first.tree last.tree (holds clean) };

    ghost holds_second = { λ it first last holds clean. may_hold_last S.Store.view S.Store.recovers it.store first.tree last.tree (holds clean) };
}

//! Laws of the definitions. These functions do nothing: whoever calls one has its clauses for a proof.
ghost use Rattle.std.specs.Prelude.{◌≡◌, ◌++◌, ℕ, false, List, Option, Some, map, slice_get, slice_set};
ghost use Rattle.osc_model.specs.Tree.{Tree as AnyTree};
ghost use Rattle.osc_model.specs.StepNotes.{StepNotes as Noted};
ghost use Rattle.osc_model.specs.declared.node.Moment.{Moment as AnyMoment};
ghost use Rattle.osc_model.specs.declared.step.Datagram.{Datagram as AnyDatagram};
ghost use Rattle.osc_model.specs.declared.step.Step.{Step as AnyStep};
ghost use Rattle.sqlite_store.specs.FileStore.{recovers, state, view};
ghost use Rattle.sqlite_store.specs.declared.store.FileStore.{FileStore};
ghost use Rattle.sqlite_wal.specs.Recovery.{Image};
ghost use Rattle.osc_store.specs.{FindsTree, Keeps, MayHold};
ghost use Rattle.osc_run.specs.{Cause, ClientStep, IsReached, ProxyStep, ServerStep, by_client, by_proxy, by_server, moment_of};
ghost use Rattle.osc_run.specs.States.{ClientState, ServerState, WorldState};
ghost use Rattle.osc_run.specs.Premise.{Premise};
ghost use Rattle.osc_run.specs.OneHistory.{OneHistory};
ghost use Rattle.osc_turn.specs.Kept.Changes.{IsChangeOf};
ghost use Rattle.osc_turn.specs.Kept.Lives.{Cut, IsLived, ServerSteps, StartsOver};
ghost use Rattle.osc_turn.specs.Kept.Turns.{Stands};
ghost use Rattle.osc_turn.specs.Ports.{Received};
ghost use Rattle.osc_turn.specs.Running.{Made, Running, TakesTurn, TakesTurns};
ghost use Rattle.osc_turn.specs.Runs.{AreSteps, noted_by};

use osc_ccm::Ciphers;
use osc_model::laws::paths_are_ordered;
use osc_run::Node;
use osc_run::laws::one_history;
use sqlite_disk::Disk;

/// A step of a server changes what the path of the request that it served has, and nothing else.
pub fn one_path_changes()
    ensures { (old new : ServerState) (now : AnyMoment) (notes : Noted) → ServerStep old now notes new → IsChangeOf notes.served old.tree new.tree }
{
    paths_are_ordered();
}

/// Over all lives of a server there is one history: whenever the power goes in a turn, the world goes on as one of the runs of `osc_run`, in which
/// the server started again, and which has the turn's steps unless nothing of them was sent and they aren't found. So what holds of every run holds of
/// all lives together.
pub fn lives_are_one_run()
    ensures starts { (old : WorldState) (cut : Cut old.server) → (new : WorldState) × (over : StartsOver old new) × (over.cut ≡ cut) }
    ensures reached { (w : WorldState) → IsLived w → IsReached w }
    ensures one_history { (w : WorldState) → IsLived w → Premise w.minted w.notes → OneHistory w }
{
    one_history();
}

/// What the next start finds is as a cut says: where the power goes in a turn of a server over a store, a crash may leave these files, and they
/// are found as this tree, then the turn was cut so. (That a start finds the tree of the files, and keeps it from then on, is the contract of
/// `osc_store::open_files`.)
pub fn cuts_are_found<D: Disk>()
    ensures { (it : FileStore D D.Disk) (old new : ServerState) (now : AnyMoment) (steps : List AnyStep) (sent : List AnyDatagram) (left : Image) (found : AnyTree)
        → ServerSteps now old steps new
        → Stands (λ store server. Keeps view recovers store server.tree) (λ store before after. MayHold view recovers store before.tree after.tree) old new it sent
        → (state it).may_leave left → FindsTree left found
        → ∥ ((cut : Cut old) × (cut.steps ≡ steps) × (cut.sent ≡ sent) × (cut.found ≡ found)) ∥₁ }
{
    osc_store::laws::starts_go_on::<D>();
    osc_store::laws::files_hold_one_tree();
}

/// What any number of turns of a node are is a list of its steps, and so is each beginning of it. The steps of a server, of a client and of a proxy
/// lead a run of `osc_run` on, so what holds of every run holds after them.
pub fn turns_are_runs<A: Ciphers, N: Node<A>>()
    ensures turn { (old new : Running N) (made : List Made) (lost : Option Received) → TakesTurn N.acts N.is_step old made lost new
        → AreSteps N.is_step old.node made new.node }
    ensures turns { (n : ℕ) (first last : Running N) (made : List Made) → TakesTurns N.acts N.is_step n first made last
        → AreSteps N.is_step first.node made last.node }
    ensures beginning { (first last : N) (before rest : List Made) → AreSteps N.is_step first (before ++ rest) last
        → (between : N) × AreSteps N.is_step first before between × AreSteps N.is_step between rest last }
    ensures server { (core : N → ServerState)
        → ((old new : N) (cause : Cause) (step : AnyStep) → N.is_step old cause step new → ServerStep (core old) (moment_of cause) step.notes (core new))
        → (first last : N) (made : List Made) → AreSteps N.is_step first made last → (w : WorldState) → w.server ≡ core first → IsReached w
        → IsReached (record w { server = core last; notes = noted_by by_server made ++ w.notes }) }
    ensures client { (core : N → ClientState)
        → ((old new : N) (cause : Cause) (step : AnyStep) → N.is_step old cause step new → ClientStep false (core old) step.notes (core new))
        → (first last : N) (made : List Made) → AreSteps N.is_step first made last → (w : WorldState) (by : ℕ) → slice_get w.clients by ≡ Some (core first) → IsReached w
        → IsReached (record w { clients = slice_set w.clients by (core last); notes = noted_by (by_client by false) made ++ w.notes }) }
    ensures proxy { ((old new : N) (cause : Cause) (step : AnyStep) → N.is_step old cause step new → ProxyStep step.notes)
        → (first last : N) (made : List Made) → AreSteps N.is_step first made last → (w : WorldState) (by : ℕ) → IsReached w
        → IsReached (record w { notes = noted_by (by_proxy by) made ++ w.notes }) }
    ensures cut { (core : N → ServerState)
        → ((old new : N) (cause : Cause) (step : AnyStep) → N.is_step old cause step new → ServerStep (core old) (moment_of cause) step.notes (core new))
        → (old new : Running N) (made : List Made) (lost : Option Received) → (turn : TakesTurn N.acts N.is_step old made lost new)
        → ServerSteps turn.now (core old.node) (map (λ one. one.step) made) (core new.node) }
{}

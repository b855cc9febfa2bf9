//! The tokens that the settings of a server revoke at each start.
ghost use Rattle.std.specs.FinMap as map;
ghost use Rattle.std.specs.Prelude.{◌≡◌, ◌≤◌, ◌<◌, [], List, ℕ, IfErr, IfOk, None, OnOk, Some, option_copied, true};
ghost use Rattle.osc_model.specs.{is_revoked, most_resources};
ghost use Rattle.osc_model.specs.Tree.{Tree as AnyTree};
ghost use Rattle.osc_server.specs.State.{State as AnyServer};
ghost use Rattle.osc_store.specs.{changed};
ghost use Rattle.osc_store.specs.Causes.{WhyNotKept};
ghost use Rattle.sqlite_disk.specs.Disk.{MoreFaults};
ghost use Rattle.osc_programs.specs.Kept.{HasCause, LeavesKept};
ghost use Rattle.osc_programs.specs.Ended as ends;
ghost use Rattle.osc_programs.specs.Revoking as spec;

use crate::ended::Ended;
use osc_ccm::Suite;
use osc_model::laws::paths_are_ordered;
use osc_model::{Bytes, Path, Resource, revoked_path};
use osc_server::Server;
use osc_store::{Forgetful, KeepError};
use osc_tree::Tree;
use osc_turn::KeepsSteps;
use osc_words::ServerSettings;
use std::alloc::{AllocError, Global};
use std::io::Eprint;

/// What keeps the steps of a server, what its resources are given before the first, and, after the last, all that was kept in one place.
pub trait KeepsServer: KeepsSteps<Suite, Server> {
    /// Keeps what the path has from now on, or that it has nothing.
    fn keep_start(&mut self, path: &Path, resource: Option<&Resource>) -> Result<(), KeepError>
        ensures kept { (before after : AnyServer) → after.tree ≡ changed before.tree path.now (option_copied resource.entry)
            → Self.keeps self.old before → OnOk result (Self.keeps self.new after) }
        ensures crash { (before after : AnyServer) → after.tree ≡ changed before.tree path.now (option_copied resource.entry)
            → Self.keeps self.old before → Self.may_hold self.new before after }
        ensures cause { (before after : AnyServer) → after.tree ≡ changed before.tree path.now (option_copied resource.entry)
            → Self.keeps self.old before → Self.trusted self.new
            → IfErr result (WhyNotKept (MoreFaults (Self.faults self.old) (Self.faults self.new)) (Self.too_long after)) }
        ensures counts { Self.faults self.old ≤ Self.faults self.new }
        ensures trust { Self.trusted self.new → Self.trusted self.old }
        ensures file { Self.file self.new ≡ Self.file self.old };

    /// Puts all that was kept where it is kept alone, after the last step.
    fn keep_end(&mut self) -> Result<(), KeepError>
        ensures kept { (server : AnyServer) → Self.keeps self.old server → OnOk result (Self.keeps self.new server) }
        ensures crash { (server : AnyServer) → Self.keeps self.old server → Self.may_hold self.new server server }
        ensures cause { (server : AnyServer) → Self.keeps self.old server → Self.trusted self.new
            → IfErr result (WhyNotKept (MoreFaults (Self.faults self.old) (Self.faults self.new)) ⊥) }
        ensures counts { Self.faults self.old ≤ Self.faults self.new }
        ensures trust { Self.trusted self.new → Self.trusted self.old }
        ensures file { Self.file self.new ≡ Self.file self.old };

    // Of a server its resources are kept, and nothing else.
    ghost keeps_tree: { (it : Self) (one other : AnyServer) → one.tree ≡ other.tree → Self.keeps it one → Self.keeps it other };

    ghost holds_trees: { (it : Self) (before one after other : AnyServer) → before.tree ≡ one.tree → after.tree ≡ other.tree
        → Self.may_hold it before after → Self.may_hold it one other };
}

impl KeepsServer for Forgetful {
    fn keep_start(&mut self, _path: &Path, _resource: Option<&Resource>) -> Result<(), KeepError> {
        Ok(())
    }

    fn keep_end(&mut self) -> Result<(), KeepError> {
        Ok(())
    }

    ghost keeps_tree = { λ it one other same keeps. tt };

    ghost holds_trees = { λ it before one after other same too holds. tt };
}

/// Revokes the tokens of the ids in these settings, by an empty resource for each where there is none, and has each kept. A line on the standard
/// error tells it where there is no room for one.
pub(crate) fn revoke_at_start<R: Eprint, K: KeepsServer>(
    alloc: Global,
    runtime: &R,
    keeper: &mut K,
    tree: &mut Tree,
    settings: &ServerSettings,
) -> Result<(), Ended>
    ensures tree { OnOk result (tree.new ≡ spec.with_revoked settings.now.revoked settings.now.revoked_ids.items tree.old) }
    ensures revoked { OnOk result (spec.AreRevoked settings.now.revoked tree.new settings.now.revoked_ids.items) }
    ensures kept { spec.KeepsTree K.keeps keeper.old tree.old → OnOk result (spec.KeepsTree K.keeps keeper.new tree.new) }
    ensures stops { IfErr result (λ ended. (before after : AnyTree) × spec.Stops settings.now.revoked settings.now.revoked_ids.items tree.old ended before after
        × (spec.KeepsTree K.keeps keeper.old tree.old → LeavesKept (spec.KeepsTree K.keeps) (spec.MayHoldTree K.may_hold) ended before after keeper.new
        × HasCause K.trusted K.faults (spec.IsTooLongIn K.too_long after) keeper.old keeper.new ended)) }
    ensures counts { K.faults keeper.old ≤ K.faults keeper.new }
    ensures trust { K.trusted keeper.new → K.trusted keeper.old }
    ensures file { K.file keeper.new ≡ K.file keeper.old }
    ensures ends { IfErr result ends.EndsUnkept }
{
    match revoke_all(
        alloc,
        keeper,
        tree,
        &settings.revoked,
        &settings.revoked_ids,
    ) {
        Ok(()) => Ok(()),
        Err(ended) => {
            tell_no_room(runtime, ended);
            Err(ended)
        }
    }
}

// Tells that there was no room for one, where that ended it.
fn tell_no_room<R: Eprint>(runtime: &R, ended: Ended) {
    if ended == Ended::Failed {
        let _told = runtime.eprintln(NO_ROOM);
    }
}

// What is told where an id of the settings can't be revoked.
const NO_ROOM: &str = "revoked_ids: no room for one of them: there are 1024 resources";

fn revoke_all<K: KeepsServer>(
    alloc: Global,
    keeper: &mut K,
    tree: &mut Tree,
    root: &Option<Path>,
    ids: &[Bytes],
) -> Result<(), Ended>
    ensures tree { OnOk result (tree.new ≡ spec.with_revoked root.now ids.now tree.old) }
    ensures revoked { OnOk result (spec.AreRevoked root.now tree.new ids.now) }
    ensures kept { spec.KeepsTree K.keeps keeper.old tree.old → OnOk result (spec.KeepsTree K.keeps keeper.new tree.new) }
    ensures stops { IfErr result (λ ended. (before after : AnyTree) × spec.Stops root.now ids.now tree.old ended before after
        × (spec.KeepsTree K.keeps keeper.old tree.old → LeavesKept (spec.KeepsTree K.keeps) (spec.MayHoldTree K.may_hold) ended before after keeper.new
        × HasCause K.trusted K.faults (spec.IsTooLongIn K.too_long after) keeper.old keeper.new ended)) }
    ensures counts { K.faults keeper.old ≤ K.faults keeper.new }
    ensures trust { K.trusted keeper.new → K.trusted keeper.old }
    ensures file { K.file keeper.new ≡ K.file keeper.old }
    ensures ends { IfErr result ends.EndsUnkept }
{
    for id in ids {
        match revoke(alloc, keeper, tree, root, id) {
            Ok(()) => {}
            Err(ended) => return Err(ended),
        }
    }
    Ok(())
}

fn revoke<K: KeepsServer>(
    alloc: Global,
    keeper: &mut K,
    tree: &mut Tree,
    root: &Option<Path>,
    id: &Bytes,
) -> Result<(), Ended>
    ensures tree { OnOk result (tree.new ≡ spec.with_revoked_id root.now tree.old id.now) }
    ensures revoked { OnOk result (is_revoked root.now tree.new id.now ≡ true) }
    ensures stay { (other : List ℕ) → is_revoked root.now tree.old other ≡ true
        → OnOk result (is_revoked root.now tree.new other ≡ true) }
    ensures kept { spec.KeepsTree K.keeps keeper.old tree.old → OnOk result (spec.KeepsTree K.keeps keeper.new tree.new) }
    ensures left { IfErr result (λ ended. spec.KeepsTree K.keeps keeper.old tree.old → LeavesKept (spec.KeepsTree K.keeps) (spec.MayHoldTree K.may_hold) ended tree.old
        (spec.under_way ended tree.old (spec.with_revoked_id root.now tree.old id.now)) keeper.new) }
    ensures cause { IfErr result (λ ended. spec.KeepsTree K.keeps keeper.old tree.old
        → HasCause K.trusted K.faults (spec.IsTooLongIn K.too_long (spec.with_revoked_id root.now tree.old id.now)) keeper.old keeper.new ended) }
    ensures counts { K.faults keeper.old ≤ K.faults keeper.new }
    ensures trust { K.trusted keeper.new → K.trusted keeper.old }
    ensures file { K.file keeper.new ≡ K.file keeper.old }
    ensures ends { IfErr result ends.EndsUnkept }
{
    // Settings have ids that make a path, and a revocation path where they have ids.
    let Some(root) = root else {
        return Err(Ended::Failed);
    };
    match revoked_path(alloc, root, id.as_slice()) {
        Ok(Some(path)) => place(alloc, keeper, tree, &path),
        Ok(None) => Err(Ended::Failed),
        Err(_) => Err(Ended::OutOfMemory),
    }
}

// An empty resource at the path, if nothing is there.
fn place<K: KeepsServer>(
    alloc: Global,
    keeper: &mut K,
    tree: &mut Tree,
    path: &Path,
) -> Result<(), Ended>
    ensures tree { OnOk result (tree.new ≡ spec.with_place tree.old path.now) }
    ensures there { OnOk result (map.contains_key tree.new path.now ≡ true) }
    ensures stay { (other : List ℕ) → map.contains_key tree.old other ≡ true → OnOk result (map.contains_key tree.new other ≡ true) }
    ensures kept { spec.KeepsTree K.keeps keeper.old tree.old → OnOk result (spec.KeepsTree K.keeps keeper.new tree.new) }
    ensures left { IfErr result (λ ended. spec.KeepsTree K.keeps keeper.old tree.old → LeavesKept (spec.KeepsTree K.keeps) (spec.MayHoldTree K.may_hold) ended tree.old
        (spec.under_way ended tree.old (spec.with_place tree.old path.now)) keeper.new) }
    ensures cause { IfErr result (λ ended. spec.KeepsTree K.keeps keeper.old tree.old
        → HasCause K.trusted K.faults (spec.IsTooLongIn K.too_long (spec.with_place tree.old path.now)) keeper.old keeper.new ended) }
    ensures counts { K.faults keeper.old ≤ K.faults keeper.new }
    ensures trust { K.trusted keeper.new → K.trusted keeper.old }
    ensures file { K.file keeper.new ≡ K.file keeper.old }
    ensures ends { IfErr result ends.EndsUnkept }
{
    paths_are_ordered();
    if tree.get(path).is_some() {
        return Ok(());
    }
    if tree.is_full() {
        return Err(Ended::Failed);
    }
    match put_empty(alloc, tree, path) {
        Ok(()) => keep_place(keeper, tree, path),
        Err(_) => Err(Ended::OutOfMemory),
    }
}

fn put_empty(alloc: Global, tree: &mut Tree, path: &Path) -> Result<(), AllocError>
    requires { map.len tree.old < most_resources }
    ensures { OnOk result (tree.new ≡ map.insert tree.old path.now (record { format = None; payload = [] })) }
{
    let empty = Resource {
        format: None,
        payload: Bytes::new(alloc),
    };
    tree.put(alloc, path.clone()?, empty)
}

// Keeps what the path has in this tree.
fn keep_place<K: KeepsServer>(keeper: &mut K, tree: &Tree, path: &Path) -> Result<(), Ended>
    ensures kept { (before : AnyTree) → tree.now ≡ changed before path.now (map.get tree.now path.now)
        → spec.KeepsTree K.keeps keeper.old before → OnOk result (spec.KeepsTree K.keeps keeper.new tree.now) }
    ensures left { (before : AnyTree) → tree.now ≡ changed before path.now (map.get tree.now path.now)
        → spec.KeepsTree K.keeps keeper.old before → IfErr result (λ ended. LeavesKept (spec.KeepsTree K.keeps) (spec.MayHoldTree K.may_hold) ended before tree.now keeper.new) }
    ensures cause { (before : AnyTree) → tree.now ≡ changed before path.now (map.get tree.now path.now)
        → spec.KeepsTree K.keeps keeper.old before → IfErr result (HasCause K.trusted K.faults (spec.IsTooLongIn K.too_long tree.now) keeper.old keeper.new) }
    ensures counts { K.faults keeper.old ≤ K.faults keeper.new }
    ensures trust { K.trusted keeper.new → K.trusted keeper.old }
    ensures file { K.file keeper.new ≡ K.file keeper.old }
    ensures not_kept { IfErr result ends.IsNotKept }
{
    match keeper.keep_start(path, tree.get(path)) {
        Ok(()) => Ok(()),
        Err(error) => Err(Ended::NotKept(error)),
    }
}

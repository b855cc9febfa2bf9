//! A server whose changes are kept, in a store or nowhere.
ghost use Rattle.std.specs.Prelude.{◌≡◌, ◌≤◌, ◌⊎◌, None, List};
ghost use Rattle.osc_model.specs.Tree.{Tree as AnyTree};
ghost use Rattle.osc_server.specs.{IsStep, acts};
ghost use Rattle.osc_server.specs.State.{State as AnyServer};
ghost use Rattle.osc_simulation.specs.{is_sealing};
ghost use Rattle.osc_log.specs.{Event, Tells};
ghost use Rattle.osc_programs.specs.Ended as ends;
ghost use Rattle.osc_programs.specs.Holding.{server_held};
ghost use Rattle.osc_programs.specs.Kept.{HasCause, LeavesKept};
ghost use Rattle.osc_programs.specs.Revoking.{IsTooLongIn, KeepsTree, MayHoldTree};
ghost use Rattle.osc_programs.specs.Serving as spec;
ghost use Rattle.osc_programs.specs.Turning as turning;

use crate::ended::Ended;
use crate::revoking::{KeepsServer, revoke_at_start};
use crate::running::{run, server_with};
use crate::udp::Sockets;
use osc_log::Log;
use osc_log::laws::telling_goes_on;
use osc_model::Peer;
use osc_server::Server;
use osc_tree::Tree;
use osc_turn::{KeptNode, Seeds};
use osc_words::ServerSettings;
use std::alloc::Global;
use std::io::Eprint;
use std::time::Clock;

/// Runs a server with these settings and these resources, of which this keeps the changes, and after its turns the whole. The tokens of the ids in the
/// settings are revoked before its first turn. How it ended, and what keeps its changes.
pub(crate) fn serve_stored<R: Clock + Eprint + Seeds + Sockets, K: KeepsServer + Drop, L: Log>(
    alloc: Global,
    runtime: &R,
    settings: ServerSettings,
    stored: (K, Tree),
    log: &mut L,
    turns: u64,
) -> (Ended, K)
    ensures lives { (events : List Event) × (before after : AnyTree)
        × spec.Lives (R.gave runtime.now) (R.opened runtime.now) R.Socket.received R.Socket.sent settings stored.1 turns result.0 events before after
        × Tells (L.told log.old) (L.told log.new) events
        × (KeepsTree K.keeps stored.0 stored.1 → LeavesKept (KeepsTree K.keeps) (MayHoldTree K.may_hold) result.0 before after result.1
        × HasCause K.trusted K.faults (IsTooLongIn K.too_long after) stored.0 result.1 result.0) }
    ensures file { K.file result.1 ≡ K.file stored.0 }
    ensures ends { ends.EndsKept result.0 }
{
    telling_goes_on();
    let (mut keeper, mut tree) = stored;
    match revoke_at_start(alloc, runtime, &mut keeper, &mut tree, &settings) {
        Ok(()) => match server_with(alloc, settings, tree) {
            Ok((node, bind)) => {
                let kept = KeptNode { node, keeper };
                serve_kept(alloc, runtime, &bind, kept, log, turns)
            }
            Err(_) => (Ended::OutOfMemory, keeper),
        },
        Err(ended) => (ended, keeper),
    }
}

// The turns of a server at these addresses, and then what was kept is put where it is kept alone.
fn serve_kept<R: Clock + Eprint + Seeds + Sockets, K: KeepsServer + Drop, L: Log>(
    alloc: Global,
    runtime: &R,
    bind: &[Peer],
    kept: KeptNode<Server, K>,
    log: &mut L,
    turns: u64,
) -> (Ended, K)
    ensures ran { (events : List Event) × (before after : AnyServer)
        × turning.Ran (R.gave runtime.now) (R.opened runtime.now bind.now None) R.Socket.received R.Socket.sent acts (IsStep is_sealing) server_held turns kept.node
        result.0 events before after
        × Tells (L.told log.old) (L.told log.new) events
        × (K.keeps kept.keeper kept.node → LeavesKept K.keeps K.may_hold result.0 before after result.1
        × HasCause K.trusted K.faults (K.too_long after) kept.keeper result.1 result.0) }
    ensures counts { K.faults kept.keeper ≤ K.faults result.1 }
    ensures trust { K.trusted result.1 → K.trusted kept.keeper }
    ensures file { K.file result.1 ≡ K.file kept.keeper }
    ensures ends { ends.EndsKept result.0 }
{
    let mut kept = kept;
    match run(alloc, runtime, bind, &mut kept, log, turns) {
        Ended::Done => end_whole(keeper_of(kept)),
        ended => (ended, keeper_of(kept)),
    }
}

fn keeper_of<K: KeepsServer + Drop>(kept: KeptNode<Server, K>) -> K
    ensures { result ≡ kept.keeper }
{
    let KeptNode { node: _, keeper } = kept;
    keeper
}

// All turns were taken: what was kept is put where it is kept alone.
fn end_whole<K: KeepsServer>(keeper: K) -> (Ended, K)
    ensures over { (result.0 ≡ Ended.Done) ⊎ ends.IsNotKept result.0 }
    ensures kept { (server : AnyServer) → K.keeps keeper server → LeavesKept K.keeps K.may_hold result.0 server server result.1 }
    ensures cause { (server : AnyServer) → K.keeps keeper server → HasCause K.trusted K.faults ⊥ keeper result.1 result.0 }
    ensures counts { K.faults keeper ≤ K.faults result.1 }
    ensures trust { K.trusted result.1 → K.trusted keeper }
    ensures file { K.file result.1 ≡ K.file keeper }
{
    let mut keeper = keeper;
    match keeper.keep_end() {
        Ok(()) => (Ended::Done, keeper),
        Err(error) => (Ended::NotKept(error), keeper),
    }
}

//! What keeps the changes of a server, by what is supposed of its disk.
ghost use Rattle.std.specs.Prelude.{◌⊎◌, ⊤};
ghost use Rattle.osc_programs.specs.Inner.ByDisk as spec;

use crate::revoking::KeepsServer;
use osc_ccm::Suite;
use osc_model::{Path, Resource, StepNotes};
use osc_server::Server;
use osc_store::KeepError;
use osc_turn::KeepsSteps;

/// What keeps the changes of a server on a disk of which nothing is supposed, or on one that writes each sector whole.
#[derive(Drop)]
pub enum ByDisk<A, W> {
    /// Nothing is supposed of it.
    Any(A),
    /// It writes each sector whole.
    WholeSectors(W),
}

impl<A: KeepsServer, W: KeepsServer> KeepsSteps<Suite, Server> for ByDisk<A, W> {
    ghost keeps = { λ it node. spec.Holds (λ any. A.keeps any node) (λ whole. W.keeps whole node) it };

    ghost writes = { λ it first last. spec.Holds (λ any. A.writes any first last) (λ whole. W.writes whole first last) it };

    ghost may_hold = { λ it before after. spec.Holds (λ any. A.may_hold any before after) (λ whole. W.may_hold whole before after) it };

    ghost pending = { λ it. spec.value A.pending W.pending it };

    ghost owes = { λ it. spec.value A.owes W.owes it };

    ghost may_fail = { ⊤ };

    ghost faults = { λ it. spec.value A.faults W.faults it };

    ghost trusted = { λ it. spec.Holds A.trusted W.trusted it };

    ghost names = { λ it error. spec.Holds (λ any. A.names any error) (λ whole. W.names whole error) it };

    ghost too_long = { λ node. A.too_long node ⊎ W.too_long node };

    ghost file = { λ it. spec.value A.file W.file it };

    fn write_step(&mut self, node: &Server, notes: &StepNotes) -> Result<(), KeepError> {
        match self {
            ByDisk::Any(keeper) => keeper.write_step(node, notes),
            ByDisk::WholeSectors(keeper) => keeper.write_step(node, notes),
        }
    }

    fn commit(&mut self) -> Result<(), KeepError> {
        match self {
            ByDisk::Any(keeper) => keeper.commit(),
            ByDisk::WholeSectors(keeper) => keeper.commit(),
        }
    }

    fn rest(&mut self) -> Result<(), KeepError> {
        match self {
            ByDisk::Any(keeper) => keeper.rest(),
            ByDisk::WholeSectors(keeper) => keeper.rest(),
        }
    }

    ghost writes_first = { λ it node. spec.each (λ it. spec.Holds (λ any. A.keeps any node) (λ whole. W.keeps whole node) it
        → spec.Holds (λ any. A.writes any node node) (λ whole. W.writes whole node node) it) (λ any. A.writes_first any node) (λ whole. W.writes_first whole node) it };

    ghost holds_first = { λ it first last. spec.each (λ it. spec.Holds (λ any. A.keeps any first) (λ whole. W.keeps whole first) it
        → spec.Holds (λ any. A.may_hold any first last) (λ whole. W.may_hold whole first last) it) (λ any. A.holds_first any first last) (λ whole. W.holds_first whole first last) it };

    ghost holds_either = { λ it first last. spec.each (λ it. spec.Holds (λ any. A.may_hold any first first) (λ whole. W.may_hold whole first first) it
        → spec.Holds (λ any. A.may_hold any first last) (λ whole. W.may_hold whole first last) it) (λ any. A.holds_either any first last) (λ whole. W.holds_either whole first last) it };

    ghost holds_second = { λ it first last. spec.each (λ it. spec.Holds (λ any. A.may_hold any last last) (λ whole. W.may_hold whole last last) it
        → spec.Holds (λ any. A.may_hold any first last) (λ whole. W.may_hold whole first last) it) (λ any. A.holds_second any first last) (λ whole. W.holds_second whole first last) it };
}

impl<A: KeepsServer, W: KeepsServer> KeepsServer for ByDisk<A, W> {
    fn keep_start(&mut self, path: &Path, resource: Option<&Resource>) -> Result<(), KeepError> {
        match self {
            ByDisk::Any(keeper) => keeper.keep_start(path, resource),
            ByDisk::WholeSectors(keeper) => keeper.keep_start(path, resource),
        }
    }

    fn keep_end(&mut self) -> Result<(), KeepError> {
        match self {
            ByDisk::Any(keeper) => keeper.keep_end(),
            ByDisk::WholeSectors(keeper) => keeper.keep_end(),
        }
    }

    ghost keeps_tree = { λ it one other same. spec.each (λ it. spec.Holds (λ any. A.keeps any one) (λ whole. W.keeps whole one) it
        → spec.Holds (λ any. A.keeps any other) (λ whole. W.keeps whole other) it) (λ any. A.keeps_tree any one other same) (λ whole. W.keeps_tree whole one other same) it };

    ghost holds_trees = { λ it before one after other same too. spec.each (λ it. spec.Holds (λ any. A.may_hold any before after) (λ whole. W.may_hold whole before after) it
        → spec.Holds (λ any. A.may_hold any one other) (λ whole. W.may_hold whole one other) it)
        (λ any. A.holds_trees any before one after other same too) (λ whole. W.holds_trees whole before one after other same too) it };
}

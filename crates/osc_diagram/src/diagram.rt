//! The diagram of a script.
ghost use Rattle.std.specs.Prelude.{◌≡◌, ℕ, IfOk, Err};
ghost use Rattle.std.specs.FinMap as map;
ghost use Rattle.osc_script.specs.{IsFirstBad};
ghost use Rattle.osc_simulation.specs.{CanPutAll};
ghost use Rattle.osc_diagram.specs.Diagrams as spec;
ghost use Rattle.osc_diagram.specs.Diagrams.{IsDiagram, IsDiagramOf};

use crate::columns::columns_of;
use crate::keys::keys_of;
use crate::marks::marks_of;
use crate::play::{Played, play_lines};
use crate::{Column, Mark, met_columns};
use osc_model::Bytes;
use osc_script::{Line, ScriptError, read_script};
use osc_simulation::laws::a_script_fits;
use std::alloc::{AllocError, Global};

/// The run of a script: its nodes, from left to right, what happened, one below the other, and a line for each context that was used, with
/// its keys, as Wireshark reads them.
pub struct Diagram {
    pub columns: Vec<Column>,
    pub marks: Vec<Mark>,
    pub keys: Vec<Bytes>,
}

impl Drop for Diagram {
    fn drop(self) {
        let Diagram {
            columns: _,
            marks: _,
            keys: _,
        } = self;
    }
}

/// The diagram of the script of these bytes: line by line each event's datagrams once, in order, each after what was served and learnt at its
/// node. A datagram that never arrived is marked so. What isn't in the events is drawn before those of its line: a moment, a node that starts
/// again, a datagram that comes again, and one that is forged.
///
/// # Errors
///
/// `BadLine` has the number of the first line that means nothing.
pub fn diagram_of(alloc: Global, script: &[u8]) -> Result<Diagram, ScriptError>
    ensures diagram { IfOk result (IsDiagramOf script.now) }
    ensures bad { (n : ℕ) → result ≡ Err (ScriptError.BadLine n) → IsFirstBad script.now n }
{
    a_script_fits();
    let script = read_script(alloc, script)?;
    let diagram = drawn_diagram(alloc, script.lines())?;
    Ok(diagram)
}

// The diagram of these lines.
fn drawn_diagram(alloc: Global, lines: &[Line]) -> Result<Diagram, AllocError>
    requires { CanPutAll map.empty lines.now }
    ensures { IfOk result (IsDiagram lines.now) }
{
    let run = play_lines(alloc, lines)?;
    drawn(alloc, &run)
}

// What is drawn of a script that was done.
fn drawn(alloc: Global, run: &Played) -> Result<Diagram, AllocError>
    ensures { IfOk result (spec.Shows run.now) }
{
    let marks = marks_of(alloc, run)?;
    let all = columns_of(alloc, &run.names)?;
    let columns = met_columns(alloc, &all, &marks)?;
    let keys = keys_of(alloc, run.stage.world().steps())?;
    Ok(Diagram {
        columns,
        marks,
        keys,
    })
}

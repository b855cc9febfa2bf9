//! Laws of the definitions, for the crates above. These functions do nothing: whoever calls one has its clauses for
//! a proof.
ghost use Rattle.std.specs.Prelude.{ℕ, List};
ghost use Rattle.osc_model.specs.Tree.{Tree as AnyTree};
ghost use Rattle.osc_run.specs.OneHistory.{OneHistory};
ghost use Rattle.osc_run.specs.Premise.{Premise};
ghost use Rattle.osc_run.specs.{IsReached};
ghost use Rattle.osc_script.specs.declared.line.Line.{Line as AnyLine};
ghost use Rattle.osc_lab.specs.Lab.{run_of};
ghost use Rattle.osc_lab.specs.Network.{Network};
ghost use Rattle.osc_lab.specs.Telling.{Prints};
ghost use Rattle.osc_lab.specs.Turning.{Leads, LiveLab};

use osc_run::laws::one_history;
use osc_turn::Port;

/// What a lab's nodes note is a run's, where they began as one does: whatever the ports gave, so are all steps from there.
pub fn labs_are_runs<P: Port>()
    ensures led { (first : AnyTree) (net : Network P) (old new : LiveLab P) → Leads net old new → IsReached (run_of first old.lab) → IsReached (run_of first new.lab) }
    ensures printed { (net : Network P) (turns : ℕ) (lines : List AnyLine) (text : List ℕ) (old new : LiveLab P) → Prints net turns lines old text new → Leads net old new }
{}

/// Where a lab's last line tells that what is assumed held, its nodes have one history, if they began as a run does.
pub fn labs_have_one_history<P: Port>()
    ensures { (first : AnyTree) (net : Network P) (old new : LiveLab P) → Leads net old new → IsReached (run_of first old.lab) → Premise new.lab.minted new.lab.steps
        → OneHistory (run_of first new.lab) }
{
    one_history();
    labs_are_runs::<P>();
}

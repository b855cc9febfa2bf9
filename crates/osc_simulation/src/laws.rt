//! Laws of the definitions, for the crates above. These functions do nothing: whoever calls one has its clauses for
//! a proof.
ghost use Rattle.std.specs.Prelude.{ℕ, List};
ghost use Rattle.std.specs.FinMap as map;
ghost use Rattle.osc_script.specs.{IsScript};
ghost use Rattle.osc_script.specs.declared.line.Line.{Line};
ghost use Rattle.osc_simulation.specs.SetUp.{CanPutAll};

/// What a script puts fits into a tree that was empty before.
pub fn a_script_fits()
    ensures { (text : List ℕ) (lines : List Line) → IsScript text lines → CanPutAll map.empty lines }
{}

//! Where the draws of events come from.
ghost use Rattle.std.specs.Prelude.{◌≡◌, ℕ};
ghost use Rattle.osc_model.specs.declared.node.Draw.{Draw as AnyDraw};

use osc_model::Draw;

/// Random bytes for events, by the events' numbers: 32 for each, as the type of a draw says.
pub trait Draws {
    ghost drawn: { Self → ℕ → AnyDraw };

    /// The draw of the event of this number, from 0.
    fn draw(&self, event: usize) -> Draw
        ensures { result ≡ drawn self.now event };
}

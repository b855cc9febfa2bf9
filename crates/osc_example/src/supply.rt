//! What a program takes from its clock and its generator: here both are written out, so that it prints the same at each run.
ghost use Rattle.std.specs.Prelude.{◌≡◌, ◌+◌, ◌*◌, ◌%◌, ◌^◌};

use osc_model::{Draw, Moment};

/// When the program begins, in seconds since 1970: 15 January 2027, 8:00 UTC.
pub const BEGINNING: u64 = 1_800_000_000;

/// This number of seconds after the beginning. A real clock counts milliseconds since 1970, and what it gives may not fall.
pub fn at(second: u32) -> Moment
    ensures { result.ms ≡ 1000 * (1800000000 + second) }
{
    Moment {
        ms: 1_000 * (BEGINNING + second as u64),
    }
}

/// The draws of one node, none of which comes twice, here or at another node.
///
/// Whoever sees this counter knows them all. A real device takes, for each call, 32 new bytes of a generator that nobody can guess.
#[derive(Drop)]
pub struct Draws {
    node: u8,
    drawn: u32,
}

impl Draws {
    /// The draws of the node of this number.
    pub fn new(node: u8) -> Draws
        ensures node { result.node ≡ node }
        ensures drawn { result.drawn ≡ 0 }
    {
        Draws { node, drawn: 0 }
    }

    /// A new one: it counts on.
    pub fn draw(&mut self) -> Draw
        ensures counted { self.new.drawn ≡ (self.old.drawn + 1) % 2 ^ 32 }
        ensures node { self.new.node ≡ self.old.node }
    {
        self.drawn = self.drawn.wrapping_add(1);
        let n = self.node;
        let [a, b, c, d] = self.drawn.to_be_bytes();
        Draw([
            n, 0, 0, 0, a, b, c, d, n, 0, 0, 0, a, b, c, d, n, 0, 0, 0, a, b, c, d, n, 0, 0, 0, a,
            b, c, d,
        ])
    }
}

//! The draws of a simulation's events.
ghost use Rattle.std.specs.Prelude.{◌≡◌, ◌*◌, ◌%◌, ◌+◌};
ghost use Rattle.osc_simulation.specs.Draw as spec;

use osc_model::Draw;
use osc_world::Draws;

/// What a `draw` line gives: the first eight random bytes of the event that comes next.
#[derive(Clone, Copy, Debug, PartialEq, Eq)]
pub struct DrawnBefore {
    /// How many events were before it.
    pub event: usize,
    /// The bytes.
    pub first: [u8; 8],
}

/// The draws of a script's events: known bytes, so that a script has one trace, but for those that the last `draw` line gave.
#[derive(Clone, Copy, Debug)]
pub(crate) struct ScriptDraws(pub Option<DrawnBefore>);

impl Draws for ScriptDraws {
    ghost use Rattle.osc_simulation.specs.Draw as spec;

    ghost drawn = { λ draws before. spec.drawn draws.0 before };

    fn draw(&self, event: usize) -> Draw {
        let draw = draw_behind(event);
        match self.0 {
            Some(given) if given.event == event => beginning_with(given.first, draw),
            _ => draw,
        }
    }
}

/// What the event after `before` others is given as random bytes.
fn draw_behind(before: usize) -> Draw
    ensures { result ≡ spec.draw_of (before + 1) }
{
    draw_of((before as u64).wrapping_add(1))
}

/// What the event of this number is given.
fn draw_of(event: u64) -> Draw
    ensures { result ≡ spec.draw_of event }
{
    let mut bytes = [0; 32];
    bytes[..8].copy_from_slice(&event.to_be_bytes());
    bytes[8..16].copy_from_slice(&event.to_be_bytes());
    bytes[18..20].copy_from_slice(&low_bytes(event).to_be_bytes());
    Draw(bytes)
}

// 256 times the number, modulo 65536.
fn low_bytes(event: u64) -> u16
    ensures { result ≡ 256 * event % 65536 }
{
    (event % 256) as u16 * 256
}

// The draw with these first bytes in place of its own.
fn beginning_with(first: [u8; 8], draw: Draw) -> Draw
    ensures { result ≡ spec.beginning_with first draw }
{
    let mut bytes = draw.0;
    bytes[..8].copy_from_slice(&first);
    Draw(bytes)
}

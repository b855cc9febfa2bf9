//! The greatest accepted number and a bit for each number that the window spans.
ghost use Rattle.std.specs.Prelude.{◌≡◌, ◌↔◌, IsTrue, ◌<◌, ◌*◌, ◌%◌, ◌^◌, ℕ, List, []};
ghost use Rattle.std.specs.Int.{bit_at};
ghost use Rattle.osc_window.specs.Window.{width, IsFresh, with_accepted};

use std::marker::Model;

/// How many numbers the window spans, and so how many bits it has.
const WIDTH: u64 = 64;

/// Whether there is a bit `i`, and it isn't set.
#[tactic(auto, unfolding(crate::specs::Window::width))]
fn is_clear(bits: u64, i: u64) -> bool
    ensures { IsTrue result ↔ ((i < width) × (bit_at bits i ≡ 0)) }
{
    i < WIDTH && bits >> i & 1 == 0
}

/// Moves each bit up by some places: those past the last are gone.
#[tactic(auto, unfolding(crate::specs::Window::width))]
fn moved_up(bits: u64, places: u64) -> u64
    ensures { result ≡ bits * 2 ^ places % 2 ^ width }
{
    if places < WIDTH { bits << places } else { 0 }
}

/// The replay window of a context (RFC 8613 sections 3.2.2 and 7.4): which numbers were accepted, as far as that still
/// counts. Contracts see the rising list of the accepted numbers that are less than the width below the greatest.
///
/// It is kept as the greatest accepted number, and a bit for each of the 64 numbers up to it.
#[derive(Drop)]
pub struct Window {
    /// The greatest accepted number; 0 before any is accepted.
    greatest: u64,
    /// Bit i is set where the number i below the greatest was accepted; no bit is set before any number is accepted.
    bits: u64,
}

impl Model for Window {
    ghost use Rattle.std.specs.Prelude.{◌≡◌, ◌<◌, ℕ, List};
    ghost use Rattle.std.specs.Int.{bit_at};
    ghost use Rattle.osc_window.specs.Bitmap.{numbers_of};

    ghost Value = { List ℕ };

    ghost view = { λ window. numbers_of window.greatest window.bits };

    // A greatest number other than 0 was accepted.
    ghost invariant = { λ window. 0 < window.greatest → bit_at window.bits 0 ≡ 1 };
}

impl Window {
    /// The window of a new context: every number is fresh.
    pub fn new() -> Window
        ensures { result ≡ [] }
    {
        Window {
            greatest: 0,
            bits: 0,
        }
    }

    /// Whether a number may be accepted: it never was, and isn't too far below the greatest that was.
    pub fn is_fresh(&self, n: u64) -> bool
        ensures { IsTrue result ↔ IsFresh self.now n }
    {
        n > self.greatest || is_clear(self.bits, self.greatest - n)
    }

    /// Accepts a fresh number: it is fresh no more, nor is any that is too far below it.
    pub fn accept(&mut self, n: u64)
        requires { IsFresh self.old n }
        ensures { self.new ≡ with_accepted self.old n }
    {
        if n > self.greatest {
            self.bits = moved_up(self.bits, n - self.greatest) | 1;
            self.greatest = n;
        } else {
            self.bits |= 1 << (self.greatest - n);
        }
    }
}

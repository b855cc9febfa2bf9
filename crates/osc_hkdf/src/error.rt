//! Why no output is made.
ghost use Rattle.std.specs.Prelude.{◌≡◌};
ghost use Rattle.osc_model.specs.Refusals as refusal;

use osc_model::refusals;
use thiserror::Error;

/// More output was asked for than 255 blocks of 32 bytes (RFC 5869 section 2.3).
#[derive(Clone, Copy, Debug, PartialEq, Eq, Hash, Error)]
#[error("the output is longer than 8160 bytes")]
pub struct OutputTooLong;

impl OutputTooLong {
    /// The error's number, under which programs report it: 4.
    pub fn number(self) -> u8
        ensures { result ≡ refusal.output_too_long }
    {
        refusals::OUTPUT_TOO_LONG
    }
}

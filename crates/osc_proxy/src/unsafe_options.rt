//! Options that a proxy can't forward (RFC 7252 sections 5.4.2 and 5.7.1).
ghost use Rattle.std.specs.Prelude.{◌≡◌};
ghost use Rattle.osc_options.specs.Recognised as spec;

use osc_coap::MessageRef;
use osc_options::{is_recognised, is_unsafe};

/// Whether the message has an option that isn't recognised and is unsafe to forward. One of a length that the table of options
/// doesn't allow isn't recognised, nor is a second copy of one that doesn't repeat.
pub fn has_unrecognised_unsafe(message: &MessageRef<'_>) -> bool
    ensures { result ≡ spec.has_unrecognised_unsafe 0 message.now.options }
{
    let mut before = 0;
    for (number, value) in message.options() {
        if is_unsafe(number) && !is_recognised(before, number, value) {
            return true;
        }
        before = number;
    }
    false
}

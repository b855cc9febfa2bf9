//! The outcome of what a device begins.

use osc_model::Step;

/// The outcome of what the device began: the step that began it, the server's step for the datagram that it sent, and the device's for the
/// datagram that came back. A later one is missing where nothing was sent, and where memory ran out for it: then the datagram is lost, as it
/// may be on any way, and what was begun stays open until a tick sends it again.
#[derive(Debug, Drop)]
pub struct Round {
    /// What began it.
    pub begun: Step,
    /// What the server made of it.
    pub served: Option<Step>,
    /// What the device made of the answer.
    pub learnt: Option<Step>,
}

//! What a device draws for a request of its own.

use osc_model::Draw;

/// The draws of a device for a request of its own, which is a step of its client and one of its server.
#[derive(Clone, Copy, Debug)]
pub struct OwnDraws {
    /// For its client.
    pub own: Draw,
    /// For its server.
    pub server: Draw,
}

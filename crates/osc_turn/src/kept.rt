//! Turns of a node whose resources outlive a power cut: what a step changed is kept before anything of the step is sent. And what follows of it:
//! over all lives of a server, from one power cut to the next, there is one history.

mod batch;
mod changes;
mod error;
mod keeping;
pub mod laws;
mod making;
mod turning;

pub use batch::Batch;
pub use changes::{is_change, keep_change, write_change};
pub use error::Unsent;
pub use keeping::KeepsSteps;
pub use turning::{KeptNode, Taken, kept_turn};

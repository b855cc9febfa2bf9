//! Turns of a running node: a port takes what came, the node makes one step of it, and the port sends what the step sends. No socket is known
//! here: its contract says what a port is. The moment and the draw of each turn are handed in, and `ClockAndRandom` has both, by a clock and a generator.
//! Of a node whose resources outlive a power cut, what a step changed is kept before anything of the step is sent.
#![tactic(auto)]

mod behind;
mod clock_and_random;
mod error;
mod kept;
mod lead;
mod pace;
mod port;
mod seeds;
mod time;
pub mod time_laws;
mod turning;
mod watch;

pub use clock_and_random::{ClockAndRandom, generator_of};
pub use error::TurnError;
pub use kept::{
    Batch, KeepsSteps, KeptNode, Taken, Unsent, is_change, keep_change, kept_turn, laws,
    write_change,
};
pub use pace::{Pace, paced_step, paced_turn};
pub use port::{Port, PortFault};
pub use seeds::Seeds;
pub use turning::{Stepped, Turned, send_all, send_step, turn};
pub use watch::{Reading, SystemWatch, Watch, since_boot};

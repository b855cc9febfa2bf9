//! The simulation: a script's world, what each line does to it, and the trace that it prints, line by line. Nothing here reads or draws:
//! a script is bytes, and its trace goes to a writer.
#![tactic(auto)]

mod copies;
mod draw;
mod error;
mod happening;
pub mod laws;
mod lying;
mod names;
mod record;
mod set_up;
mod simulate;
mod stage;
mod trace;

pub use draw::DrawnBefore;
pub use error::TraceError;
pub use happening::{datagram_number, what_of};
pub use names::{Names, name_of_number, number_of};
pub use record::{learnt_text, sent_at, served_words, step_of};
pub use set_up::{first_world, start_of};
pub use simulate::trace_script;
pub use stage::Stage;
pub use trace::{TraceForm, bad_line_text, end_text};

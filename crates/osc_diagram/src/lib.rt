//! The run of a script as a diagram: its nodes as columns, its datagrams as arrows, what was served and learnt, and the keys of its contexts.
#![tactic(auto)]

mod chart;
mod columns;
mod diagram;
mod keys;
mod marks;
mod play;
mod scene;

pub use chart::{Arrow, Column, Mark, Way, capture, chart_text, key_line, met_columns, picture};
pub use diagram::{Diagram, diagram_of};

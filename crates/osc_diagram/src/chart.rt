//! Charts: who sent what to whom, as text and as a picture (SVG), the same as a capture for Wireshark, and the keys of its contexts. A
//! chart is a value, whoever makes it.

mod bytes;
mod chart;
mod columns;
mod drawing;
mod keys;
mod label;
mod pcap;
mod svg;
mod text;

pub use chart::{Arrow, Column, Mark, Way};
pub use columns::met_columns;
pub use keys::key_line;
pub use pcap::capture;
pub use svg::picture;
pub use text::chart_text;

//! CBOR (RFC 8949), in the subset that security objects need: integers, strings, arrays, maps, tags, false, true and null.
//!
//! What is read may come from strangers: heads of any width are taken, and equal keys, reserved bits, indefinite lengths,
//! floating-point numbers and deep nesting are refused. What is written has the shortest heads.
#![tactic(auto)]

mod error;
mod extents;
mod heads;
mod item;
mod keys;
pub mod laws;
mod lent;
mod lent_lists;
mod pass;
mod reader;
mod same;
mod tokens;
mod whole;
mod writer;

pub use error::ReadError;
pub use extents::extent;
pub use heads::{HEAD_LIMIT, Major, head};
pub use item::Item;
pub use lent::{ItemRef, first_value};
pub use lent_lists::{ItemRefs, PairRefs};
pub use reader::read;
pub use whole::{is_whole, is_whole_map};
pub use writer::write;

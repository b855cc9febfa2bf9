//! The tree of resources, and what a request does to it (RFC 7252 section 5.8).
#![tactic(auto)]

mod apply;
mod checks;
mod grant;
mod resources;
mod tagged;
mod tags;
mod tree;

pub use grant::Grant;
pub use osc_model::limits::{LONGEST_PAYLOAD, MOST_ELSEWHERE, MOST_RESOURCES};
pub use resources::Resources;
pub use tags::etag;
pub use tree::Tree;

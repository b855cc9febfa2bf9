//! The abstract machine: plain types of requests, replies and steps, and the definitions of what a request does
//! to a tree of resources under a scope, and of what a history of requests does (`specs/`).
#![tactic(auto)]

mod algorithm;
mod associated_data;
mod bytes;
mod code;
mod context;
mod etag;
pub mod laws;
pub mod limits;
mod node;
mod path;
pub mod refusals;
mod reply;
mod request;
mod resource;
mod revocation;
mod shared_bytes;
mod shared_name;
mod step;
mod step_notes;

pub use algorithm::Algorithm;
pub use associated_data::AssociatedData;
pub use bytes::Bytes;
pub use code::{Code, Method};
pub use context::{ContextName, Side};
pub use etag::{ETag, ETags};
pub use node::{Draw, Moment, Peer};
pub use path::Path;
pub use reply::Reply;
pub use request::Request;
pub use resource::Resource;
pub use revocation::revoked_path;
pub use shared_bytes::SharedBytes;
pub use shared_name::SharedName;
pub use step::{ClientResult, Datagram, Datagrams, Entry, Note, RefusedRequest, Step};
pub use step_notes::StepNotes;

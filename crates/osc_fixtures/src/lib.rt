//! What tests and benches are made of: who is where, grants and their tokens, requests and resources, and nodes. Its calls answer
//! `AllocError` for lack of memory, and for what isn't lawful, since nobody here asks for that.
#![tactic(auto)]

mod grants;
mod names;
mod nodes;
mod peers;
mod requests;
mod resources;

pub use grants::{GET_AND_POST, KEY, Right, claims, desk, iv_of, own, token};
pub use names::shared_name;
pub use nodes::{
    answering_server, client, empty_server, proxy, revoking_server, ruled_server, sent, sent_in,
    server, straight, target, targets, through,
};
pub use osc_model::limits::{GET, POST};
pub use peers::{CLIENT, NOWHERE, PROXY, SERVER, STRANGER, at, drawn, place};
pub use requests::{DELETE, PUT, request};
pub use resources::{EVERY_METHOD, put, scope_of};

//! A device: a resource server, and beside it the device itself, which holds a token and asks that server as any other client does. What it
//! says to its server goes through no socket: the datagrams are handed over by value, so each thing that the device does is a step of a client
//! and a step of a server, and what is promised of holders is promised of the device. With a store, its resources outlive a power cut.
#![tactic(auto)]

mod beginning;
mod calls;
mod device;
mod draws;
mod error;
mod kept;
pub mod laws;
mod own_token;
mod round;
mod ruling;
mod words;

pub use calls::{DeviceCalls, own_request};
pub use device::Device;
pub use draws::OwnDraws;
pub use error::{CallError, NewError};
pub use kept::KeptDevice;
pub use own_token::{OwnToken, ServerParts};
pub use round::Round;
pub use ruling::{Ruled, Ruling};
pub use words::{Holder, Refused, Served};

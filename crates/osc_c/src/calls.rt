//! Nodes by calls of plain numbers and bytes: each with the step that it made last, of which the datagrams are taken one by one.
mod arguments;
mod changes;
mod client;
mod device;
mod filling;
mod first;
mod granted;
mod keeping;
mod last;
mod making;
mod outcome;
mod own;
mod plain;
mod proxy;
mod requests;
mod results;
mod round;
mod serving;
mod setting;
mod tokens;

pub use client::ClientNode;
pub use device::DeviceNode;
pub use filling::{fill, fill_three, fill_two};
pub use keeping::{Keeping, KeptNode};
pub use last::Last;
pub use making::Rules;
pub use outcome::Outcome;
pub use plain::{
    PlainBytes, PlainChange, PlainClaims, PlainClientSettings, PlainDeviceSettings, PlainDraw,
    PlainDraws, PlainEtag, PlainId, PlainIv, PlainKey, PlainOptions, PlainPeer, PlainRefused,
    PlainRequest, PlainResource, PlainResult, PlainServed, PlainValue,
};
pub use proxy::{Forwarding, ProxyNode};
pub use round::Told;
pub use setting::Settings;
pub use tokens::{claims, mint};

//! Devices, clients and proxies for C: include/nozzlefern.h says each call.
#![tactic(auto)]

mod calls;
mod client;
mod device;
mod handle;
mod handles;
mod keeping;
mod own;
mod proxy;
mod serving;
mod token;

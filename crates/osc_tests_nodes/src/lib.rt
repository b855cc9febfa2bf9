//! Tests of ciphers, codecs, messages, contexts, rights, trees, nodes, turns and devices, by what callers see, that are no rows of `osc_rows`. They
//! are apart, so that a test that changes has no crate below proved again.
#![tactic(auto)]

#[cfg(test)]
mod aes;
#[cfg(test)]
mod authz;
#[cfg(test)]
mod cbor;
#[cfg(test)]
mod ccm;
#[cfg(test)]
mod client;
#[cfg(test)]
mod clocks;
#[cfg(test)]
mod coap;
#[cfg(test)]
mod context;
#[cfg(test)]
mod deadlines;
#[cfg(test)]
mod dedup;
#[cfg(test)]
mod device;
#[cfg(test)]
mod flooded;
#[cfg(test)]
mod forwarding;
#[cfg(test)]
mod hkdf;
#[cfg(test)]
mod lost_answer;
#[cfg(test)]
mod memory;
#[cfg(test)]
mod message;
#[cfg(test)]
mod network;
#[cfg(test)]
mod nodes;
#[cfg(test)]
mod options;
#[cfg(test)]
mod pacing;
#[cfg(test)]
mod peer;
#[cfg(test)]
mod premise;
#[cfg(test)]
mod protect;
#[cfg(test)]
mod protected;
#[cfg(test)]
mod proxy_uri;
#[cfg(test)]
mod queues;
#[cfg(test)]
mod readers;
#[cfg(test)]
mod reference;
#[cfg(test)]
mod revoking;
#[cfg(test)]
mod same;
#[cfg(test)]
mod served_again;
#[cfg(test)]
mod server;
#[cfg(test)]
mod serving;
#[cfg(test)]
mod stage;
#[cfg(test)]
mod steps;
#[cfg(test)]
mod sweep;
#[cfg(test)]
mod telling;
#[cfg(test)]
mod tokens;
#[cfg(test)]
mod tree;
#[cfg(test)]
mod waiting;

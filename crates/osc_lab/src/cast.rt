//! Who is who in a lab.

use crate::port::AddressMap;
use osc_script::ClientName;
use std::alloc::Global;

/// What the nodes of a lab share.
#[derive(Clone, Copy)]
pub(crate) struct Cast<'a> {
    /// The allocator.
    pub alloc: Global,
    /// The names of the clients, by their numbers.
    pub clients: &'a [ClientName],
    /// The socket of each node.
    pub addresses: &'a AddressMap,
}

/// A client of a lab.
#[derive(Clone, Copy)]
pub(crate) struct Who<'a> {
    /// What it shares with the others.
    pub cast: Cast<'a>,
    /// Its number, from 0.
    pub number: usize,
}

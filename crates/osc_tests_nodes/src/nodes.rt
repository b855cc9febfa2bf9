//! A client that reaches its server through a proxy, and the server.

use osc_client::Client;
use osc_fixtures::{GET_AND_POST, own, put, scope_of, through};
use osc_server::Server;
use osc_tree::Tree;
use std::alloc::{AllocError, Global};

/// A client that was granted GET and POST on `/log`, and reaches the server through the proxy, to which the server is `s`.
pub(crate) fn client(alloc: Global) -> Result<Client, AllocError> {
    let way = through(alloc, b"s", 5683)?;
    osc_fixtures::client(alloc, own(1, GET_AND_POST), way)
}

/// A server of `/e`, which has no bytes, and whose GET is open. It has no contexts.
pub(crate) fn server(alloc: Global) -> Result<Server, AllocError> {
    let mut tree = Tree::new(alloc);
    put(alloc, &mut tree, b"/e", b"")?;
    osc_fixtures::server(alloc, tree, scope_of(alloc, b"\x81\x82\x62/e\x01")?)
}

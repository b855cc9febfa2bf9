//! Clients, servers and proxies before their first event, and what a step sends.

use crate::grants::{KEY, Right, desk};
use crate::peers::{PROXY, SERVER};
use osc_authz::{ContextRules, DeskParts, ServerDesk};
use osc_client::{Client, Origin, Route};
use osc_model::{Bytes, Path, Peer, Step};
use osc_proxy::{Proxy, Target, Targets};
use osc_scope::Scope;
use osc_server::Server;
use osc_token::Audience;
use osc_tree::Tree;
use std::alloc::{AllocError, Global};

/// Straight to the server.
pub fn straight() -> Route {
    Route {
        next_hop: SERVER,
        origin: None,
    }
}

/// Through the proxy, to which the server is this host, at this port.
pub fn through(alloc: Global, host: &[u8], port: u16) -> Result<Route, AllocError> {
    let host = Bytes::from_slice(alloc, host)?;
    Ok(Route {
        next_hop: PROXY,
        origin: Origin::new(host, port),
    })
}

/// A client that was granted the token of this right.
pub fn client(alloc: Global, right: Right, way: Route) -> Result<Client, AllocError> {
    let desk = desk(alloc, right)?;
    Client::new(alloc, desk, way)
}

/// A server of these resources, on which what this scope has needs no protection. It has no contexts.
pub fn server(alloc: Global, tree: Tree, open_scope: Scope) -> Result<Server, AllocError> {
    let desk = ServerDesk::new(alloc, KEY, Audience::new(alloc, "s")?);
    Server::new(alloc, tree, desk, open_scope)
}

/// A server of these resources, with these rules for its contexts, of which it has none. Nothing is open.
pub fn ruled_server(alloc: Global, tree: Tree, rules: ContextRules) -> Result<Server, AllocError> {
    let desk = ServerDesk::of(
        alloc,
        DeskParts {
            key: KEY,
            old_key: None,
            audience: Audience::new(alloc, "s")?,
            rules,
        },
    );
    Server::new(alloc, tree, desk, Scope::new(alloc))
}

/// The same, on which a resource below this path revokes a token.
pub fn revoking_server(alloc: Global, tree: Tree, root: &[u8]) -> Result<Server, AllocError> {
    let rules = ContextRules {
        revoked: Path::from_text(alloc, root)?,
        ..ContextRules::none()
    };
    ruled_server(alloc, tree, rules)
}

/// A server without resources and contexts, which keeps the last answer of each context.
pub fn answering_server(alloc: Global) -> Result<Server, AllocError> {
    let rules = ContextRules {
        answers: true,
        ..ContextRules::none()
    };
    ruled_server(alloc, Tree::new(alloc), rules)
}

/// A server without resources and contexts.
pub fn empty_server(alloc: Global) -> Result<Server, AllocError> {
    server(alloc, Tree::new(alloc), Scope::new(alloc))
}

/// A target of this name, which is there.
pub fn target(alloc: Global, host: &[u8], port: u16, peer: Peer) -> Result<Target, AllocError> {
    let host = Bytes::from_slice(alloc, host)?;
    Ok(Target { host, port, peer })
}

/// The server alone, by the name `s` and port 5683.
pub fn targets(alloc: Global) -> Result<Targets, AllocError> {
    let mut targets = Targets::new(alloc);
    let server = target(alloc, b"s", 5683, SERVER)?;
    targets.push(server)?;
    Ok(targets)
}

/// A proxy that forwards to the server.
pub fn proxy(alloc: Global) -> Result<Proxy, AllocError> {
    let targets = targets(alloc)?;
    Proxy::new(alloc, targets)
}

/// The bytes of the one datagram that the step sends, or no bytes.
pub fn sent(step: &Step) -> &[u8] {
    match step.out.as_slice() {
        [datagram] => datagram.bytes.as_slice(),
        _ => b"",
    }
}

/// The bytes of the one datagram that the step sends, or no bytes; none either where the step or its copy lacks memory.
pub fn sent_in(alloc: Global, step: Result<Step, AllocError>) -> Vec<u8> {
    match step {
        Ok(step) => {
            let bytes = Vec::from_slice(alloc, sent(&step)).unwrap_or(Vec::new(alloc));
            drop(step);
            bytes
        }
        Err(_) => Vec::new(alloc),
    }
}

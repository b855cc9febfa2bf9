//! Why the program ends before its end.

use osc_authz::GrantError;
use osc_device::NewError;
use osc_scope::ScopeError;
use osc_token::MintError;
use std::alloc::AllocError;
use std::io;
use thiserror::Error;

/// What ends the program early: lack of memory, an output that fails, or a token, a device or a path that was written down wrong.
#[derive(Debug, Drop, Error)]
pub enum Fault {
    #[error("out of memory")]
    Memory(#[from(alloc)] AllocError),
    #[error("{0}")]
    Output(#[from] io::Error),
    #[error("there is no device: {0}")]
    Device(#[from] NewError),
    #[error("{0}")]
    Scope(#[from] ScopeError),
    #[error("{0}")]
    Mint(#[from] MintError),
    #[error("{0}")]
    Grant(#[from] GrantError),
    #[error("the text is no path")]
    Path,
}

//! Requests, and the codes of the four methods.
ghost use Rattle.std.specs.Prelude.{◌≡◌, IfOk};

use osc_model::{Bytes, Code, ETags, Path, Request};
use std::alloc::{AllocError, Global};

/// PUT.
pub const PUT: u8 = 3;

/// DELETE.
pub const DELETE: u8 = 4;

/// A request of this code on this path.
pub fn request(alloc: Global, path: &[u8], code: u8, payload: &[u8]) -> Result<Request, AllocError>
    ensures { IfOk result (λ request. request.code.0 ≡ code) }
{
    Ok(Request {
        code: Code(code),
        path: Path::from_text(alloc, path)?,
        format: None,
        accept: None,
        if_match: ETags::new(alloc),
        if_none_match: false,
        payload: Bytes::from_slice(alloc, payload)?,
    })
}

//! What the bytes of a plaintext are read as.
ghost use Rattle.std.specs.Prelude.{◌≡◌, ◌<◌, IfOk, IfErr};
ghost use Rattle.osc_options.specs.Texts.{read_request};

use crate::error::PlaintextError;
use crate::request::request_of;
use osc_coap::laws::reading;
use osc_model::{Code, Request};
use std::alloc::{AllocError, Global};

/// The request that an opened text is, or the code that answers it: 4.00 where it is no request, and 4.02 where an option can't be
/// accepted (RFC 8613 section 8.2, RFC 7252 section 5.4.1). Without memory an `AllocError`.
pub fn request_in(alloc: Global, text: &[u8]) -> Result<Result<Request, Code>, AllocError>
    ensures read { IfOk result (λ read. read ≡ read_request text.now) }
    ensures error { IfOk result (λ read. IfErr read (λ code. 0 < code.0)) }
{
    reading();
    match request_of(alloc, text) {
        Ok(request) => Ok(Ok(request)),
        Err(PlaintextError::Format) => Ok(Err(Code::BAD_REQUEST)),
        Err(PlaintextError::BadOption(_)) => Ok(Err(Code::BAD_OPTION)),
        Err(PlaintextError::Memory) => Err(AllocError),
    }
}

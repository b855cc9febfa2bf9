//! The ranges of codes (RFC 7252 section 12.1).

ghost use Rattle.std.specs.Prelude.{◌≡◌, ◌<◌, ◌≤◌, ◌↔◌, IsTrue};
ghost use Rattle.osc_coap.specs.Code as spec;

/// Whether a code is one of a request, 0.01 to 0.31.
pub fn is_request_code(code: u8) -> bool
    ensures value { result ≡ spec.is_request_code code }
    ensures means { IsTrue result ↔ (0 < code) × (code < 32) }
{
    0 < code && code < 32
}

/// Whether a code is one of a response, 2.00 to 5.31. 0.00 is that of an empty message, and classes 1, 6 and 7
/// are reserved.
pub fn is_response_code(code: u8) -> bool
    ensures value { result ≡ spec.is_response_code code }
    ensures means { IsTrue result ↔ (64 ≤ code) × (code < 192) }
{
    64 <= code && code < 192
}

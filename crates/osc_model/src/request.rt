//! Requests.

use crate::bytes::Bytes;
use crate::code::Code;
use crate::etag::ETags;
use crate::path::Path;
use std::fmt;

/// A request on one resource (RFC 7252 section 5.8).
#[derive(Clone, PartialEq, Eq)]
pub struct Request {
    /// The request code, of a method or of none that is known.
    pub code: Code,
    /// The path that the Uri-Path options make, if they make one (section 5.10.1).
    pub path: Option<Path>,
    /// The Content-Format option (section 5.10.3).
    pub format: Option<u16>,
    /// The Accept option (section 5.10.4).
    pub accept: Option<u16>,
    /// The If-Match options, empty where there is none.
    pub if_match: ETags,
    /// Whether there is an If-None-Match option (section 5.10.8.2).
    pub if_none_match: bool,
    /// The payload.
    pub payload: Bytes,
}

impl Drop for Request {
    fn drop(self) {
        let Request {
            code: _,
            path: _,
            format: _,
            accept: _,
            if_match: _,
            if_none_match: _,
            payload: _,
        } = self;
    }
}

// What was asked under a security context isn't printed.
impl fmt::Debug for Request {
    fn fmt<W: fmt::Write>(&self, f: &mut fmt::Formatter<W>) -> fmt::Result {
        f.write_str("Request")
    }
}

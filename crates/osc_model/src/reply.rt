//! Replies.
ghost use Rattle.std.specs.Prelude.{◌≡◌};
ghost use Rattle.osc_model.specs.Reply.{bare};

use crate::bytes::Bytes;
use crate::code::Code;
use std::alloc::Global;
use std::fmt;

/// What a request is answered (RFC 7252 section 5.9).
#[derive(Clone, PartialEq, Eq)]
pub struct Reply {
    /// The response code.
    pub code: Code,
    /// The ETag option (section 5.10.6).
    pub etag: Option<[u8; 8]>,
    /// The Content-Format option (section 5.10.3).
    pub format: Option<u16>,
    /// The payload; what a tree answers has 0 to 512 bytes, what a peer sends may have more.
    pub payload: Bytes,
}

impl Drop for Reply {
    fn drop(self) {
        let Reply {
            code: _,
            etag: _,
            format: _,
            payload: _,
        } = self;
    }
}

impl Reply {
    /// A reply with neither options nor payload; takes no memory.
    pub fn bare(alloc: Global, code: Code) -> Self
        ensures { result ≡ bare code }
    {
        Reply {
            code,
            etag: None,
            format: None,
            payload: Bytes::new(alloc),
        }
    }
}

// What was answered under a security context isn't printed.
impl fmt::Debug for Reply {
    fn fmt<W: fmt::Write>(&self, f: &mut fmt::Formatter<W>) -> fmt::Result {
        f.write_str("Reply")
    }
}

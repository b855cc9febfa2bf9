//! What is before the options of a message that answers, and the protected response that goes with it.

ghost use Rattle.std.specs.Prelude.{◌≡◌, [], ◌≤◌, length};
ghost use Rattle.std.specs.Vec.{vec_len, vec_capacity};
ghost use Rattle.osc_coap.specs.{spelling, Spells};
ghost use Rattle.osc_protect.specs.Inner.Outside.{outer_response};

use osc_coap::laws::{growing, length_of_growing, spelling_of_growing};
use osc_coap::{Kind, append_empty_option, write_start};
use osc_options::numbers::OSCORE;

/// The header and the token of a message that answers (RFC 7252 section 3); the code is that of what it carries.
#[derive(Clone, Copy, Debug)]
pub struct Header<'a> {
    pub kind: Kind,
    /// The message ID.
    pub id: u16,
    /// At most 8 bytes.
    pub token: &'a [u8],
}

/// The code of a protected response, 2.04 (RFC 8613 section 4.2).
pub(crate) const OUTER_CODE: u8 = 0x44;

/// Writes the protected response under a request's nonce, still without its payload, into a vector that is empty and has room for it; its
/// one option is OSCORE's own, which is empty.
pub(crate) fn write_response_start(out: &mut Vec<u8>, header: Header<'_>)
    requires token { length header.token.now ≤ 8 }
    requires empty { (out.old.items ≡ []) × (vec_len out.old ≡ 0) }
    requires room { length (spelling (outer_response header [])) ≤ vec_capacity out.old }
    ensures spelled { Spells out.new.items (outer_response header.entry []) }
    ensures length { vec_len out.new ≡ length (spelling (outer_response header.entry [])) }
    ensures capacity { vec_capacity out.old ≤ vec_capacity out.new }
{
    growing();
    length_of_growing();
    spelling_of_growing();
    write_start(out, header.kind, OUTER_CODE, header.id, header.token);
    append_empty_option(out, 0, OSCORE);
}

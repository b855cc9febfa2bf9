//! The associated data of the cipher (RFC 9052 section 5.3).

ghost use Rattle.std.specs.Prelude.{◌≡◌, ◌+◌, ◌≤◌, ◌++◌, length, IsOk, OnOk, OnErr};
ghost use Rattle.std.specs.Vec.{vec_len, vec_capacity};
ghost use Rattle.osc_cose.specs.Encrypt0.{enc_structure as structure};

use osc_cbor::{Major, head};
use std::alloc::AllocError;

/// The head of an array of three items, and the first of them, the text `Encrypt0`.
const CONTEXT: [u8; 10] = *b"\x83\x68Encrypt0";

/// Appends the Enc_structure of a protected header and external associated data. Without memory all stays as it was; where
/// there is room, no memory is taken.
pub fn enc_structure(
    protected: &[u8],
    external_aad: &[u8],
    out: &mut Vec<u8>,
) -> Result<(), AllocError>
    ensures ok { OnOk result (out.new.items ≡ out.old.items ++ structure protected.now external_aad.now) }
    ensures err { OnErr result (out.new.items ≡ out.old.items) }
    ensures room { vec_len out.old + length (structure protected.now external_aad.now) ≤ vec_capacity out.old → IsOk result }
{
    let protected_head = head(Major::Bytes, protected.len() as u64);
    let external_head = head(Major::Bytes, external_aad.len() as u64);
    let heads = CONTEXT.len() + protected_head.len() + external_head.len();
    let contents = protected.len() + external_aad.len();
    let Some(size) = contents.checked_add(heads) else {
        return Err(AllocError);
    };
    out.reserve(size)?;
    append(&CONTEXT, out);
    append(protected_head.as_slice(), out);
    append(protected, out);
    append(external_head.as_slice(), out);
    append(external_aad, out);
    Ok(())
}

/// Appends a part for which there is room.
fn append(part: &[u8], out: &mut Vec<u8>)
    requires { vec_len out.old + length part.now ≤ vec_capacity out.old }
    ensures items { out.new.items ≡ out.old.items ++ part.now }
    ensures len { vec_len out.new ≡ vec_len out.old + length part.now }
    ensures capacity { vec_capacity out.old ≤ vec_capacity out.new }
{
    out.extend_from_slice(part).unwrap()
}

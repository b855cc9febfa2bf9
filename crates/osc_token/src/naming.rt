//! The id by which a token is named.
ghost use Rattle.std.specs.Prelude.{◌≡◌, option_copied};
ghost use Rattle.osc_token.specs.Naming.{IsNameIn, id_in as id_in_claims};

use crate::labels::{CONFIRMATION, ID, MATERIAL};
use osc_cbor::ItemRef;
use osc_model::limits::LONGEST_ID;

/// The id that these claims give a token (RFC 9203 section 3.2.1), if it is one of at most 64 bytes.
fn id_in<'a>(claims: &ItemRef<'a>) -> Option<&'a [u8]>
    ensures { option_copied result ≡ id_in_claims claims.now }
{
    let id = claims
        .value(CONFIRMATION)?
        .value(MATERIAL)?
        .value(ID)?
        .as_bytes()?;
    if id.len() > LONGEST_ID {
        return None;
    }
    Some(id)
}

/// The id of the token with this plaintext: 0 to 64 bytes. None where the plaintext is no claims, or they give no such id. Takes no memory.
pub fn name_in(plaintext: &[u8]) -> Option<&[u8]>
    ensures { IsNameIn plaintext.now (option_copied result) }
{
    match ItemRef::whole(plaintext) {
        Some(claims) => id_in(&claims),
        None => None,
    }
}

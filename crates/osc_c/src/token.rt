//! Tokens.
ghost use Rattle.osc_c.specs.Calls.{Answers};
ghost use Rattle.osc_c.specs.Ciphers.{short_tag};
ghost use Rattle.osc_c.specs.Given.{claims_given};
ghost use Rattle.osc_c.specs.Minting.{MintsBy, sealed_under};

use crate::calls::{PlainClaims, claims, mint};
use osc_ccm::Ccm;
use std::alloc::Global;

/// Mints a token, and writes it where there is room: how many bytes it has is told in either case.
///
/// Answers 0; or 2 where `token` is too short, 9 without memory, 14 where the claims are too long, 24 where the text is no scope, and 34 where `size`
/// isn't that of the struct, or a length, the algorithm or the audience is out of its range. Heap: for the call.
#[unsafe(no_mangle)]
pub extern "C" fn nzf_token_mint(
    alloc: Global,
    given: &PlainClaims<'_>,
    token: &mut [u8],
    length: &mut usize,
) -> i32
    ensures { Answers result (λ outcome. MintsBy short_tag (sealed_under given.now) (claims_given given.now)
        (record { bytes = token.old; size = length.old }) outcome (record { bytes = token.new; size = length.new })) }
{
    match claims(alloc, given) {
        Ok(claims) => {
            mint::<Ccm<8>>(alloc, claims, &given.key, &given.iv, token, length).number()
        }
        Err(outcome) => outcome.number(),
    }
}

//! The tokens of a script's grants.

ghost use Rattle.std.specs.Prelude.{◌≡◌, IfOk};
ghost use Rattle.osc_script.specs.Grants.{claims_of, iv_of, material_of};

use osc_model::{Algorithm, Bytes};
use osc_token::{Audience, Claims, InputMaterial};
use std::alloc::{AllocError, Global};

/// The key that seals the tokens: the bytes 40 to 4f, in hexadecimal digits.
pub const TOKEN_KEY: [u8; 16] = *b"@ABCDEFGHIJKLMNO";

/// The claims of the grant of this number, counted from 1 over the lines that grant: for the audience `s`, with the number
/// as the id, with 15 zero bytes and the number as the secret, and with this algorithm.
pub fn grant_claims(
    alloc: Global,
    number: u8,
    scope: &Bytes,
    not_before: Option<u64>,
    expires: Option<u64>,
    alg: Algorithm,
) -> Result<Claims, AllocError>
    ensures { IfOk result (λ claims. claims ≡ claims_of number scope.now not_before expires alg) }
{
    Ok(Claims {
        audience: Audience::new(alloc, "s")?,
        not_before,
        expires,
        material: material(alloc, number, alg)?,
        scope: scope.clone()?,
    })
}

/// The IV under which the claims of the grant of this number are sealed: 12 zero bytes and the number.
pub fn token_iv(number: u8) -> [u8; 13]
    ensures { result ≡ iv_of number }
{
    [0, 0, 0, 0, 0, 0, 0, 0, 0, 0, 0, 0, number]
}

fn material(alloc: Global, number: u8, alg: Algorithm) -> Result<InputMaterial, AllocError>
    ensures { IfOk result (λ material. material ≡ material_of number alg) }
{
    let secret = [0, 0, 0, 0, 0, 0, 0, 0, 0, 0, 0, 0, 0, 0, 0, number];
    Ok(InputMaterial {
        id: Bytes::from_slice(alloc, &[number])?,
        secret: Bytes::from_slice(alloc, &secret)?,
        salt: Bytes::new(alloc),
        id_context: None,
        alg,
    })
}

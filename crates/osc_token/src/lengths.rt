//! How many bytes the text of claims has, found without writing it. What is too long for a `usize` counts as the greatest one.

ghost use Rattle.std.specs.Prelude.{◌≡◌, ◌≤◌, length};
ghost use Rattle.osc_cbor.specs.{byte_string, map, no_pairs, pair, text_string, unsigned, pairs_spelling, spelling};
ghost use Rattle.osc_cose.specs.{parameter};
ghost use Rattle.osc_token.specs.Inner.Lengths.{counted};
ghost use Rattle.osc_token.specs.Token.{alg_field, claims_item, date, material_item, salt_field};

use crate::audience::Audience;
use crate::claims::{Claims, InputMaterial};
use crate::labels::{
    ALGORITHM, AUDIENCE, CONFIRMATION, EXPIRES, ID, ID_CONTEXT, MATERIAL, NOT_BEFORE, SALT, SCOPE,
    SECRET,
};
use osc_cbor::{Major, head};
use osc_model::{Algorithm, Bytes};

/// The bytes of the head of a map of at most 23 pairs.
const MAP_HEAD: usize = 1;

/// How many bytes the text of claims has.
pub(crate) fn claims_len(claims: &Claims) -> usize
    ensures { result ≡ counted (length (spelling (claims_item claims.now))) }
{
    audience_len(&claims.audience)
        .saturating_add(date_len(EXPIRES, claims.expires))
        .saturating_add(date_len(NOT_BEFORE, claims.not_before))
        .saturating_add(confirmation_len(&claims.material))
        .saturating_add(bytes_len(SCOPE, &claims.scope))
        .saturating_add(MAP_HEAD)
}

/// How many the audience has with its label.
fn audience_len(audience: &Audience) -> usize
    ensures { result ≡ counted (length (pairs_spelling (pair (unsigned 3) (text_string audience.now) no_pairs))) }
{
    let len = audience.as_str().len();
    (number_len(AUDIENCE) + head(Major::Text, len as u64).len()).saturating_add(len)
}

/// How many a date has with this label; none where it isn't there.
fn date_len(label: u64, seconds: Option<u64>) -> usize
    ensures { result ≡ counted (length (pairs_spelling (date label seconds no_pairs))) }
{
    match seconds {
        Some(seconds) => number_len(label) + number_len(seconds),
        None => 0,
    }
}

/// How many input material has with its labels.
fn confirmation_len(material: &InputMaterial) -> usize
    ensures { result ≡ counted (length (pairs_spelling
        (pair (unsigned 8) (map (pair (unsigned 4) (material_item material.now) no_pairs)) no_pairs))) }
{
    material_len(material).saturating_add(
        number_len(CONFIRMATION) + MAP_HEAD + number_len(MATERIAL),
    )
}

/// How many the map of the fields of input material has.
fn material_len(material: &InputMaterial) -> usize
    ensures { result ≡ counted (length (spelling (material_item material.now))) }
{
    bytes_len(ID, &material.id)
        .saturating_add(bytes_len(SECRET, &material.secret))
        .saturating_add(alg_len(material.alg))
        .saturating_add(salt_len(&material.salt))
        .saturating_add(id_context_len(&material.id_context))
        .saturating_add(MAP_HEAD)
}

/// How many an algorithm has with its label; none where it is meant without being named.
fn alg_len(alg: Algorithm) -> usize
    ensures { result ≡ counted (length (pairs_spelling (alg_field alg no_pairs))) }
{
    match alg {
        Algorithm::EightByteTag => 0,
        Algorithm::SixteenByteTag => number_len(ALGORITHM) + number_len(alg.number()),
    }
}

/// How many a salt has with its label; none where it is empty.
fn salt_len(salt: &Bytes) -> usize
    ensures { result ≡ counted (length (pairs_spelling (salt_field salt.now no_pairs))) }
{
    if salt.is_empty() {
        0
    } else {
        bytes_len(SALT, salt)
    }
}

/// How many an id context has with its label; none where it isn't there.
fn id_context_len(id_context: &Option<Bytes>) -> usize
    ensures { result ≡ counted (length (pairs_spelling (parameter 6 id_context.now no_pairs))) }
{
    match id_context {
        Some(bytes) => bytes_len(ID_CONTEXT, bytes),
        None => 0,
    }
}

/// How many a byte string has with this label.
fn bytes_len(label: u64, bytes: &Bytes) -> usize
    ensures { result ≡ counted (length (pairs_spelling (pair (unsigned label) (byte_string bytes.now) no_pairs))) }
{
    let len = bytes.len();
    (number_len(label) + head(Major::Bytes, len as u64).len()).saturating_add(len)
}

/// How many a number has.
fn number_len(number: u64) -> usize
    ensures value { result ≡ length (spelling (unsigned number)) }
    ensures short { result ≤ 9 }
{
    head(Major::Unsigned, number).len()
}

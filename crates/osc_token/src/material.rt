//! The input material of claims.

ghost use Rattle.std.specs.Prelude.{◌≡◌, IfOk, option_map, option_and_then, option_copied};
ghost use Rattle.osc_cbor.specs.Parts as part;
ghost use Rattle.osc_token.specs.Inner.Reading as spec;

use crate::claims::InputMaterial;
use crate::found::FieldsRef;
use crate::labels::MATERIAL;
use osc_cbor::ItemRef;
use osc_model::limits::LONGEST_PART;
use osc_model::{Algorithm, Bytes};
use std::alloc::{AllocError, Global};
use std::marker::Model;

/// The version of OSCORE that RFC 8613 is.
const OSCORE_1: u64 = 1;

/// HKDF with SHA-256 by its HMAC, HMAC 256/256 (RFC 9053 section 3.1).
const HMAC_256: u64 = 5;

/// HKDF with SHA-256 by direct+HKDF-SHA-256 (RFC 9053 section 6.1.2): the argument of -10.
const HKDF_SHA_256: u64 = 9;

/// Input material, lent by the claims.
#[derive(Drop)]
pub(crate) struct MaterialRef<'a> {
    id: &'a [u8],
    secret: &'a [u8],
    salt: &'a [u8],
    id_context: Option<&'a [u8]>,
    alg: Algorithm,
}

impl<'a> Model for MaterialRef<'a> {
    ghost use Rattle.std.specs.Prelude.{option_copied};
    ghost use Rattle.osc_token.specs.declared.claims.InputMaterial.{InputMaterial as AnyMaterial};

    ghost Value = { AnyMaterial };

    ghost view = { λ m. record { id = m.id.now; secret = m.secret.now; salt = m.salt.now; id_context = option_copied m.id_context; alg = m.alg } };
}

impl<'a> MaterialRef<'a> {
    /// A copy that owns its bytes.
    pub(crate) fn to_owned(&self, alloc: Global) -> Result<InputMaterial, AllocError>
        ensures { IfOk result (λ material. material ≡ self.now) }
    {
        let id_context = match self.id_context {
            Some(bytes) => Some(Bytes::from_slice(alloc, bytes)?),
            None => None,
        };
        Ok(InputMaterial {
            id: Bytes::from_slice(alloc, self.id)?,
            secret: Bytes::from_slice(alloc, self.secret)?,
            salt: Bytes::from_slice(alloc, self.salt)?,
            id_context,
            alg: self.alg,
        })
    }
}

/// The input material of the claim cnf, where it has it.
pub(crate) fn material_under<'a>(confirmation: &Option<ItemRef<'a>>) -> Option<MaterialRef<'a>>
    ensures { result ≡ option_and_then spec.material_of (option_and_then (part.value 4) confirmation.now) }
{
    material_of(&FieldsRef::new(confirmation.as_ref()?.value(MATERIAL)?))
}

/// The input material of these fields, where they name what is supported.
fn material_of<'a>(fields: &FieldsRef<'a>) -> Option<MaterialRef<'a>>
    ensures { result ≡ spec.material_of fields.now }
{
    if are_known(fields) {
        parts_of(fields)
    } else {
        None
    }
}

/// The input material of these fields, whatever version and hash they name.
fn parts_of<'a>(fields: &FieldsRef<'a>) -> Option<MaterialRef<'a>>
    ensures { result ≡ spec.parts_of fields.now }
{
    Some(MaterialRef {
        id: sized(fields.values.id.as_ref()?, 0)?,
        secret: sized(fields.values.secret.as_ref()?, 1)?,
        salt: salt(fields)?,
        id_context: id_context(fields)?,
        alg: algorithm(&fields.values.alg)?,
    })
}

/// The salt, empty where there is none.
fn salt<'a>(fields: &FieldsRef<'a>) -> Option<&'a [u8]>
    ensures { option_copied result ≡ spec.salt_of (part.value 5 fields.now) }
{
    match &fields.values.salt {
        Some(value) => sized(value, 0),
        None => Some(&[]),
    }
}

/// The id context, where there is one; none where it is no such field.
fn id_context<'a>(fields: &FieldsRef<'a>) -> Option<Option<&'a [u8]>>
    ensures { option_map option_copied result ≡ spec.id_context_of (part.value 6 fields.now) }
{
    match &fields.values.id_context {
        Some(value) => Some(Some(sized(value, 0)?)),
        None => Some(None),
    }
}

/// The algorithm, AES-CCM-16-64-128 where there is no value; none where it is another than the two.
fn algorithm(value: &Option<ItemRef<'_>>) -> Option<Algorithm>
    ensures { result ≡ spec.alg_of value.now }
{
    match value {
        Some(item) => numbered(item),
        None => Some(Algorithm::EightByteTag),
    }
}

/// The algorithm of this number, if it is one of the two.
fn numbered(item: &ItemRef<'_>) -> Option<Algorithm>
    ensures { result ≡ option_and_then spec.algorithm_numbered (part.as_unsigned item.now) }
{
    Algorithm::from_number(item.as_unsigned()?)
}

/// The bytes of a field, if it is a byte string of at least `least` and at most [`LONGEST_PART`] bytes.
fn sized<'a>(value: &ItemRef<'a>, least: usize) -> Option<&'a [u8]>
    ensures { option_copied result ≡ spec.sized least value.now }
{
    let bytes = value.as_bytes()?;
    if bytes.len() < least || bytes.len() > LONGEST_PART {
        None
    } else {
        Some(bytes)
    }
}

/// Whether version and HKDF are those that are supported, where they are named.
fn are_known(fields: &FieldsRef<'_>) -> bool
    ensures { result ≡ spec.are_known fields.now }
{
    is_absent_or(&fields.values.version, OSCORE_1) && is_hkdf(&fields.values.hkdf)
}

/// Whether the value is this number, where there is one.
fn is_absent_or(value: &Option<ItemRef<'_>>, number: u64) -> bool
    ensures { result ≡ spec.is_absent_or number value.now }
{
    match value {
        Some(item) => item.as_unsigned() == Some(number),
        None => true,
    }
}

/// Whether the value is HKDF with SHA-256, where there is one.
fn is_hkdf(value: &Option<ItemRef<'_>>) -> bool
    ensures { result ≡ spec.is_hkdf value.now }
{
    if let Some(item) = value
        && let Some(argument) = item.as_negative()
    {
        return argument == HKDF_SHA_256;
    }
    is_absent_or(value, HMAC_256)
}

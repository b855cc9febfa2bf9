//! A security context as another stack reads it.
ghost use Rattle.std.specs.Prelude.{◌≡◌, IfOk, string_bytes};
ghost use Rattle.osc_programs.specs.Context as spec;

use osc_authz::ClientContext;
use osc_model::{Algorithm, Bytes, ContextName};
use osc_words::ContextForm;
use std::alloc::{AllocError, Global};

/// The context in this form. It has the master secret: whoever reads it can open and seal all that the context protects.
pub(crate) fn context_text(
    alloc: Global,
    form: ContextForm,
    context: &ClientContext,
) -> Result<Vec<u8>, AllocError>
    ensures { IfOk result (λ text. text.items ≡ spec.context_text form context.now) }
{
    let name = context.name();
    match form {
        ContextForm::Libcoap => libcoap_text(alloc, name),
        ContextForm::Aiocoap => aiocoap_text(alloc, name),
        ContextForm::Json => json_text(alloc, name, context.sender().next_number()),
    }
}

// ---- libcoap

fn libcoap_text(alloc: Global, name: &ContextName) -> Result<Vec<u8>, AllocError>
    ensures { IfOk result (λ text. text.items ≡ spec.libcoap_text name.now) }
{
    let mut text = libcoap_keys(alloc, name)?;
    text.extend_from_slice(&libcoap_ids(alloc, name)?)?;
    text.extend_from_slice(libcoap_algorithm(alloc, name.alg)?.as_bytes())?;
    Ok(text)
}

fn libcoap_keys(alloc: Global, name: &ContextName) -> Result<Vec<u8>, AllocError>
    ensures { IfOk result (λ text. text.items ≡ spec.libcoap_keys name.now) }
{
    let mut text = libcoap_row(alloc, "master_secret", &name.secret)?;
    text.extend_from_slice(&libcoap_row(alloc, "master_salt", &name.salt)?)?;
    Ok(text)
}

fn libcoap_ids(alloc: Global, name: &ContextName) -> Result<Vec<u8>, AllocError>
    ensures { IfOk result (λ text. text.items ≡ spec.libcoap_ids name.now) }
{
    let mut text = libcoap_row(alloc, "sender_id", &name.client_id)?;
    text.extend_from_slice(&libcoap_row(alloc, "recipient_id", &name.server_id)?)?;
    text.extend_from_slice(&libcoap_id_context(alloc, &name.id_context)?)?;
    Ok(text)
}

fn libcoap_row(alloc: Global, key: &str, value: &Bytes) -> Result<Vec<u8>, AllocError>
    ensures { IfOk result (λ text. text.items ≡ spec.libcoap_row key.now value.now) }
{
    let value = hex::encode(alloc, value.as_slice())?;
    let mut text = Vec::from_slice(alloc, key.as_bytes())?;
    text.extend_from_slice(b",hex,\"")?;
    text.extend_from_slice(value.as_bytes())?;
    text.extend_from_slice(b"\"\n")?;
    Ok(text)
}

fn libcoap_id_context(alloc: Global, named: &Option<Bytes>) -> Result<Vec<u8>, AllocError>
    ensures { IfOk result (λ text. text.items ≡ spec.libcoap_id_context named.now) }
{
    match named {
        Some(named) => libcoap_row(alloc, "id_context", named),
        None => Ok(Vec::new(alloc)),
    }
}

fn libcoap_algorithm(alloc: Global, alg: Algorithm) -> Result<String, AllocError>
    ensures { IfOk result (λ text. string_bytes text ≡ spec.libcoap_algorithm alg) }
{
    format!(in alloc; "aead_alg,text,\"{}\"\n", algorithm_name(alg))
}

// ---- JSON

fn aiocoap_text(alloc: Global, name: &ContextName) -> Result<Vec<u8>, AllocError>
    ensures { IfOk result (λ text. text.items ≡ spec.aiocoap_text name.now) }
{
    let mut text = Vec::from_slice(alloc, aiocoap_algorithm(alloc, name.alg)?.as_bytes())?;
    text.extend_from_slice(&key_members(alloc, "secret_hex", "salt_hex", name)?)?;
    let ids = id_members(
        alloc,
        "sender-id_hex",
        "recipient-id_hex",
        "id-context_hex",
        name,
    )?;
    text.extend_from_slice(&ids)?;
    text.extend_from_slice(b"}\n")?;
    Ok(text)
}

fn aiocoap_algorithm(alloc: Global, alg: Algorithm) -> Result<String, AllocError>
    ensures { IfOk result (λ text. string_bytes text ≡ spec.aiocoap_algorithm alg) }
{
    format!(in alloc; "{{\"algorithm\": \"{}\"", algorithm_name(alg))
}

fn json_text(alloc: Global, name: &ContextName, next: u64) -> Result<Vec<u8>, AllocError>
    ensures { IfOk result (λ text. text.items ≡ spec.json_text (record { name = name.now; next = next })) }
{
    let numbers = json_numbers(alloc, name.alg.number(), next)?;
    let mut text = Vec::from_slice(alloc, numbers.as_bytes())?;
    text.extend_from_slice(&key_members(alloc, "master_secret", "master_salt", name)?)?;
    let ids = id_members(alloc, "sender_id", "recipient_id", "id_context", name)?;
    text.extend_from_slice(&ids)?;
    text.extend_from_slice(b"}\n")?;
    Ok(text)
}

fn json_numbers(alloc: Global, alg: u64, next: u64) -> Result<String, AllocError>
    ensures { IfOk result (λ text. string_bytes text ≡ spec.json_numbers alg next) }
{
    format!(in alloc;
        "{{\"aead_algorithm\": {alg}, \"sender_sequence_number\": {next}, \"hkdf_algorithm\": -10"
    )
}

fn key_members(
    alloc: Global,
    secret: &str,
    salt: &str,
    name: &ContextName,
) -> Result<Vec<u8>, AllocError>
    ensures { IfOk result (λ text. text.items ≡ spec.key_members secret.now salt.now name.now) }
{
    let mut text = member(alloc, secret, &name.secret)?;
    text.extend_from_slice(&member(alloc, salt, &name.salt)?)?;
    Ok(text)
}

fn id_members(
    alloc: Global,
    sender: &str,
    recipient: &str,
    id_context: &str,
    name: &ContextName,
) -> Result<Vec<u8>, AllocError>
    ensures { IfOk result (λ text. text.items ≡ spec.id_members sender.now recipient.now id_context.now name.now) }
{
    let mut text = member(alloc, sender, &name.client_id)?;
    text.extend_from_slice(&member(alloc, recipient, &name.server_id)?)?;
    text.extend_from_slice(&member_if(alloc, id_context, &name.id_context)?)?;
    Ok(text)
}

fn member(alloc: Global, key: &str, value: &Bytes) -> Result<Vec<u8>, AllocError>
    ensures { IfOk result (λ text. text.items ≡ spec.member key.now value.now) }
{
    let value = hex::encode(alloc, value.as_slice())?;
    let mut text = Vec::from_slice(alloc, b", \"")?;
    text.extend_from_slice(key.as_bytes())?;
    text.extend_from_slice(b"\": \"")?;
    text.extend_from_slice(value.as_bytes())?;
    text.extend_from_slice(b"\"")?;
    Ok(text)
}

fn member_if(alloc: Global, key: &str, value: &Option<Bytes>) -> Result<Vec<u8>, AllocError>
    ensures { IfOk result (λ text. text.items ≡ spec.member_if key.now value.now) }
{
    match value {
        Some(value) => member(alloc, key, value),
        None => Ok(Vec::new(alloc)),
    }
}

// The name of the algorithm.
fn algorithm_name(alg: Algorithm) -> &'static str
    ensures { result.now ≡ spec.algorithm_name alg }
{
    match alg {
        Algorithm::EightByteTag => "AES-CCM-16-64-128",
        Algorithm::SixteenByteTag => "AES-CCM-16-128-128",
    }
}

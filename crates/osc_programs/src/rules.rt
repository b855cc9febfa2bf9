//! What `--check` says of the rules by which a server judges tokens and contexts.
ghost use Rattle.std.specs.Prelude.{◌≡◌, IfOk, length, string_bytes};
ghost use Rattle.osc_programs.specs.Checked as spec;

use crate::checked::shown_line;
use osc_model::{Bytes, Path};
use osc_words::ServerSettings;
use std::alloc::{AllocError, Global};

/// `revoked PATH`, `revoked_ids N` for so many ids, `context_seconds N`, `reserved_id ID` and `subtrees false`, each where the settings say so.
pub(crate) fn rules_text(alloc: Global, settings: &ServerSettings) -> Result<Vec<u8>, AllocError>
    ensures { IfOk result (λ text. text.items ≡ spec.rules_text settings.now) }
{
    let mut text = revoked_text(alloc, &settings.revoked)?;
    let ids = ids_text(alloc, &settings.revoked_ids)?;
    let seconds = seconds_text(alloc, settings.context_seconds)?;
    let reserved = reserved_text(alloc, &settings.reserved_id)?;
    text.extend_from_slice(ids.as_bytes())?;
    text.extend_from_slice(seconds.as_bytes())?;
    text.extend_from_slice(&reserved)?;
    text.extend_from_slice(subtrees_text(settings.subtrees).as_bytes())?;
    Ok(text)
}

fn revoked_text(alloc: Global, path: &Option<Path>) -> Result<Vec<u8>, AllocError>
    ensures { IfOk result (λ text. text.items ≡ spec.revoked_text path.now) }
{
    match path {
        None => Ok(Vec::new(alloc)),
        Some(path) => shown_line(alloc, "revoked", path.text()),
    }
}

fn ids_text(alloc: Global, ids: &[Bytes]) -> Result<String, AllocError>
    ensures { IfOk result (λ text. string_bytes text ≡ spec.ids_text (length ids.now)) }
{
    let count = ids.len();
    if count == 0 {
        return Ok(String::new(alloc));
    }
    format!(in alloc; "revoked_ids {count}\n")
}

fn id_line(alloc: Global, name: &str, id: &Bytes) -> Result<Vec<u8>, AllocError>
    ensures { IfOk result (λ text. text.items ≡ spec.id_line name.now id.now) }
{
    let id = hex::encode(alloc, id.as_slice())?;
    let mut text = Vec::from_slice(alloc, name.as_bytes())?;
    text.push(b' ')?;
    text.extend_from_slice(id.as_bytes())?;
    text.push(b'\n')?;
    Ok(text)
}

fn seconds_text(alloc: Global, seconds: Option<u32>) -> Result<String, AllocError>
    ensures { IfOk result (λ text. string_bytes text ≡ spec.seconds_text seconds) }
{
    match seconds {
        None => Ok(String::new(alloc)),
        Some(seconds) => format!(in alloc; "context_seconds {seconds}\n"),
    }
}

fn reserved_text(alloc: Global, id: &Option<Bytes>) -> Result<Vec<u8>, AllocError>
    ensures { IfOk result (λ text. text.items ≡ spec.reserved_text id.now) }
{
    match id {
        None => Ok(Vec::new(alloc)),
        Some(id) => id_line(alloc, "reserved_id", id),
    }
}

fn subtrees_text(subtrees: bool) -> &'static str
    ensures { result.now ≡ spec.subtrees_text subtrees }
{
    if subtrees { "" } else { "subtrees false\n" }
}

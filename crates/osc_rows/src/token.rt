//! Tokens (RFC 8392, RFC 9203 section 3.2.1).

use crate::context::write_name;
use crate::line::Line;
use crate::note::write_note;
use crate::words::Word;
use osc_ccm::Ccm;
use osc_model::Note;
use osc_token::{Audience, Claims, InputMaterial, mint, open_token};
use std::alloc::Global;

/// `open_token KEY TOKEN`: the note of its opening, and the name that this has.
pub fn opened(alloc: Global, words: &[Word<'_>], line: &mut Line) -> Option<()> {
    let [key, token] = words else {
        return None;
    };
    let (key, token) = (key.key()?, token.bytes()?);
    match open_token::<Ccm<8>>(alloc, token, &key).ok()? {
        Some(note) => write_opened(&note, line),
        None => line.text("none"),
    }
    Some(())
}

fn write_opened(note: &Note, line: &mut Line) {
    write_note(note, line);
    write_name(&note.context, line);
}

/// `mint KEY IV` and claims: the token of them, or the number of the refusal.
pub fn minted(alloc: Global, words: &[Word<'_>], line: &mut Line) -> Option<()> {
    let [key, iv, claims @ ..] = words else {
        return None;
    };
    let (key, iv) = (key.key()?, iv.iv()?);
    let claims = claims_of(alloc, claims)?;
    let mut token = Vec::new(alloc);
    match mint::<Ccm<8>>(alloc, &claims, &key, &iv, &mut token) {
        Ok(()) => line.bytes(&token),
        Err(error) => line.number(error.number().into()),
    }
    Some(())
}

/// `AUDIENCE NOT_BEFORE EXPIRES SCOPE` and input material.
fn claims_of(alloc: Global, words: &[Word<'_>]) -> Option<Claims> {
    let [audience, not_before, expires, scope, material @ ..] = words else {
        return None;
    };
    Some(Claims {
        audience: Audience::new(alloc, audience.text()?).ok()?,
        not_before: not_before.number(),
        expires: expires.number(),
        material: material_of(alloc, material)?,
        scope: scope.copied(alloc)?,
    })
}

/// `ID SECRET SALT ID_CONTEXT ALGORITHM`
fn material_of(alloc: Global, words: &[Word<'_>]) -> Option<InputMaterial> {
    let [id, secret, salt, id_context, alg] = words else {
        return None;
    };
    let alg = alg.algorithm()?;
    Some(InputMaterial {
        id: id.copied(alloc)?,
        secret: secret.copied(alloc)?,
        salt: salt.copied(alloc)?,
        id_context: id_context.copied_if_some(alloc)?,
        alg,
    })
}

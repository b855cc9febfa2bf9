//! Whether what is assumed of a run holds of its notes. Steps are lent with the oldest first. Each opening is looked for among the steps
//! before its own, from the newest of them on, and each draw in a set of those before it, or among the steps where there is no memory for
//! the set.

ghost use Rattle.std.specs.Prelude.{◌≡◌, ◌≢◌, ◌↔◌, ◌⊎◌, [], ◌∷◌, IfOk, OnOk, IsTrue, List, ℕ, Some, nat_eq, reverse};
ghost use Rattle.std.specs.Cmp.Lexicographic.{pointwise};
ghost use Rattle.std.specs.HashSet.{contains};
ghost use Rattle.osc_model.specs.declared.step.Note.{Note as AnyNote};
ghost use Rattle.osc_token.specs.{token_name};
ghost use Rattle.osc_authz.specs.{In};
ghost use Rattle.osc_run.specs.Premise.{IsVouched, IsMinted, IsOfToken, IsGenuineOpening, IsGenuine, IsDrawn, HasFreshDraws, HasOwnSecrets};
ghost use Rattle.osc_run.specs.States.{Minted as MintedGrant};

use crate::minted::Minted;
use crate::noted::Noted;
use osc_model::{Algorithm, Bytes, ContextName, Note, Side};
use std::alloc::{AllocError, Global};
use std::collections::HashSet;

// ---- genuine

/// Whether what each step opened was sealed in an earlier one, or minted. For each step that opened something, it looks at those between
/// that step and the one that sealed it: mostly one or two, and at most all before it. So the time is mostly that of one look at each step, and
/// at worst grows with the square of the steps.
pub(crate) fn is_genuine(minted: &[Minted], steps: &[Noted]) -> bool
    ensures { IsTrue result ↔ IsGenuine minted.now (reverse steps.now) }
{
    for (i, step) in steps.iter().enumerate() {
        if !opens_genuinely(minted, &steps[..i], step) {
            return false;
        }
    }
    true
}

/// Whether what the step opened, if it did, was sealed in an earlier one, or minted.
fn opens_genuinely(minted: &[Minted], earlier: &[Noted], step: &Noted) -> bool
    ensures { IsTrue result ↔ ((opening : AnyNote) → step.now.notes.opens ≡ Some opening
        → IsGenuineOpening minted.now (reverse earlier.now) opening) }
{
    match step.notes().opens() {
        Some(opening) => is_genuine_opening(minted, earlier, opening),
        None => true,
    }
}

/// Whether a token's text was minted, or a message's sealed in an earlier step.
fn is_genuine_opening(minted: &[Minted], earlier: &[Noted], opening: &Note) -> bool
    ensures { IsTrue result ↔ IsGenuineOpening minted.now (reverse earlier.now) opening.now }
{
    if is_of_token(opening) {
        is_minted(minted, &opening.plaintext)
    } else {
        is_vouched(earlier, opening)
    }
}

/// Whether a token was opened: by the server, under a name with a secret alone and the algorithm of tokens.
fn is_of_token(opening: &Note) -> bool
    ensures { IsTrue result ↔ IsOfToken opening.now }
{
    opening.side == Side::Server && has_a_secret_alone(&opening.context)
}

/// Whether a name has a secret, the algorithm of tokens and nothing else.
fn has_a_secret_alone(name: &ContextName) -> bool
    ensures { IsTrue result ↔ name.now ≡ token_name name.now.secret }
{
    name.salt.is_empty()
        && name.id_context.is_none()
        && name.client_id.is_empty()
        && name.server_id.is_empty()
        && name.alg == Algorithm::EightByteTag
}

/// Whether the text was sealed into the token of a grant.
fn is_minted(minted: &[Minted], text: &Bytes) -> bool
    ensures { IsTrue result ↔ IsMinted minted.now text.now }
{
    for m in minted {
        if has_text(m, text) {
            return true;
        }
    }
    false
}

/// Whether this text was sealed into the token of the grant.
fn has_text(m: &Minted, text: &Bytes) -> bool
    ensures { IsTrue result ↔ m.now.text ≡ text.now }
{
    m.text == *text
}

/// Whether an earlier step sealed, as the other end, what was opened. The newest is looked at first, since what is opened was mostly
/// sealed a step or two before.
fn is_vouched(earlier: &[Noted], opening: &Note) -> bool
    ensures { IsTrue result ↔ IsVouched (reverse earlier.now) opening.now }
{
    for i in (0..earlier.len()).rev() {
        if vouches(&earlier[i], opening) {
            return true;
        }
    }
    false
}

/// Whether this step sealed, as the other end, what was opened.
fn vouches(step: &Noted, opening: &Note) -> bool
    ensures { IsTrue result ↔ IsVouched (step.now ∷ []) opening.now }
{
    match step.notes().seals() {
        Some(sealing) => is_opened_by(sealing, opening),
        None => false,
    }
}

/// Whether the one is of the other end than the other, and all else of them is equal but for the number.
fn is_opened_by(sealing: &Note, opening: &Note) -> bool
    ensures { IsTrue result ↔ ((sealing.now.context ≡ opening.now.context) × (sealing.now.side ≢ opening.now.side)
        × (sealing.now.nonce ≡ opening.now.nonce) × (sealing.now.aad ≡ opening.now.aad)
        × (sealing.now.plaintext ≡ opening.now.plaintext)) }
{
    sealing.side != opening.side
        && sealing.nonce == opening.nonce
        && sealing.context == opening.context
        && sealing.aad == opening.aad
        && sealing.plaintext == opening.plaintext
}

// ---- fresh

/// Whether no step drew a nonce that an earlier one drew. What was drawn is collected in a set, so that the time grows with the steps.
/// Without memory for the set each draw is compared with those before it, and the time grows with the steps times those that drew.
pub(crate) fn are_fresh(alloc: Global, steps: &[Noted]) -> bool
    ensures { IsTrue result ↔ HasFreshDraws (reverse steps.now) }
{
    match are_fresh_in_a_set(alloc, steps) {
        Ok(fresh) => fresh,
        Err(_) => are_fresh_in_pairs(steps),
    }
}

/// Whether no step drew a nonce that an earlier one drew, by a set of what was drawn. Without memory for the set there is no answer.
fn are_fresh_in_a_set(alloc: Global, steps: &[Noted]) -> Result<bool, AllocError>
    ensures { IfOk result (λ fresh. IsTrue fresh ↔ HasFreshDraws (reverse steps.now)) }
{
    let mut drawn = HashSet::new(alloc);
    for step in steps {
        if !add_drawn(&mut drawn, step.notes().drawn())? {
            return Ok(false);
        }
    }
    Ok(true)
}

/// Adds a nonce that was drawn, if one was. False where it is there already. Takes memory for it, and without it the set stays.
fn add_drawn(drawn: &mut HashSet<[u8; 8]>, nonce: Option<[u8; 8]>) -> Result<bool, AllocError>
    ensures fresh { IfOk result (λ fresh. IsTrue fresh ↔ ((n : List ℕ) → nonce ≡ Some n → ¬ IsTrue (contains (pointwise nat_eq) drawn.old n))) }
    ensures added { OnOk result ((n : List ℕ) → IsTrue (contains (pointwise nat_eq) drawn.new n) ↔ ((nonce ≡ Some n) ⊎ IsTrue (contains (pointwise nat_eq) drawn.old n))) }
{
    match nonce {
        Some(nonce) => match drawn.insert(nonce) {
            Ok(added) => Ok(added),
            Err(_) => Err(AllocError),
        },
        None => Ok(true),
    }
}

/// Whether no step drew a nonce that an earlier one drew, by pairs of steps.
fn are_fresh_in_pairs(steps: &[Noted]) -> bool
    ensures { IsTrue result ↔ HasFreshDraws (reverse steps.now) }
{
    for (i, step) in steps.iter().enumerate() {
        if repeats_a_draw(&steps[..i], step) {
            return false;
        }
    }
    true
}

/// Whether the step drew a nonce that an earlier one drew.
fn repeats_a_draw(earlier: &[Noted], step: &Noted) -> bool
    ensures { IsTrue result ↔ ((nonce : List ℕ) × (step.now.notes.drawn ≡ Some nonce) × IsDrawn (reverse earlier.now) nonce) }
{
    match step.notes().drawn() {
        Some(nonce) => is_drawn(earlier, &nonce),
        None => false,
    }
}

/// Whether a step drew the nonce.
fn is_drawn(steps: &[Noted], nonce: &[u8; 8]) -> bool
    ensures { IsTrue result ↔ IsDrawn (reverse steps.now) nonce.now }
{
    for step in steps {
        if draws(step, nonce) {
            return true;
        }
    }
    false
}

/// Whether this step drew the nonce.
fn draws(step: &Noted, nonce: &[u8; 8]) -> bool
    ensures { IsTrue result ↔ step.now.notes.drawn ≡ Some nonce.now }
{
    step.notes().drawn() == Some(*nonce)
}

// ---- separate

/// Whether each grant has a secret of its own.
pub(crate) fn have_own_secrets(minted: &[Minted]) -> bool
    ensures { IsTrue result ↔ HasOwnSecrets minted.now }
{
    for (i, m) in minted.iter().enumerate() {
        if is_secret_of_one(&minted[i + 1..], secret_of(m)) {
            return false;
        }
    }
    true
}

/// Whether a grant has the secret.
fn is_secret_of_one(minted: &[Minted], secret: &Bytes) -> bool
    ensures { IsTrue result ↔ ((m : MintedGrant) × In m minted.now × (m.grant.secret ≡ secret.now)) }
{
    for m in minted {
        if has_secret(m, secret) {
            return true;
        }
    }
    false
}

/// Whether this is the secret of the grant.
fn has_secret(m: &Minted, secret: &Bytes) -> bool
    ensures { IsTrue result ↔ m.now.grant.secret ≡ secret.now }
{
    *secret_of(m) == *secret
}

/// The secret of a grant.
fn secret_of(m: &Minted) -> &Bytes
    ensures { result.now ≡ m.now.grant.secret }
{
    &m.grant.material.secret
}

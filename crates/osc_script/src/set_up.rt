//! Lines that are before the first event.

ghost use Rattle.std.specs.Prelude.{◌≡◌, ◌≤◌, ◌==◌, ◌↔◌, ◌∷◌, codes, length, IfOk, IsTrue, map, Some};
ghost use Rattle.osc_cbor.specs.{spelling};
ghost use Rattle.osc_token.specs.{most_claims, claims_item};
ghost use Rattle.osc_script.specs.Grants.{claims_of};
ghost use Rattle.osc_script.specs.Line.{Say};
ghost use Rattle.osc_script.specs.declared.line.Line.TheVariants.{Open};
ghost use Rattle.osc_script.specs.Inner.Reading.{with_one, with_two, with_three, proxy_line_in, put_in, revoked_in, via_in, Gives};
ghost use Rattle.osc_script.specs.Values.{Reads};

use crate::grants::grant_claims;
use crate::line::Line;
use crate::values::scope;
use crate::words::{algorithm, client, dates, format, proxy, short_bytes};
use osc_model::limits::{LONGEST_PAYLOAD, MOST_REVOCATION_SEGMENTS};
use osc_model::{Algorithm, Bytes, Path, Resource};
use osc_token::{CLAIMS_LIMIT, claims_text};
use std::alloc::{AllocError, Global};

// PATH FORMAT BYTES
#[tactic(auto, unfolding(crate::specs::Inner::Reading::put_in))]
pub(crate) fn put(alloc: Global, args: &[&str]) -> Result<Option<Line>, AllocError>
    ensures { IfOk result (λ found. Gives (with_three put_in (map (λ arg. arg.now) args.now)) found) }
{
    let [path, form, payload] = args else {
        return Ok(None);
    };
    let Some(path) = Path::from_text(alloc, path.as_bytes())? else {
        return Ok(None);
    };
    let Some(format) = format(form.as_bytes()) else {
        return Ok(None);
    };
    let Some(payload) = short_bytes(alloc, payload.as_bytes(), LONGEST_PAYLOAD as u16)? else {
        return Ok(None);
    };
    let resource = Resource { format, payload };
    Ok(Some(Line::Put { path, resource }))
}

// PATH
pub(crate) fn open(alloc: Global, args: &[&str]) -> Result<Option<Line>, AllocError>
    ensures { IfOk result (λ found. Gives (with_one (λ path. Some (Open path)) (map (λ arg. arg.now) args.now)) found) }
{
    let [path] = args else {
        return Ok(None);
    };
    let Some(path) = Path::from_text(alloc, path.as_bytes())? else {
        return Ok(None);
    };
    Ok(Some(Line::Open { path }))
}

// PATH
#[tactic(auto, unfolding(crate::specs::Inner::Reading::revoked_in))]
pub(crate) fn revoked(alloc: Global, args: &[&str]) -> Result<Option<Line>, AllocError>
    ensures { IfOk result (λ found. Gives (with_one revoked_in (map (λ arg. arg.now) args.now)) found) }
{
    let [path] = args else {
        return Ok(None);
    };
    let Some(path) = Path::from_text(alloc, path.as_bytes())? else {
        return Ok(None);
    };
    if path.segments() > MOST_REVOCATION_SEGMENTS {
        return Ok(None);
    }
    Ok(Some(Line::Revoked { path }))
}

// PROXY
#[tactic(auto, unfolding(crate::specs::Inner::Reading::proxy_line_in))]
pub(crate) fn proxy_line(args: &[&str]) -> Option<Line>
    ensures { Gives (with_one proxy_line_in (map (λ arg. arg.now) args.now)) result }
{
    let [proxy_name] = args else {
        return None;
    };
    let proxy = proxy(proxy_name.as_bytes())?;
    Some(Line::Proxy { proxy })
}

// CLIENT PROXY
#[tactic(auto, unfolding(crate::specs::Inner::Reading::via_in))]
pub(crate) fn via(args: &[&str]) -> Option<Line>
    ensures { Gives (with_two via_in (map (λ arg. arg.now) args.now)) result }
{
    let [client_name, proxy_name] = args else {
        return None;
    };
    let client = client(client_name.as_bytes())?;
    let proxy = proxy(proxy_name.as_bytes())?;
    Some(Line::Via { client, proxy })
}

// CLIENT SCOPE [nbf=N] [exp=N] [alg=30]
pub(crate) fn grant(alloc: Global, args: &[&str]) -> Result<Option<Line>, AllocError>
    ensures { IfOk result (λ found. Reads (Say (codes "grant" ∷ map (λ arg. arg.now) args.now)) found) }
{
    let [client, scope, words @ ..] = args else {
        return Ok(None);
    };
    grant_of(alloc, client, scope, words)
}

// The same of the words of each.
fn grant_of(
    alloc: Global,
    client_name: &str,
    scope_text: &str,
    words: &[&str],
) -> Result<Option<Line>, AllocError>
    ensures { IfOk result (λ found. Reads (Say (codes "grant" ∷ client_name.now ∷ scope_text.now ∷ map (λ word. word.now) words.now)) found) }
{
    let Some(client) = client(client_name.as_bytes()) else {
        return Ok(None);
    };
    let (date_words, alg) = algorithm(words);
    let Some((not_before, expires)) = dates(date_words) else {
        return Ok(None);
    };
    let Some(scope) = scope(alloc, scope_text)? else {
        return Ok(None);
    };
    if !can_be_sealed(alloc, &scope, not_before, expires, alg)? {
        return Ok(None);
    }
    Ok(Some(Line::Grant {
        client,
        scope,
        not_before,
        expires,
        alg,
    }))
}

// Whether the claims of a grant are short enough for the cipher; the grant's number doesn't change their length.
fn can_be_sealed(
    alloc: Global,
    scope: &Bytes,
    not_before: Option<u64>,
    expires: Option<u64>,
    alg: Algorithm,
) -> Result<bool, AllocError>
    ensures { IfOk result (λ short. IsTrue short ↔ (length (spelling (claims_item (claims_of 1 scope.now not_before expires alg))) ≤ most_claims)) }
{
    let claims = grant_claims(alloc, 1, scope, not_before, expires, alg)?;
    let text = claims_text(alloc, &claims)?;
    Ok(text.len() <= CLAIMS_LIMIT)
}

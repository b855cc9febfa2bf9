//! What claims give.

use crate::context::write_id_context;
use crate::line::Line;
use crate::words::Word;
use osc_model::{Code, Path};
use osc_scope::Scope;
use osc_token::{Audience, Claims, TokenError, judge};
use std::alloc::Global;

/// `judge AT TEXT`: the claims of the text, for the audience "s", or the number of the refusal.
pub fn judged(alloc: Global, words: &[Word<'_>], line: &mut Line) -> Option<()> {
    let [at, text] = words else {
        return None;
    };
    match judge_for(alloc, at, text)? {
        Ok((claims, scope)) => {
            drop(scope);
            write_claims(&claims, line);
        }
        Err(error) => line.number(error.number().into()),
    }
    Some(())
}

fn judge_for(
    alloc: Global,
    at: &Word<'_>,
    text: &Word<'_>,
) -> Option<Result<(Claims, Scope), TokenError>> {
    let (at, text) = (at.moment()?, text.bytes()?);
    let audience = Audience::new(alloc, "s").ok()?;
    let judged = judge(alloc, text, &audience, at).ok();
    drop(audience);
    judged
}

/// Writes the audience, the first second and the second of the end, the scope's bytes, and the input material: id, secret, salt, id context and
/// the algorithm's number.
fn write_claims(claims: &Claims, line: &mut Line) {
    line.text(claims.audience.as_str());
    line.some_number(claims.not_before);
    line.some_number(claims.expires);
    line.bytes(claims.scope.as_slice());
    line.bytes(claims.material.id.as_slice());
    line.bytes(claims.material.secret.as_slice());
    line.bytes(claims.material.salt.as_slice());
    write_id_context(&claims.material.id_context, line);
    line.number(claims.material.alg.number());
}

/// `verdict AT TEXT PATH CODE`: what the scope of the text says of a request.
pub fn verdict(alloc: Global, words: &[Word<'_>], line: &mut Line) -> Option<()> {
    let [at, text, path, code] = words else {
        return None;
    };
    let code = Code(code.byte()?);
    let path = Path::from_text(alloc, path.text()?.as_bytes()).ok()?;
    let (claims, scope) = judge_for(alloc, at, text)?.ok()?;
    drop(claims);
    line.value(&scope.verdict(path.as_ref(), code));
    Some(())
}

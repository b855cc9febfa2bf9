//! Scopes, in bytes (RFC 9237) and as text.

use crate::line::Line;
use crate::words::Word;
use osc_model::{Code, Method, Path};
use osc_scope::{Scope, text_to_cbor};
use std::alloc::Global;

/// `write_scope TEXT OUT`: OUT, and behind it the scope that the text says; or OUT alone, and the number of the refusal.
pub fn written(alloc: Global, words: &[Word<'_>], line: &mut Line) -> Option<()> {
    let [text, before] = words else {
        return None;
    };
    let text = text.text()?.as_bytes();
    let mut out = Vec::from_slice(alloc, before.bytes()?).ok()?;
    let done = text_to_cbor(alloc, text, &mut out);
    line.bytes(&out);
    if let Err(error) = done {
        line.number(error.number().into());
    }
    Some(())
}

/// `scope BYTES PATH`: what the scope says of GET, POST, PUT and DELETE on the path, or the number of the refusal.
pub fn read(alloc: Global, words: &[Word<'_>], line: &mut Line) -> Option<()> {
    let [bytes, path] = words else {
        return None;
    };
    let bytes = bytes.bytes()?;
    let path = path_of(alloc, path)?;
    match Scope::from_cbor(alloc, bytes) {
        Ok(scope) => write_verdicts(&scope, &path, line),
        Err(error) => line.number(error.number().into()),
    }
    Some(())
}

/// The path of a text, where it is one.
fn path_of(alloc: Global, text: &Word<'_>) -> Option<Option<Path>> {
    Path::from_text(alloc, text.text()?.as_bytes()).ok()
}

fn write_verdicts(scope: &Scope, path: &Option<Path>, line: &mut Line) {
    for code in 1..5u8 {
        line.value(&scope.verdict(path.as_ref(), Code(code)));
    }
}

/// `allow PATH CODE METHOD ..`: what a scope that was given these methods on `/a/b`, by their codes, says of a request.
pub fn allowed(alloc: Global, words: &[Word<'_>], line: &mut Line) -> Option<()> {
    let [path, code, methods @ ..] = words else {
        return None;
    };
    let code = Code(code.byte()?);
    let path = path_of(alloc, path)?;
    let mut scope = Scope::new(alloc);
    let done = allow(alloc, &mut scope, methods);
    line.value(&scope.verdict(path.as_ref(), code));
    drop(scope);
    done
}

fn allow(alloc: Global, scope: &mut Scope, methods: &[Word<'_>]) -> Option<()> {
    for method in methods {
        let method = Method::from_code(Code(method.byte()?))?;
        let path = Path::from_text(alloc, b"/a/b").ok()??;
        scope.allow(alloc, path, method).ok()?;
    }
    Some(())
}

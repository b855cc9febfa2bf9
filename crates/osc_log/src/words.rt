//! What lines say of a request.
ghost use Rattle.std.specs.Prelude.{◌≡◌, IfOk, map, option_map, string_bytes};
ghost use Rattle.osc_model.specs.{method_of};
ghost use Rattle.osc_scope.specs.{name_of};
ghost use Rattle.osc_log.specs.Words as spec;

use osc_model::{Code, Method, Path, refusals};
use std::alloc::{AllocError, Global};

// ---- what was asked

/// A method's name, or the code of what has none.
pub(crate) fn method_text(alloc: Global, request: Code) -> Result<String, AllocError>
    ensures { IfOk result (λ text. string_bytes text ≡ spec.method_text request (method_of request)) }
{
    match Method::from_code(request) {
        Some(method) => method_name(method).to_string(alloc),
        None => request.to_string(alloc),
    }
}

fn method_name(method: Method) -> &'static str
    ensures { result.now ≡ name_of method }
{
    match method {
        Method::Get => "GET",
        Method::Post => "POST",
        Method::Put => "PUT",
        Method::Delete => "DELETE",
    }
}

/// The path, of which each byte that isn't printable ASCII shows as `?`.
pub(crate) fn path_text(alloc: Global, path: Option<&Path>) -> Result<String, AllocError>
    ensures { IfOk result (λ text. string_bytes text ≡ spec.path_text (option_map (λ path. path.now) path.entry)) }
{
    match path {
        Some(path) => shown(alloc, path.text()),
        None => "-".to_string(alloc),
    }
}

/// Bytes as a text, in which each that isn't printable ASCII shows as `?`.
pub fn shown(alloc: Global, bytes: &[u8]) -> Result<String, AllocError>
    ensures { IfOk result (λ text. string_bytes text ≡ map spec.shown_byte bytes.now) }
{
    match String::from_utf8(shown_bytes(alloc, bytes)?) {
        Ok(text) => Ok(text),
        // What is shown is ASCII.
        Err(_) => unreachable!(),
    }
}

fn shown_bytes(alloc: Global, bytes: &[u8]) -> Result<Vec<u8>, AllocError>
    ensures { IfOk result (λ text. text.items ≡ map spec.shown_byte bytes.now) }
{
    let mut text = Vec::new(alloc);
    for byte in bytes {
        text.push(shown_byte(*byte))?;
    }
    Ok(text)
}

fn shown_byte(byte: u8) -> u8
    ensures { result ≡ spec.shown_byte byte }
{
    if 33 <= byte && byte <= 126 {
        byte
    } else {
        b'?'
    }
}

// ---- why a request was refused

/// Why a request was refused, in words: by the number of the reason, or by the code where that tells it.
pub(crate) fn why_words(code: Code, reason: Option<u8>) -> &'static str
    ensures { result.now ≡ spec.why_words code reason }
{
    match reason {
        Some(number) => reason_words(number),
        None => code_words(code.0),
    }
}

/// The reasons that have a number.
pub(crate) fn reason_words(number: u8) -> &'static str
    ensures { result.now ≡ spec.reason_words number }
{
    match number {
        refusals::NOT_GENUINE => "what it seals is not genuine",
        refusals::MALFORMED => "its protection is malformed",
        refusals::NO_CONTEXT => "it names no live security context",
        refusals::REPLAY => "it came before, or is too old",
        refusals::BAD_SCOPE => "the scope of its token can not be read",
        refusals::TOKEN_NOT_GENUINE => "its token is not genuine",
        refusals::EXPIRED => "its token has expired",
        refusals::NOT_YET => "its token is not valid yet",
        refusals::AUDIENCE => "its token is for another audience",
        refusals::BAD_CLAIMS => "the claims of its token can not be read",
        refusals::FIELDS => "a field is missing, or of another type or length",
        refusals::FULL => "too many tokens have a security context",
        refusals::REVOKED => "its token is revoked",
        _ => "for another reason",
    }
}

/// The codes that tell the reason themselves.
pub(crate) fn code_words(code: u8) -> &'static str
    ensures { result.now ≡ spec.code_words code }
{
    match code {
        129 => "it is not protected",
        130 => "it has an option that can not be accepted",
        132 => "there is nothing here but what is forwarded",
        133 => "its method is none of this path",
        141 => "it is too long to be forwarded",
        163 => "too many exchanges are open",
        165 => "nothing is forwarded there",
        _ => "for another reason",
    }
}

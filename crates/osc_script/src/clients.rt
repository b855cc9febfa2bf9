//! Lines of clients.

ghost use Rattle.std.specs.Prelude.{◌≡◌, IfOk, map, Some, None};
ghost use Rattle.osc_model.specs.declared.code.Method.{Method as AnyMethod};
ghost use Rattle.osc_script.specs.Line.{plain_request};
ghost use Rattle.osc_script.specs.Inner.Reading.{with_more, with_one, with_two, with_two_more, ask_in, exchange_in, lie_in, request_in, skip_in, Gives, GivesRequest};

use crate::line::Line;
use crate::words::{client, kept_bytes, method, request_number};
use osc_model::{Bytes, ETags, Method, Path, Request};
use std::alloc::{AllocError, Global};

// CLIENT
#[tactic(auto, unfolding(crate::specs::Inner::Reading::exchange_in))]
pub(crate) fn exchange(args: &[&str]) -> Option<Line>
    ensures { Gives (with_one exchange_in (map (λ arg. arg.now) args.now)) result }
{
    let [client_name] = args else {
        return None;
    };
    let client = client(client_name.as_bytes())?;
    Some(Line::Exchange { client })
}

// CLIENT N
#[tactic(auto, unfolding(crate::specs::Inner::Reading::skip_in))]
pub(crate) fn skip(args: &[&str]) -> Option<Line>
    ensures { Gives (with_two skip_in (map (λ arg. arg.now) args.now)) result }
{
    let [client_name, number] = args else {
        return None;
    };
    let client = client(client_name.as_bytes())?;
    let number = request_number(number.as_bytes())?;
    Some(Line::Skip { client, number })
}

// CLIENT METHOD PATH BYTES
#[tactic(auto, unfolding(crate::specs::Inner::Reading::ask_in))]
pub(crate) fn ask(alloc: Global, args: &[&str]) -> Result<Option<Line>, AllocError>
    ensures { IfOk result (λ found. Gives (with_more ask_in (map (λ arg. arg.now) args.now)) found) }
{
    let [client_name, words @ ..] = args else {
        return Ok(None);
    };
    let Some(client) = client(client_name.as_bytes()) else {
        return Ok(None);
    };
    let Some(request) = request(alloc, words)? else {
        return Ok(None);
    };
    Ok(Some(Line::Ask { client, request }))
}

// CLIENT NUMBER METHOD PATH BYTES
#[tactic(auto, unfolding(crate::specs::Inner::Reading::lie_in))]
pub(crate) fn lie(alloc: Global, args: &[&str]) -> Result<Option<Line>, AllocError>
    ensures { IfOk result (λ found. Gives (with_two_more lie_in (map (λ arg. arg.now) args.now)) found) }
{
    let [client_name, number, words @ ..] = args else {
        return Ok(None);
    };
    let Some(client) = client(client_name.as_bytes()) else {
        return Ok(None);
    };
    let Some(number) = request_number(number.as_bytes()) else {
        return Ok(None);
    };
    let Some(request) = request(alloc, words)? else {
        return Ok(None);
    };
    Ok(Some(Line::Lie {
        client,
        number,
        request,
    }))
}

// METHOD PATH BYTES
#[tactic(auto, unfolding(crate::specs::Inner::Reading::request_in))]
fn request(alloc: Global, words: &[&str]) -> Result<Option<Request>, AllocError>
    ensures { IfOk result (λ found. GivesRequest (request_in (map (λ word. word.now) words.now)) found) }
{
    let [method_name, path, payload] = words else {
        return Ok(None);
    };
    let Some(method) = method(method_name) else {
        return Ok(None);
    };
    let Some(path) = Path::from_text(alloc, path.as_bytes())? else {
        return Ok(None);
    };
    let Some(payload) = kept_bytes(alloc, payload.as_bytes())? else {
        return Ok(None);
    };
    Ok(Some(plain_request(alloc, method, path, payload)))
}

// The request that has nothing else.
fn plain_request(alloc: Global, method: Method, path: Path, payload: Bytes) -> Request
    ensures { result ≡ plain_request method path payload }
{
    Request {
        code: method.code(),
        path: Some(path),
        format: None,
        accept: None,
        if_match: ETags::new(alloc),
        if_none_match: false,
        payload,
    }
}

//! Which case a new message is.
ghost use Rattle.std.specs.Prelude.{◌≡◌, option_map, IfOk, OnErr};
ghost use Rattle.osc_server.specs.Case as spec;
ghost use Rattle.osc_coap.specs.Message.{Message as AnyMessage};
ghost use Rattle.osc_server.specs.Inner.Parts.{AsksGet, HasValue};

use osc_coap::{MessageRef, is_request_code};
use osc_message::is_confirmable;
use osc_model::limits::{AUTHZ_INFO, GET, POST};
use osc_model::{Path, Request};
use osc_options::{OscoreValue, Survey, request_of_message, survey_of};
use osc_scope::Scope;
use osc_tree::Grant;
use std::alloc::{AllocError, Global};

/// What a server makes of a new message. The value of an OSCORE option is lent from the message, and a grant from the open scope and the
/// request.
#[derive(Debug, Drop)]
pub enum RequestCase<'m, 'g> {
    /// The server has no use for it: a response, or a request with a critical option that isn't understood which isn't confirmable.
    Unused,
    /// A confirmable request with a critical option that isn't understood.
    BadOption,
    /// A request that wants a proxy.
    ProxyAsked,
    /// A protected request, with this value of the OSCORE option.
    Protected(OscoreValue<'m>),
    /// An unprotected POST to authz-info.
    Posted,
    /// An unprotected request to authz-info with another method.
    NotPosted,
    /// An unprotected GET that the open scope grants.
    OpenGet(Grant<'g>),
    /// Another unprotected request.
    Unauthorised,
}

/// Whether this is the path of authz-info.
fn is_authz_info(path: Option<&Path>) -> bool
    ensures { result ≡ spec.is_authz_info (option_map (λ path. path.now) path.entry) }
{
    match path {
        Some(path) => path.text() == AUTHZ_INFO,
        None => false,
    }
}

/// A GET that the open scope grants, or another request that needs protection.
fn open_case<'m, 'g>(open_scope: &'g Scope, request: &'g Request) -> RequestCase<'m, 'g>
    ensures case { result ≡ spec.open_case open_scope.now request.now }
    ensures get { AsksGet result }
    ensures value { (message : AnyMessage) → HasValue message result }
{
    if request.code.0 != GET {
        return RequestCase::Unauthorised;
    }
    match Grant::of(open_scope, request) {
        Ok(grant) => RequestCase::OpenGet(grant),
        Err(_) => RequestCase::Unauthorised,
    }
}

/// What is made of a request with an option that isn't understood.
fn refused_option<'m, 'g>(message: &MessageRef<'m>) -> RequestCase<'m, 'g>
    ensures case { result ≡ spec.refused_option message.now }
    ensures get { AsksGet result }
    ensures value { HasValue message.now result }
{
    if is_confirmable(message.kind()) {
        RequestCase::BadOption
    } else {
        RequestCase::Unused
    }
}

/// Which case an unprotected request is that wants no proxy.
fn unprotected_case<'m, 'g>(open_scope: &'g Scope, request: &'g Request) -> RequestCase<'m, 'g>
    ensures case { result ≡ spec.unprotected_case open_scope.now request.now }
    ensures get { AsksGet result }
    ensures value { (message : AnyMessage) → HasValue message result }
{
    if is_authz_info(request.path.as_ref()) {
        if request.code.0 == POST {
            RequestCase::Posted
        } else {
            RequestCase::NotPosted
        }
    } else {
        open_case(open_scope, request)
    }
}

/// Which case a request is. An unprotected one is put into the place for it.
#[tactic(auto, using(crate::proofs::Cases::unprotected_answered))]
fn request_case<'m, 'g>(
    alloc: Global,
    open_scope: &'g Scope,
    message: &MessageRef<'m>,
    place: &'g mut Option<Request>,
) -> Result<RequestCase<'m, 'g>, AllocError>
    ensures case { IfOk result (λ case. case ≡ spec.request_case open_scope.now message.now) }
    ensures get { IfOk result AsksGet }
    ensures value { IfOk result (HasValue message.now) }
    ensures needs_memory { OnErr result (spec.IsNewAnswered message.now (spec.request_case open_scope.now message.now)) }
{
    let Survey {
        unrecognised_critical,
        oscore,
        has_proxy_uri,
        has_proxy_scheme,
    } = survey_of(message);
    if unrecognised_critical.is_some() {
        return Ok(refused_option(message));
    }
    if has_proxy_uri || has_proxy_scheme {
        return Ok(RequestCase::ProxyAsked);
    }
    match oscore {
        Some(value) => Ok(RequestCase::Protected(value)),
        None => {
            let request = place.insert(request_of_message(alloc, message)?);
            Ok(unprotected_case(open_scope, request))
        }
    }
}

/// Which case it is. An unprotected request, which is put into the place for it, takes memory for its path and its payload where the options
/// don't refuse it; without it an `AllocError`.
pub fn case_of<'m, 'g>(
    alloc: Global,
    open_scope: &'g Scope,
    message: &MessageRef<'m>,
    place: &'g mut Option<Request>,
) -> Result<RequestCase<'m, 'g>, AllocError>
    ensures case { IfOk result (λ case. case ≡ spec.case_of open_scope.now message.now) }
    ensures get { IfOk result AsksGet }
    ensures value { IfOk result (HasValue message.now) }
    ensures needs_memory { OnErr result (spec.IsNewAnswered message.now (spec.case_of open_scope.now message.now)) }
{
    if is_request_code(message.code()) {
        request_case(alloc, open_scope, message, place)
    } else {
        Ok(RequestCase::Unused)
    }
}

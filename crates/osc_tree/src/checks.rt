//! The checks that a request must pass, in their order.
ghost use Rattle.std.specs.Prelude.{◌≡◌, ◌==◌, ◌||◌, ◌&&◌, not, ◌∷◌, [], nat_le, ◌<◌, ◌^◌, length, true, bytes_eq, is_some, None, Some, IfOk, OnOk, IfErr, option_copied, option_map};
ghost use Rattle.std.specs.FinMap as map;
ghost use Rattle.std.specs.List.{list_any};
ghost use Rattle.osc_model.specs.{code, allows, method_of, longest_payload, payload_length as length_of, AllowsWrite, refusal as refuses, method_checks, first_failing, is_matched as matches, is_acceptable as accepts};

use crate::grant::Grant;
use crate::tagged::Tagged;
use crate::tree::Tree;
use osc_model::limits::LONGEST_PAYLOAD;
use osc_model::{Code, ETag, Method, Path, Request};

/// What the path of a granted request has, where no check fails, and else the code of the first that does; what passes can be written.
/// Looks the path up once, and takes no memory.
pub fn accepted<'a>(
    tree: &'a Tree,
    root: Option<&Path>,
    grant: &Grant<'_>,
    path: &Path,
) -> Result<Option<&'a Tagged>, Code>
    requires { allows grant.now.scope path.now (method_of grant.now.request.code) ≡ true }
    ensures found { IfOk result (λ found. option_copied found ≡ map.get tree.now path.now) }
    ensures passes { OnOk result (refuses (option_map (λ path. path.now) root.entry) tree.now grant.now.scope path.now grant.now.request ≡ None) }
    ensures writes { OnOk result (AllowsWrite tree.now path.now grant.now.request) }
    ensures fails { IfErr result (λ code. refuses (option_map (λ path. path.now) root.entry) tree.now grant.now.scope path.now grant.now.request ≡ Some code) }
{
    osc_model::laws::what_passes_can_be_written();
    checked(tree, root, grant, path)
}

// The same, without that it can be written. The scope's two checks pass.
#[tactic(auto, unfolding(osc_model::specs::Checks::refusal))]
fn checked<'a>(
    tree: &'a Tree,
    root: Option<&Path>,
    grant: &Grant<'_>,
    path: &Path,
) -> Result<Option<&'a Tagged>, Code>
    requires { allows grant.now.scope path.now (method_of grant.now.request.code) ≡ true }
    ensures found { IfOk result (λ found. option_copied found ≡ map.get tree.now path.now) }
    ensures passes { OnOk result (refuses (option_map (λ path. path.now) root.entry) tree.now grant.now.scope path.now grant.now.request ≡ None) }
    ensures fails { IfErr result (λ code. refuses (option_map (λ path. path.now) root.entry) tree.now grant.now.scope path.now grant.now.request ≡ Some code) }
{
    osc_model::laws::allowed_is_named();
    let found = tree.find(path);
    match refusal(found, tree.is_full_at(root, path), grant.request()) {
        Some(code) => Err(code),
        None => Ok(found),
    }
}

// The checks of what is there: the conditions of the request, and then those of its method.
fn refusal(found: Option<&Tagged>, is_full: bool, request: &Request) -> Option<Code>
    ensures { result ≡ first_failing ((matches (option_copied found.entry) request.now.if_match, code 4 12)
        ∷ (not (request.now.if_none_match && is_some (option_copied found.entry)), code 4 12)
        ∷ method_checks (method_of request.now.code) (option_copied found.entry) is_full request.now) }
{
    if !is_matched(found, request.if_match.as_slice()) {
        return Some(Code::PRECONDITION_FAILED);
    }
    if request.if_none_match && found.is_some() {
        return Some(Code::PRECONDITION_FAILED);
    }
    method_refusal(Method::from_code(request.code), found, is_full, request)
}

// The checks of one method: what a GET reads is there and acceptable, what a PUT or a POST writes has room.
fn method_refusal(
    method: Option<Method>,
    found: Option<&Tagged>,
    is_full: bool,
    request: &Request,
) -> Option<Code>
    ensures { result ≡ first_failing (method_checks method (option_copied found.entry) is_full request.now) }
{
    match method {
        Some(Method::Get) => match found {
            None => Some(Code::NOT_FOUND),
            Some(found) => {
                if is_acceptable(request.accept, found.resource().format) {
                    None
                } else {
                    Some(Code::NOT_ACCEPTABLE)
                }
            }
        },
        Some(Method::Put) => write_refusal(request.payload.len(), found.is_none() && is_full),
        Some(Method::Post) => write_refusal(
            payload_length(found) + request.payload.len(),
            found.is_none() && is_full,
        ),
        Some(Method::Delete) | None => None,
    }
}

// What refuses a resource of this length, which `is_over` would be one too many.
fn write_refusal(length: usize, is_over: bool) -> Option<Code>
    ensures { result ≡ first_failing ((nat_le length longest_payload, code 4 13) ∷ (not is_over, code 5 3) ∷ []) }
{
    if length > LONGEST_PAYLOAD {
        Some(Code::REQUEST_ENTITY_TOO_LARGE)
    } else if is_over {
        Some(Code::SERVICE_UNAVAILABLE)
    } else {
        None
    }
}

// The length of what is there; nothing counts as no bytes.
fn payload_length(found: Option<&Tagged>) -> usize
    ensures length { result ≡ length_of (option_copied found.entry) }
    ensures small { result < 2 ^ 63 }
{
    match found {
        None => 0,
        Some(found) => found.resource().payload.len(),
    }
}

// If-Match (RFC 7252 section 5.10.8.1): whether there is no value, or one of them is the ETag of what is there, or
// is empty and something is there.
fn is_matched(found: Option<&Tagged>, tags: &[ETag]) -> bool
    ensures { result ≡ matches (option_copied found.entry) tags.now }
{
    if tags.is_empty() {
        return true;
    }
    match found {
        None => false,
        Some(found) => has_match(tags, &found.tag()),
    }
}

// Whether one of these is empty or the resource's own.
fn has_match(tags: &[ETag], own: &[u8]) -> bool
    ensures { result ≡ list_any (λ t. length t == 0 || bytes_eq t own.now) tags.now }
{
    tags.iter()
        .any(|tag| tag.is_empty() || tag.as_slice() == own)
}

// Accept (RFC 7252 section 5.10.4): whether there is none, or the resource has no format, or that one.
fn is_acceptable(accept: Option<u16>, format: Option<u16>) -> bool
    ensures { result ≡ accepts accept format }
{
    match (accept, format) {
        (Some(accepted), Some(format)) => format == accepted,
        _ => true,
    }
}

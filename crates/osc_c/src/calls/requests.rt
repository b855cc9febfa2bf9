//! Requests of numbers and bytes.
ghost use Rattle.std.specs.Prelude.{◌≡◌, ◌<◌, IfErr, IfOk, OnOk};
ghost use Rattle.osc_c.specs.Arguments.{IsUnfit};
ghost use Rattle.osc_c.specs.Given.{request_size};
ghost use Rattle.osc_c.specs.Requests.{IsMethodNumber, IsRequest, IsTag, MakeARequest, tags_of};
ghost use Rattle.osc_c.specs.declared.calls.outcome.Outcome.TheVariants.{BadArgument};

use crate::calls::arguments;
use crate::calls::arguments::{flag, sized};
use crate::calls::outcome::Outcome;
use crate::calls::plain::{PlainOptions, PlainRequest};
use osc_model::{Bytes, Code, ETags, Request};
use std::alloc::{AllocError, Global};

/// The most bytes of a value of If-Match (RFC 7252 section 5.10).
const LONGEST_TAG: u8 = 8;

/// The request that these numbers and bytes are. They are judged before memory is taken.
pub(crate) fn request(alloc: Global, given: &PlainRequest<'_>) -> Result<Request, Outcome>
    ensures ok { IfOk result (λ request. IsRequest given.now.method given.now.path.bytes.now given.now.options given.now.payload.bytes.now request) }
    ensures code { IfOk result (λ request. 0 < request.code.0) }
    ensures fits { OnOk result ((given.now.size ≡ request_size) × MakeARequest given.now.method given.now.path.bytes.now given.now.options) }
    ensures err { IfErr result (IsUnfit ((given.now.size ≡ request_size) × MakeARequest given.now.method given.now.path.bytes.now given.now.options)) }
{
    sized(given.size, size_of::<PlainRequest<'_>>())?;
    let code = code(given.method)?;
    let format = arguments::format(given.options.format)?;
    let accept = arguments::format(given.options.accept)?;
    let if_none_match = flag(given.options.if_none_match)?;
    tag(&given.options)?;
    let path = arguments::path(alloc, given.path.bytes)?;
    Ok(Request {
        code,
        path: Some(path),
        format,
        accept,
        if_match: tags(alloc, &given.options)?,
        if_none_match,
        payload: Bytes::from_slice(alloc, given.payload.bytes)?,
    })
}

/// The code of the method of this number.
fn code(method: u8) -> Result<Code, Outcome>
    ensures ok { IfOk result (λ code. (code.0 ≡ method) × IsMethodNumber method) }
    ensures err { IfErr result (λ outcome. (outcome ≡ BadArgument) × ¬ (IsMethodNumber method)) }
{
    if method == 0 || method > 4 {
        return Err(Outcome::BadArgument);
    }
    Ok(Code(method))
}

/// Refuses what says no value of If-Match.
fn tag(options: &PlainOptions) -> Result<(), Outcome>
    ensures ok { OnOk result (IsTag options.now) }
    ensures err { IfErr result (λ outcome. (outcome ≡ BadArgument) × ¬ (IsTag options.now)) }
{
    if flag(options.if_match)? && options.if_match_length > LONGEST_TAG {
        return Err(Outcome::BadArgument);
    }
    Ok(())
}

/// The values of If-Match: none, or one of 0 to 8 bytes.
fn tags(alloc: Global, options: &PlainOptions) -> Result<ETags, AllocError>
    requires { IsTag options.now }
    ensures { IfOk result (λ tags. tags ≡ tags_of options.now) }
{
    let mut tags = ETags::new(alloc);
    if options.if_match != 1 {
        return Ok(tags);
    }
    let (tag, _) = options
        .if_match_bytes
        .split_at(options.if_match_length as usize);
    tags.push(alloc, tag)?;
    Ok(tags)
}

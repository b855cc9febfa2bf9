//! What a device does at its own server.
ghost use Rattle.std.specs.Prelude.{◌≡◌, ◌≢◌, pos};
ghost use Rattle.osc_model.specs.declared.code.Method.TheVariants.{Post, Put};
ghost use Rattle.osc_device.specs.declared.ruling.Ruling.TheVariants.{Allow, Revoke};
ghost use Rattle.osc_c.specs.Given.{value_given};
ghost use Rattle.osc_c.specs.Own.{AsksBy, IsSoWhereDone, OpensBy, RemovesBy, RulesBy};
ghost use Rattle.osc_c.specs.Calls.{Tells};
ghost use Rattle.osc_c.specs.Keeping.{StepsAs};
ghost use Rattle.osc_c.specs.Inner.Lending.{IsTold};
ghost use Rattle.osc_c.specs.declared.calls.outcome.Outcome.TheVariants as outcome;
ghost use Rattle.osc_c.specs.Ciphers.{sealing, tags};

use crate::calls::{Outcome, PlainDraws, PlainResource, Told};
use crate::handle::with;
use crate::handles::DeviceHandle;
use osc_ccm::Suite;
use osc_device::Ruling;
use osc_model::Method;
use std::alloc::Global;

/// Tells the code, and gives the outcome.
fn tell(told: Told, code: &mut u8) -> Outcome
    ensures outcome { result ≡ told.outcome }
    ensures code { code.new ≡ told.code }
{
    *code = told.code;
    told.outcome
}

/// Gives the device a security context with its server. `code` is that of an unprotected answer where 36 is answered, and else 0.
///
/// Answers 0; or 9 without memory, 17 where something is open, 34 where the moment isn't one, 40 where what the last step changed isn't kept, 33 where
/// nothing is held: then what was held is held; or 35 or 36. Heap: some 2 KiB, while the context lives.
#[unsafe(no_mangle)]
pub extern "C" fn nzf_device_open(
    alloc: Global,
    device: &mut DeviceHandle,
    now: u64,
    draws: &PlainDraws,
    code: &mut u8,
) -> i32
    ensures tells { Tells device.old.held code.old (record { number = result; code = code.new }) device.new.held
        (λ old told new. StepsAs old told new (λ old told new. OpensBy sealing old now draws.now told new)) }
    ensures fits { result ≢ pos 14 }
{
    with(
        alloc,
        device,
        &mut |node|
            ensures tells { IsTold result code.exit.now (λ told. StepsAs node.old told node.new (λ old told new. OpensBy sealing old now draws.entry.now told new)) }
            ensures fits { result ≢ outcome.TooLong }
        { tell(node.open::<Suite>(alloc, now, draws), code) },
    )
    .number()
}

/// Puts this value at its path, as a holder of the device's token does. `code` is the answer's, where 0 or 36 is answered, and else 0.
///
/// Answers 0; or 9, 14, 17, 18, 22, 33, 34, 40: then what was held is held; or 35 or 36. Heap: what is stored.
#[unsafe(no_mangle)]
pub extern "C" fn nzf_device_put(
    alloc: Global,
    device: &mut DeviceHandle,
    now: u64,
    resource: &PlainResource<'_>,
    draws: &PlainDraws,
    code: &mut u8,
) -> i32
    ensures { Tells device.old.held code.old (record { number = result; code = code.new }) device.new.held
        (λ old told new. StepsAs old told new (λ old told new.
        AsksBy sealing tags old (record { method = Put; value = value_given now resource.now; draws = draws.now }) told new)) }
{
    with(
        alloc,
        device,
        &mut |node|
            ensures { IsTold result code.exit.now (λ told. StepsAs node.old told node.new (λ old told new.
                AsksBy sealing tags old (record { method = Put; value = value_given now resource.entry.now; draws = draws.entry.now }) told new)) }
        {
            tell(
                node.write::<Suite>(alloc, Method::Put, now, resource, draws),
                code,
            )
        },
    )
    .number()
}

/// Appends this to the value at its path. Otherwise as `nzf_device_put`.
#[unsafe(no_mangle)]
pub extern "C" fn nzf_device_append(
    alloc: Global,
    device: &mut DeviceHandle,
    now: u64,
    resource: &PlainResource<'_>,
    draws: &PlainDraws,
    code: &mut u8,
) -> i32
    ensures { Tells device.old.held code.old (record { number = result; code = code.new }) device.new.held
        (λ old told new. StepsAs old told new (λ old told new.
        AsksBy sealing tags old (record { method = Post; value = value_given now resource.now; draws = draws.now }) told new)) }
{
    with(
        alloc,
        device,
        &mut |node|
            ensures { IsTold result code.exit.now (λ told. StepsAs node.old told node.new (λ old told new.
                AsksBy sealing tags old (record { method = Post; value = value_given now resource.entry.now; draws = draws.entry.now }) told new)) }
        {
            tell(
                node.write::<Suite>(alloc, Method::Post, now, resource, draws),
                code,
            )
        },
    )
    .number()
}

/// Removes what is at the path. Otherwise as `nzf_device_put`.
#[unsafe(no_mangle)]
pub extern "C" fn nzf_device_remove(
    alloc: Global,
    device: &mut DeviceHandle,
    now: u64,
    path: &[u8],
    draws: &PlainDraws,
    code: &mut u8,
) -> i32
    ensures { Tells device.old.held code.old (record { number = result; code = code.new }) device.new.held
        (λ old told new. StepsAs old told new (λ old told new.
        RemovesBy sealing tags old (record { ms = now; path = path.now; draws = draws.now }) told new)) }
{
    with(
        alloc,
        device,
        &mut |node|
            ensures { IsTold result code.exit.now (λ told. StepsAs node.old told node.new (λ old told new.
                RemovesBy sealing tags old (record { ms = now; path = path.entry.now; draws = draws.entry.now }) told new)) }
        { tell(node.remove::<Suite>(alloc, now, path, draws), code) },
    )
    .number()
}

/// Revokes the tokens of this id: puts an empty value at the path that is for it below the revocation path.
///
/// Answers 0 where they are revoked now, and 39 where the request was refused, by `code`; else as `nzf_device_put`, and 34 where the device has no
/// revocation path, or the id is too long for one. Heap: what is stored; the 2 KiB that the device keeps in hand for this are given back for the call.
#[unsafe(no_mangle)]
pub extern "C" fn nzf_device_revoke(
    alloc: Global,
    device: &mut DeviceHandle,
    now: u64,
    id: &[u8],
    draws: &PlainDraws,
    code: &mut u8,
) -> i32
    ensures { Tells device.old.held code.old (record { number = result; code = code.new }) device.new.held
        (λ old told new. StepsAs old told new (λ old told new. RulesBy sealing tags Revoke old (record { ms = now; id = id.now; draws = draws.now }) told new
        × IsSoWhereDone Revoke (record { ms = now; id = id.now; draws = draws.now }) told new)) }
{
    with(
        alloc,
        device,
        &mut |node|
            ensures { IsTold result code.exit.now (λ told. StepsAs node.old told node.new (λ old told new. RulesBy sealing tags Revoke old (record { ms = now; id = id.entry.now; draws = draws.entry.now }) told new
                × IsSoWhereDone Revoke (record { ms = now; id = id.entry.now; draws = draws.entry.now }) told new)) }
        {
            tell(
                node.rule::<Suite>(alloc, Ruling::Revoke, now, id, draws),
                code,
            )
        },
    )
    .number()
}

/// Lets the tokens of this id in again: removes what is at the path that is for it. Answers 0 where they aren't revoked now. Otherwise as
/// `nzf_device_revoke`.
#[unsafe(no_mangle)]
pub extern "C" fn nzf_device_allow(
    alloc: Global,
    device: &mut DeviceHandle,
    now: u64,
    id: &[u8],
    draws: &PlainDraws,
    code: &mut u8,
) -> i32
    ensures { Tells device.old.held code.old (record { number = result; code = code.new }) device.new.held
        (λ old told new. StepsAs old told new (λ old told new. RulesBy sealing tags Allow old (record { ms = now; id = id.now; draws = draws.now }) told new
        × IsSoWhereDone Allow (record { ms = now; id = id.now; draws = draws.now }) told new)) }
{
    with(
        alloc,
        device,
        &mut |node|
            ensures { IsTold result code.exit.now (λ told. StepsAs node.old told node.new (λ old told new. RulesBy sealing tags Allow old (record { ms = now; id = id.entry.now; draws = draws.entry.now }) told new
                × IsSoWhereDone Allow (record { ms = now; id = id.entry.now; draws = draws.entry.now }) told new)) }
        {
            tell(
                node.rule::<Suite>(alloc, Ruling::Allow, now, id, draws),
                code,
            )
        },
    )
    .number()
}

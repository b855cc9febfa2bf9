//! What a device has, and what its server served and refused.
ghost use Rattle.std.specs.Prelude.{◌≡◌};
ghost use Rattle.osc_c.specs.Filled.{IsRefusedSize, IsServedSize, IsValueSize};
ghost use Rattle.osc_c.specs.Serving.{TellsRefused, TellsServed, served_by_last};
ghost use Rattle.osc_c.specs.Told.{TellsLearnt};
ghost use Rattle.osc_c.specs.Values.{TellsValueAt};
ghost use Rattle.osc_c.specs.Calls.{Looks, LooksWhere};

use crate::calls::{PlainRefused, PlainServed, PlainValue};
use crate::handle::with;
use crate::handles::DeviceHandle;
use std::alloc::Global;

/// What is at a path, with its ETag.
///
/// Answers 0; or 34 where `size` is neither that of the struct nor that without the ETag, 33 where nothing is there, or nothing is held, 2 where `payload`
/// is too short, 34 where the text is no path, and 9 without memory. Heap: the path, for the call.
#[unsafe(no_mangle)]
pub extern "C" fn nzf_device_get(
    alloc: Global,
    device: &mut DeviceHandle,
    path: &[u8],
    payload: &mut [u8],
    value: &mut PlainValue,
) -> i32
    ensures { LooksWhere (IsValueSize value.old.size) ((value.new ≡ value.old) × (payload.new ≡ payload.old)) device.old.held result device.new.held (λ kept outcome.
        TellsValueAt kept.node path.now (record { payload = payload.old; value = value.old }) outcome (record { payload = payload.new; value = value.new })) }
{
    match value.sized() {
        Ok(()) => value_at(alloc, device, path, payload, value),
        Err(outcome) => outcome.number(),
    }
}

/// The same, where the size is one of the two.
fn value_at(
    alloc: Global,
    device: &mut DeviceHandle,
    path: &[u8],
    payload: &mut [u8],
    value: &mut PlainValue,
) -> i32
    ensures { Looks device.old.held result device.new.held (λ kept outcome.
        TellsValueAt kept.node path.now (record { payload = payload.old; value = value.old }) outcome (record { payload = payload.new; value = value.new })) }
{
    with(
        alloc,
        device,
        &mut |kept| kept.node.get(alloc, path, payload, value),
    )
    .number()
}

/// The protected request that the last step served, with the id of the token that made its context and the ETag of the answer. Its path, its payload and
/// its id context are written one after the other.
///
/// Answers 0; or 34 where `size` is neither that of the struct nor that without token and ETag, 33 where it served none, or nothing is held, and 2 where
/// `bytes` is too short. Heap: none.
#[unsafe(no_mangle)]
pub extern "C" fn nzf_device_served(
    alloc: Global,
    device: &mut DeviceHandle,
    served: &mut PlainServed,
    bytes: &mut [u8],
) -> i32
    ensures { LooksWhere (IsServedSize served.old.size) ((served.new ≡ served.old) × (bytes.new ≡ bytes.old)) device.old.held result device.new.held
        (λ kept outcome. TellsServed (served_by_last kept.node.last) served.old bytes.old outcome served.new bytes.new) }
{
    match served.sized() {
        Ok(()) => served_last(alloc, device, served, bytes),
        Err(outcome) => outcome.number(),
    }
}

/// The same, where the size is one of the two.
fn served_last(
    alloc: Global,
    device: &mut DeviceHandle,
    served: &mut PlainServed,
    bytes: &mut [u8],
) -> i32
    ensures { Looks device.old.held result device.new.held (λ kept outcome. TellsServed (served_by_last kept.node.last) served.old bytes.old outcome served.new bytes.new) }
{
    with(alloc, device, &mut |kept| kept.node.served(served, bytes)).number()
}

/// What the last tick learnt of what a call left open where it answered 35. `code` is the answer's.
///
/// Answers 0 or 36, as that call would have; or 33 where it learnt nothing, or nothing is held. Heap: none.
#[unsafe(no_mangle)]
pub extern "C" fn nzf_device_learnt(alloc: Global, device: &mut DeviceHandle, code: &mut u8) -> i32
    ensures { Looks device.old.held result device.new.held (λ kept outcome. TellsLearnt kept.node.last.own code.old outcome code.new) }
{
    with(alloc, device, &mut |kept| kept.node.learnt(code)).number()
}

/// The request that the last step refused; where it is a post whose token opened, with the token's id.
///
/// Answers 0; or 34 where `size` is neither that of the struct nor that without the token, and 33 where it refused none, or nothing is held. Heap: none.
#[unsafe(no_mangle)]
pub extern "C" fn nzf_device_refused(
    alloc: Global,
    device: &mut DeviceHandle,
    refused: &mut PlainRefused,
) -> i32
    ensures { LooksWhere (IsRefusedSize refused.old.size) (refused.new ≡ refused.old) device.old.held result device.new.held
        (λ kept outcome. TellsRefused kept.node.last.step refused.old outcome refused.new) }
{
    match refused.sized() {
        Ok(()) => with(alloc, device, &mut |kept| kept.node.refused(refused)).number(),
        Err(outcome) => outcome.number(),
    }
}

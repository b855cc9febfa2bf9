//! A device whose holder keeps what its steps change: what that is, and that it is kept.
ghost use Rattle.std.specs.Prelude.{◌≡◌};
ghost use Rattle.osc_c.specs.Calls.{Calls, Looks, LooksWhere};
ghost use Rattle.osc_c.specs.Changes.{TellsChange, change_of};
ghost use Rattle.osc_c.specs.Given.{change_size};
ghost use Rattle.osc_c.specs.Keeping.{SettlesBy, StartsKeeping};

use crate::calls::PlainChange;
use crate::handle::with;
use crate::handles::DeviceHandle;
use std::alloc::Global;

/// What the last step changed: the path, and what it has now, where it has something. Both are written one after the other.
///
/// Answers 0; or 34 where `size` isn't that of the struct, 33 where it changed nothing, or nothing is held, and 2 where `bytes` is too short. Heap: none.
#[unsafe(no_mangle)]
pub extern "C" fn nzf_device_changed(
    alloc: Global,
    device: &mut DeviceHandle,
    change: &mut PlainChange,
    bytes: &mut [u8],
) -> i32
    ensures { LooksWhere (change.old.size ≡ change_size) ((change.new ≡ change.old) × (bytes.new ≡ bytes.old)) device.old.held result device.new.held
        (λ kept outcome. TellsChange (change_of kept) change.old bytes.old outcome change.new bytes.new) }
{
    match change.sized() {
        Ok(()) => changed_last(alloc, device, change, bytes),
        Err(outcome) => outcome.number(),
    }
}

/// The same, where the size is that of the struct.
fn changed_last(
    alloc: Global,
    device: &mut DeviceHandle,
    change: &mut PlainChange,
    bytes: &mut [u8],
) -> i32
    ensures { Looks device.old.held result device.new.held (λ kept outcome. TellsChange (change_of kept) change.old bytes.old outcome change.new bytes.new) }
{
    with(alloc, device, &mut |kept| kept.changed(change, bytes)).number()
}

/// From now on what a step changes, the last one's too, is kept by the holder before anything of the step is handed out.
///
/// Answers 0; or 33 where nothing is held, and 40 where what a step changed couldn't be kept: then all stays. Heap: none.
#[unsafe(no_mangle)]
pub extern "C" fn nzf_device_keeps(alloc: Global, device: &mut DeviceHandle) -> i32
    ensures { Calls device.old.held result device.new.held (λ old outcome new. StartsKeeping old.keeping old outcome new) }
{
    with(alloc, device, &mut |kept| kept.start_keeping()).number()
}

/// Whether what the last step changed is kept: 1, so that its datagrams are handed out; or 0, so that nothing of it is, and no other step is made.
///
/// Answers 0; or 34 where it is neither 1 nor 0, 33 where nothing waits to be kept, or nothing is held, and 40 where what a step changed couldn't be kept:
/// then all stays. Heap: none.
#[unsafe(no_mangle)]
pub extern "C" fn nzf_device_kept(alloc: Global, device: &mut DeviceHandle, is_kept: u8) -> i32
    ensures { Calls device.old.held result device.new.held (λ old outcome new. SettlesBy old is_kept outcome new) }
{
    with(alloc, device, &mut |kept| kept.settle(is_kept)).number()
}

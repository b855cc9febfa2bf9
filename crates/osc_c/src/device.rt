//! A device.
ghost use Rattle.std.specs.Prelude.{◌≡◌, []};
ghost use Rattle.std.specs.declared.option.Option.TheVariants.{None};
ghost use Rattle.osc_c.specs.Device.{HeardBy, Restarts, TellsDeadline, TickedBy};
ghost use Rattle.osc_c.specs.Given.{device_given};
ghost use Rattle.osc_c.specs.Keeping.{HandsOutKept, StepsBy};
ghost use Rattle.osc_c.specs.Making.{IsNewDevice, IsNoNewDevice};
ghost use Rattle.osc_c.specs.Plain.{draw_of, peer_of};
ghost use Rattle.osc_c.specs.declared.calls.keeping.Keeping.TheVariants.{Off};
ghost use Rattle.osc_c.specs.declared.calls.outcome.Outcome.TheVariants.{Done};
ghost use Rattle.osc_c.specs.Calls.{Calls, Looks, Makes};
ghost use Rattle.osc_c.specs.Ciphers.{sealing};

use crate::calls::{KeptNode, PlainDeviceSettings, PlainDraw, PlainPeer, PlainResource};
use crate::handle::{hold, taken, with};
use crate::handles::DeviceHandle;
use osc_ccm::Suite;
use std::alloc::Global;

/// Makes a device without resources, in the place of one that is held. Its server takes tokens that are sealed under `key` and for `audience`.
/// GETs that `unprotected` grants need no protection. The device itself may do what `own` grants. Tokens under a former key are taken, too, a context counts
/// for this number of seconds, and resources below the path of the text `revoked`, which is empty for none, revoke tokens.
///
/// Answers 0; or 9 without memory, 14 where its token is too long to be posted in a datagram, 24 where a text is no scope, and 34 where `size` isn't
/// that of the struct, the audience is no UTF-8, a flag isn't 0 or 1, or `revoked` is no path, or one of more than 4 segments. Then what was held is
/// held. Heap: some 50 KiB, for as long as it is held.
#[unsafe(no_mangle)]
pub extern "C" fn nzf_device_new(
    alloc: Global,
    device: &mut DeviceHandle,
    settings: &PlainDeviceSettings<'_>,
    draw: &PlainDraw,
) -> i32
    ensures { Makes device.old.held result device.new.held (λ kept. IsNewDevice sealing (device_given settings.now) [] draw.now.bytes kept.node × (kept.keeping ≡ Off))
        (IsNoNewDevice (device_given settings.now) [] draw.now.bytes) }
{
    hold(
        alloc,
        device,
        KeptNode::new::<Suite>(alloc, settings, &[], draw),
    )
    .number()
}

/// Makes a device with these resources: those that were kept of one that is gone. None of them is a change.
///
/// Answers as `nzf_device_new`; and 34 where one of them isn't a value for a path, has a payload of more than 512 bytes, or there are more than 1,024
/// paths. Heap: that of `nzf_device_new`, and what is stored.
#[unsafe(no_mangle)]
pub extern "C" fn nzf_device_new_with(
    alloc: Global,
    device: &mut DeviceHandle,
    settings: &PlainDeviceSettings<'_>,
    first: &[PlainResource<'_>],
    draw: &PlainDraw,
) -> i32
    ensures { Makes device.old.held result device.new.held
        (λ kept. IsNewDevice sealing (device_given settings.now) first.now draw.now.bytes kept.node × (kept.keeping ≡ Off))
        (IsNoNewDevice (device_given settings.now) first.now draw.now.bytes) }
{
    hold(
        alloc,
        device,
        KeptNode::new::<Suite>(alloc, settings, first, draw),
    )
    .number()
}

/// These bytes came from this peer at this moment as one datagram.
///
/// Answers 0; or 9 without memory to answer them, 34 where the moment isn't one or the peer is 0.0.0.0, 40 where what the last step changed isn't kept,
/// and 33 where nothing is held: then what was held is held. Heap: for the step.
#[unsafe(no_mangle)]
pub extern "C" fn nzf_device_on_datagram(
    alloc: Global,
    device: &mut DeviceHandle,
    now: u64,
    from: &PlainPeer,
    bytes: &[u8],
    draw: &PlainDraw,
) -> i32
    ensures { Calls device.old.held result device.new.held (λ old outcome new. StepsBy old outcome new (λ old outcome new.
        HeardBy sealing old (record { ms = now; from = peer_of from.now; bytes = bytes.now }) (draw_of draw.now) outcome new)) }
{
    with(
        alloc,
        device,
        &mut |node|
            ensures { StepsBy node.old result node.new (λ old outcome new.
                HeardBy sealing old (record { ms = now; from = peer_of from.entry.now; bytes = bytes.entry.now }) (draw_of draw.entry.now) outcome new) }
        { node.on_datagram::<Suite>(alloc, now, from, bytes, draw) },
    )
    .number()
}

/// What is due by now is done, whatever memory there is.
///
/// Answers 0, or 35 where what should have gone out was lost for lack of memory; or 34 where the moment isn't one, 40 where what the last step changed
/// isn't kept, and 33 where nothing is held: then what was held is held. Heap: for what is sent.
#[unsafe(no_mangle)]
pub extern "C" fn nzf_device_on_tick(
    alloc: Global,
    device: &mut DeviceHandle,
    now: u64,
    draw: &PlainDraw,
) -> i32
    ensures { Calls device.old.held result device.new.held (λ old outcome new. StepsBy old outcome new (λ old outcome new.
        TickedBy sealing old now (draw_of draw.now) outcome new)) }
{
    with(
        alloc,
        device,
        &mut |node|
            ensures { StepsBy node.old result node.new (λ old outcome new. TickedBy sealing old now (draw_of draw.entry.now) outcome new) }
        { node.on_tick::<Suite>(alloc, now, draw) },
    )
    .number()
}

/// The first moment at which a tick does anything for the device itself.
///
/// Answers 0; or 33 where none would, or nothing is held. Heap: none.
#[unsafe(no_mangle)]
pub extern "C" fn nzf_device_next_deadline(
    alloc: Global,
    device: &mut DeviceHandle,
    moment: &mut u64,
) -> i32
    ensures { Looks device.old.held result device.new.held (λ kept outcome. TellsDeadline kept.node moment.old outcome moment.new) }
{
    with(alloc, device, &mut |kept| kept.node.next_deadline(moment)).number()
}

/// Takes the next datagram of the last step.
///
/// Answers 0 with its bytes and to whom they go; or 33 once all were taken, or where nothing is held, 2 where `bytes` is too short: the
/// datagram stays to be taken; and 40 where what the step changed isn't kept. Heap: none.
#[unsafe(no_mangle)]
pub extern "C" fn nzf_device_next(
    alloc: Global,
    device: &mut DeviceHandle,
    to: &mut PlainPeer,
    bytes: &mut [u8],
    length: &mut usize,
) -> i32
    ensures { Calls device.old.held result device.new.held (λ old outcome new. HandsOutKept old (record { to = to.old; bytes = bytes.old; size = length.old }) outcome new (record { to = to.new; bytes = bytes.new; size = length.new })) }
{
    with(alloc, device, &mut |node| node.next(to, bytes, length)).number()
}

/// Starts again: resources stay, and security contexts are gone.
///
/// Answers 0; or 33 where nothing is held, and 40 where what the last step changed isn't kept: then all stays. Heap: none.
#[unsafe(no_mangle)]
pub extern "C" fn nzf_device_restart(alloc: Global, device: &mut DeviceHandle) -> i32
    ensures { Calls device.old.held result device.new.held (λ old outcome new. StepsBy old outcome new (λ old outcome new. (outcome ≡ Done) × Restarts old new)) }
{
    with(
        alloc,
        device,
        &mut |node|
            ensures { StepsBy node.old result node.new (λ old outcome new. (outcome ≡ Done) × Restarts old new) }
        { node.restart() },
    )
    .number()
}

/// Lets the device go, so that nothing is held.
#[unsafe(no_mangle)]
pub extern "C" fn nzf_device_free(alloc: Global, device: &mut DeviceHandle)
    ensures { device.new.held ≡ None }
{
    drop(taken(alloc, device));
}

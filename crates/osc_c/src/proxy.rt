//! A forward proxy.
ghost use Rattle.std.specs.Prelude.{◌≡◌, ◌⊎◌, pos};
ghost use Rattle.std.specs.declared.option.Option.TheVariants.{None, Some};
ghost use Rattle.osc_c.specs.Last.{HandsOut, nothing};
ghost use Rattle.osc_c.specs.Plain.{draw_of, peer_of};
ghost use Rattle.osc_c.specs.Proxy.{AddsTarget, HeardBy, Paces, TellsDeadline, TickedBy, restarted_from};
ghost use Rattle.osc_c.specs.Settings.{no_settings};
ghost use Rattle.osc_c.specs.declared.calls.outcome.Outcome.TheVariants.{Done};
ghost use Rattle.osc_c.specs.declared.calls.proxy.Forwarding.TheVariants.{Setting};
ghost use Rattle.osc_c.specs.Calls.{Calls, Looks};

use crate::calls::{Outcome, PlainDraw, PlainPeer, ProxyNode};
use crate::handle::{hold, taken, with};
use crate::handles::ProxyHandle;
use std::alloc::Global;

/// Makes a proxy without targets, which sends one confirmable message at a time to a peer, in the place of one that is held.
///
/// Answers 0; or 9 without memory: then what was held is held. Heap: some 750 bytes, and from the first event on some 137 KiB.
#[unsafe(no_mangle)]
pub extern "C" fn nzf_proxy_new(alloc: Global, proxy: &mut ProxyHandle) -> i32
    ensures { ((result ≡ pos 0) × (proxy.new.held ≡ Some (record { forwarding = Setting no_settings; last = nothing }))) ⊎ ((result ≡ pos 9) × (proxy.new.held ≡ proxy.old.held)) }
{
    hold(alloc, proxy, Ok(ProxyNode::new(alloc))).number()
}

/// Requests for this host and port go there.
///
/// Answers 0; or 34 where the host hasn't 1 to 255 bytes, 37 after the first event, 9 without memory, and 33 where nothing is held: then what was
/// held is held. Heap: the host.
#[unsafe(no_mangle)]
pub extern "C" fn nzf_proxy_add_target(
    alloc: Global,
    proxy: &mut ProxyHandle,
    host: &[u8],
    port: u16,
    to: &PlainPeer,
) -> i32
    ensures { Calls proxy.old.held result proxy.new.held (λ old outcome new. AddsTarget (record { host = host.now; port = port; peer = peer_of to.now }) old outcome new) }
{
    with(
        alloc,
        proxy,
        &mut |node| node.add_target(alloc, host, port, to),
    )
    .number()
}

/// Up to so many confirmable messages of the proxy's own may be outstanding to a peer, as long as none to it is lost.
///
/// Answers 0; or 34 where that isn't 1 to 16, 37 after the first event, and 33 where nothing is held: then what was held is held. Heap: none; at the
/// first event some 6 KiB more for each above 1.
#[unsafe(no_mangle)]
pub extern "C" fn nzf_proxy_set_outstanding(alloc: Global, proxy: &mut ProxyHandle, most: u8) -> i32
    ensures { Calls proxy.old.held result proxy.new.held (λ old outcome new. Paces most old outcome new) }
{
    with(alloc, proxy, &mut |node| node.pace(most)).number()
}

/// These bytes came from this peer at this moment as one datagram.
///
/// Answers 0; or 9 without memory, 34 where the moment isn't one, and 33 where nothing is held: then what was held is held. Heap: for the step, and
/// for what is forwarded; at the first event some 137 KiB.
#[unsafe(no_mangle)]
pub extern "C" fn nzf_proxy_on_datagram(
    alloc: Global,
    proxy: &mut ProxyHandle,
    now: u64,
    from: &PlainPeer,
    bytes: &[u8],
    draw: &PlainDraw,
) -> i32
    ensures { Calls proxy.old.held result proxy.new.held (λ old outcome new.
        HeardBy old (record { ms = now; from = peer_of from.now; bytes = bytes.now }) (draw_of draw.now) outcome new) }
{
    with(
        alloc,
        proxy,
        &mut |node|
            ensures { HeardBy node.old (record { ms = now; from = peer_of from.entry.now; bytes = bytes.entry.now }) (draw_of draw.entry.now) result node.new }
        { node.on_datagram(alloc, now, from, bytes, draw) },
    )
    .number()
}

/// What is due by now is done.
///
/// Answers 0, or 35 where what should have gone out was lost for lack of memory; or 9 without memory, 34 where the moment isn't one, and 33 where
/// nothing is held: then what was held is held. Heap: for the step; at the first event some 137 KiB.
#[unsafe(no_mangle)]
pub extern "C" fn nzf_proxy_on_tick(
    alloc: Global,
    proxy: &mut ProxyHandle,
    now: u64,
    draw: &PlainDraw,
) -> i32
    ensures { Calls proxy.old.held result proxy.new.held (λ old outcome new. TickedBy old now (draw_of draw.now) outcome new) }
{
    with(
        alloc,
        proxy,
        &mut |node|
            ensures { TickedBy node.old now (draw_of draw.entry.now) result node.new }
        { node.on_tick(alloc, now, draw) },
    )
    .number()
}

/// The first moment at which a tick does anything.
///
/// Answers 0; or 33 where none would, or nothing is held. Heap: none.
#[unsafe(no_mangle)]
pub extern "C" fn nzf_proxy_next_deadline(
    alloc: Global,
    proxy: &mut ProxyHandle,
    moment: &mut u64,
) -> i32
    ensures { Looks proxy.old.held result proxy.new.held (λ node outcome. TellsDeadline node moment.old outcome moment.new) }
{
    with(alloc, proxy, &mut |node| node.next_deadline(moment)).number()
}

/// Takes the next datagram of the last step.
///
/// Answers 0 with its bytes and to whom they go; or 33 once all were taken, or where nothing is held, and 2 where `bytes` is too short: the
/// datagram stays to be taken. Heap: none.
#[unsafe(no_mangle)]
pub extern "C" fn nzf_proxy_next(
    alloc: Global,
    proxy: &mut ProxyHandle,
    to: &mut PlainPeer,
    bytes: &mut [u8],
    length: &mut usize,
) -> i32
    ensures { Calls proxy.old.held result proxy.new.held (λ old outcome new. HandsOut old.last (record { to = to.old; bytes = bytes.old; size = length.old }) outcome new.last (record { to = to.new; bytes = bytes.new; size = length.new }) × (new.forwarding ≡ old.forwarding)) }
{
    with(alloc, proxy, &mut |node| node.next(to, bytes, length)).number()
}

/// Starts again: it forgets what it heard, and keeps its targets.
///
/// Answers 0; or 33 where nothing is held. Heap: none.
#[unsafe(no_mangle)]
pub extern "C" fn nzf_proxy_restart(alloc: Global, proxy: &mut ProxyHandle) -> i32
    ensures { Calls proxy.old.held result proxy.new.held (λ old outcome new. (outcome ≡ Done) × (new ≡ record { forwarding = restarted_from old.forwarding; last = nothing })) }
{
    with(
        alloc,
        proxy,
        &mut |node| {
            node.restart();
            Outcome::Done
        },
    )
    .number()
}

/// Lets the proxy go, so that nothing is held.
#[unsafe(no_mangle)]
pub extern "C" fn nzf_proxy_free(alloc: Global, proxy: &mut ProxyHandle)
    ensures { proxy.new.held ≡ None }
{
    drop(taken(alloc, proxy));
}

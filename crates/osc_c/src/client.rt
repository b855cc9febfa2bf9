//! A client.
ghost use Rattle.std.specs.Prelude.{◌≡◌};
ghost use Rattle.std.specs.declared.option.Option.TheVariants.{None};
ghost use Rattle.osc_client.specs.{restarted};
ghost use Rattle.osc_c.specs.Client.{AskedBy, BegunBy, HeardBy, IsNewClient, TellsContext, TellsDeadline, TickedBy};
ghost use Rattle.osc_c.specs.Arguments.{IsUnfit};
ghost use Rattle.osc_c.specs.Filled.{IsResultSize};
ghost use Rattle.osc_c.specs.Given.{grant_given, request_given};
ghost use Rattle.osc_c.specs.Granted.{FitsClient};
ghost use Rattle.osc_c.specs.Last.{HandsOut, nothing};
ghost use Rattle.osc_c.specs.Plain.{draw_of, peer_of};
ghost use Rattle.osc_c.specs.Results.{TellsResult, learnt_in};
ghost use Rattle.osc_c.specs.declared.calls.outcome.Outcome.TheVariants.{Done};
ghost use Rattle.osc_c.specs.Calls.{Calls, Looks, LooksWhere, Makes};
ghost use Rattle.osc_c.specs.Ciphers.{sealing, tags};

use crate::calls::{
    ClientNode, Outcome, PlainClientSettings, PlainDraw, PlainPeer, PlainRequest, PlainResult,
};
use crate::handle::{hold, taken, with};
use crate::handles::ClientHandle;
use osc_ccm::Suite;
use std::alloc::Global;

/// Makes a client that was granted this token, in the place of one that is held.
///
/// Answers 0; or 9 without memory, and 34 where `size` isn't that of the struct, or a length or the algorithm is out of its range: then what was held
/// is held. Heap: some 25 KiB, for as long as it is held.
#[unsafe(no_mangle)]
pub extern "C" fn nzf_client_new(
    alloc: Global,
    client: &mut ClientHandle,
    settings: &PlainClientSettings<'_>,
) -> i32
    ensures { Makes client.old.held result client.new.held (λ node. IsNewClient (grant_given settings.now) node)
        (IsUnfit (FitsClient (grant_given settings.now))) }
{
    hold(alloc, client, ClientNode::new(alloc, settings)).number()
}

/// Posts the token. Where it isn't begun, `nzf_client_result` tells why.
///
/// Answers 0; or 9 without memory, 34 where the moment isn't one, and 33 where nothing is held: then what was held is held. Heap: the post, while
/// it is open.
#[unsafe(no_mangle)]
pub extern "C" fn nzf_client_exchange(
    alloc: Global,
    client: &mut ClientHandle,
    now: u64,
    draw: &PlainDraw,
) -> i32
    ensures { Calls client.old.held result client.new.held (λ old outcome new. BegunBy old now (draw_of draw.now) outcome new) }
{
    with(
        alloc,
        client,
        &mut |node|
            ensures { BegunBy node.old now (draw_of draw.entry.now) result node.new }
        { node.exchange(alloc, now, draw) },
    )
    .number()
}

/// Asks for this under protection. Where it isn't begun, `nzf_client_result` tells why.
///
/// Answers 0; or 9 without memory, 34 where `size` isn't that of the struct or an argument is out of its range, and 33 where nothing is held: then what
/// was held is held. Heap: the request, while it is open.
#[unsafe(no_mangle)]
pub extern "C" fn nzf_client_ask(
    alloc: Global,
    client: &mut ClientHandle,
    now: u64,
    request: &PlainRequest<'_>,
    draw: &PlainDraw,
) -> i32
    ensures { Calls client.old.held result client.new.held (λ old outcome new. AskedBy sealing tags old (request_given now request.now draw.now) outcome new) }
{
    with(
        alloc,
        client,
        &mut |node|
            ensures { AskedBy sealing tags node.old (request_given now request.entry.now draw.entry.now) result node.new }
        { node.ask::<Suite>(alloc, now, request, draw) },
    )
    .number()
}

/// These bytes came from this peer at this moment as one datagram.
///
/// Answers 0; or 9 without memory, 34 where the moment isn't one, and 33 where nothing is held: then what was held is held. Heap: for the step.
#[unsafe(no_mangle)]
pub extern "C" fn nzf_client_on_datagram(
    alloc: Global,
    client: &mut ClientHandle,
    now: u64,
    from: &PlainPeer,
    bytes: &[u8],
) -> i32
    ensures { Calls client.old.held result client.new.held (λ old outcome new.
        HeardBy sealing old (record { ms = now; from = peer_of from.now; bytes = bytes.now }) outcome new) }
{
    with(
        alloc,
        client,
        &mut |node|
            ensures { HeardBy sealing node.old (record { ms = now; from = peer_of from.entry.now; bytes = bytes.entry.now }) result node.new }
        { node.on_datagram::<Suite>(alloc, now, from, bytes) },
    )
    .number()
}

/// What is due by now is done, whatever memory there is.
///
/// Answers 0, or 35 where what should have gone out was lost for lack of memory; or 34 where the moment isn't one, and 33 where nothing is held: then
/// what was held is held. Heap: for what is sent.
#[unsafe(no_mangle)]
pub extern "C" fn nzf_client_on_tick(alloc: Global, client: &mut ClientHandle, now: u64) -> i32
    ensures { Calls client.old.held result client.new.held (λ old outcome new. TickedBy old now outcome new) }
{
    with(
        alloc,
        client,
        &mut |node|
            ensures { TickedBy node.old now result node.new }
        { node.on_tick(alloc, now) },
    )
    .number()
}

/// The first moment at which a tick does anything.
///
/// Answers 0; or 33 where none would, or nothing is held. Heap: none.
#[unsafe(no_mangle)]
pub extern "C" fn nzf_client_next_deadline(
    alloc: Global,
    client: &mut ClientHandle,
    moment: &mut u64,
) -> i32
    ensures { Looks client.old.held result client.new.held (λ node outcome. TellsDeadline node moment.old outcome moment.new) }
{
    with(alloc, client, &mut |node| node.next_deadline(moment)).number()
}

/// Takes the next datagram of the last step.
///
/// Answers 0 with its bytes and to whom they go; or 33 once all were taken, or where nothing is held, and 2 where `bytes` is too short: the
/// datagram stays to be taken. Heap: none.
#[unsafe(no_mangle)]
pub extern "C" fn nzf_client_next(
    alloc: Global,
    client: &mut ClientHandle,
    to: &mut PlainPeer,
    bytes: &mut [u8],
    length: &mut usize,
) -> i32
    ensures { Calls client.old.held result client.new.held (λ old outcome new. HandsOut old.last (record { to = to.old; bytes = bytes.old; size = length.old }) outcome new.last (record { to = to.new; bytes = bytes.new; size = length.new }) × (new.client ≡ old.client)) }
{
    with(alloc, client, &mut |node| node.next(to, bytes, length)).number()
}

/// What the client learnt in its last step; of an answer with its ETag.
///
/// Answers 0; or 34 where `size` is neither that of the struct nor that without the ETag, 33 where it learnt nothing, or nothing is held, and 2 where
/// `payload` is too short. Heap: none.
#[unsafe(no_mangle)]
pub extern "C" fn nzf_client_result(
    alloc: Global,
    client: &mut ClientHandle,
    learnt: &mut PlainResult,
    payload: &mut [u8],
) -> i32
    ensures { LooksWhere (IsResultSize learnt.old.size) ((learnt.new ≡ learnt.old) × (payload.new ≡ payload.old)) client.old.held result client.new.held
        (λ node outcome. TellsResult (learnt_in node.last) learnt.old payload.old outcome learnt.new payload.new) }
{
    match learnt.sized() {
        Ok(()) => with(alloc, client, &mut |node| node.result(learnt, payload)).number(),
        Err(outcome) => outcome.number(),
    }
}

/// The number (Partial IV) that its next request takes.
///
/// Answers 0; or 33 where it has no security context, or nothing is held. Heap: none.
#[unsafe(no_mangle)]
pub extern "C" fn nzf_client_context(
    alloc: Global,
    client: &mut ClientHandle,
    number: &mut u64,
) -> i32
    ensures { Looks client.old.held result client.new.held (λ node outcome. TellsContext node number.old outcome number.new) }
{
    with(alloc, client, &mut |node| node.context(number)).number()
}

/// Starts again: it forgets its context and what it heard.
///
/// Answers 0; or 33 where nothing is held. Heap: none.
#[unsafe(no_mangle)]
pub extern "C" fn nzf_client_restart(alloc: Global, client: &mut ClientHandle) -> i32
    ensures { Calls client.old.held result client.new.held (λ old outcome new. (outcome ≡ Done) × (new ≡ record { client = restarted old.client; last = nothing })) }
{
    with(
        alloc,
        client,
        &mut |node| {
            node.restart();
            Outcome::Done
        },
    )
    .number()
}

/// Lets the client go, so that nothing is held.
#[unsafe(no_mangle)]
pub extern "C" fn nzf_client_free(alloc: Global, client: &mut ClientHandle)
    ensures { client.new.held ≡ None }
{
    drop(taken(alloc, client));
}

//! An exchange and a POST through a proxy that starts again before the answer comes to it, turn by turn, whatever call of a port fails. The
//! client sends its request again. Where the server keeps no answers, it refuses the number that comes twice, and all that the client learns is
//! that an unprotected 4.01 came; where it does, the client learns its answer.
ghost use Rattle.std.specs.Prelude.{◌<◌};

use crate::network::{Doing, Network};
use crate::nodes::{client, server};
use crate::telling::UNVERIFIED;
use osc_client::Client;
use osc_fixtures::{POST, answering_server, at, drawn, proxy, request};
use osc_model::{Bytes, Code, Peer, Request, Step};
use osc_proxy::Proxy;
use osc_server::Server;
use std::alloc::{AllocError, Global};
use std::process::Abort;
use std::test::*;

/// At how many ms what is done. Its 16 turns receive 16 times, and 16 datagrams are sent.
const ROW: [(u64, Doing); 20] = [
    (0, Doing::Exchanges),
    (0, Doing::Proxy),
    (0, Doing::Client),
    (0, Doing::Server),
    (0, Doing::Proxy),
    (0, Doing::Client),
    (0, Doing::Proxy),
    (0, Doing::Asks),
    (0, Doing::Proxy),
    (0, Doing::Server),
    (0, Doing::Loses),
    (0, Doing::Restarts),
    (3_000, Doing::Client),
    (3_000, Doing::Proxy),
    (3_000, Doing::Proxy),
    (3_000, Doing::Client),
    (3_000, Doing::Server),
    (3_000, Doing::Proxy),
    (3_000, Doing::Client),
    (3_000, Doing::Proxy),
];

/// How many calls of ports these are.
const CALLS: usize = 32;

/// How the call of a number goes: it fails, or it is a send that loses its datagram, and nobody is told. Call 0 is no call.
#[derive(Clone, Copy)]
enum Fault {
    Told(usize),
    Silent(usize),
}

/// What is there of what the request makes.
#[derive(Clone, Copy, PartialEq, Eq)]
enum Effect {
    /// The resource, with the request's payload once.
    Once,
    Nothing,
    SomethingElse,
}

/// The outcome of a run.
#[derive(Drop)]
struct Outcome {
    /// How many calls failed at the client, the proxy and the server.
    failures: (usize, usize, usize),
    /// How many turns were taken again, since their receive failed.
    again: usize,
    /// The last that the client learnt.
    learnt: u8,
    effect: Effect,
    /// Each datagram that a port was asked to send, port by port.
    sent: Vec<u8>,
}

fn found(server: &Server, request: &Request) -> Effect {
    let Some(path) = &request.path else {
        return Effect::SomethingElse;
    };
    match server.tree().get(path) {
        Some(resource) => {
            if resource.payload.as_slice() == request.payload.as_slice() {
                Effect::Once
            } else {
                Effect::SomethingElse
            }
        }
        None => Effect::Nothing,
    }
}

/// All of it, in order. A turn whose receive failed is taken again: how many were, and the last that the client learnt.
fn goes<R: Abort>(
    network: &mut Network<'_, R>,
    client: &mut Client,
    proxy: &mut Proxy,
    server: &mut Server,
    request: &Request,
) -> (usize, u8)
    requires { 0 < request.now.code.0 }
{
    let mut again = 0usize;
    let mut last = 0;
    for &what in &ROW {
        let mut told = network.does(client, proxy, server, request, what);
        if told == None {
            again = again.saturating_add(1);
            told = network.does(client, proxy, server, request, what);
        }
        let learnt = told.unwrap_or(0);
        if learnt != 0 {
            last = learnt;
        }
    }
    (again, last)
}

/// A network of which this call fails so.
fn network_with<'a, R: Abort>(rt: &'a R, alloc: Global, fault: Fault) -> Network<'a, R> {
    match fault {
        Fault::Told(call) => Network::new(rt, alloc, call),
        Fault::Silent(call) => {
            let mut network = Network::new(rt, alloc, call);
            network.fails_silently();
            network
        }
    }
}

/// The run in which a call fails so.
fn run<R: Abort + Drop>(
    rt: &R,
    alloc: Global,
    request: &Request,
    fault: Fault,
) -> Result<Outcome, Fail>
    requires { 0 < request.now.code.0 }
{
    run_at(rt, alloc, request, fault, server(alloc)?)
}

/// The same at this server.
fn run_at<R: Abort + Drop>(
    rt: &R,
    alloc: Global,
    request: &Request,
    fault: Fault,
    server: Server,
) -> Result<Outcome, Fail>
    requires { 0 < request.now.code.0 }
{
    let mut client = client(alloc)?;
    let mut proxy = proxy(alloc)?;
    let mut server = server;
    let mut network = network_with(rt, alloc, fault);
    let (again, learnt) = goes(&mut network, &mut client, &mut proxy, &mut server, request);
    let outcome = Outcome {
        failures: network.failures(),
        again,
        learnt,
        effect: found(&server, request),
        sent: network.all_sent(),
    };
    drop(network);
    drop(server);
    drop(proxy);
    drop(client);
    Ok(outcome)
}

/// Whether both runs sent and made the same, and the client learnt the same.
fn is_like(one: &Outcome, other: &Outcome) -> bool {
    one.learnt == other.learnt
        && one.effect == other.effect
        && one.sent.as_slice() == other.sent.as_slice()
}

/// Whether one call failed, and the request made its resource once, or nothing.
fn fails_once(run: &Outcome) -> bool {
    matches!(run.failures, (1, 0, 0) | (0, 1, 0) | (0, 0, 1)) && run.effect != Effect::SomethingElse
}

/// Whether the run where a call fails is the one without a fault, where a receive failed and that turn was taken again; and else
/// the one in which the datagram of the call got lost after its port.
fn is_as_wanted<R: Abort + Drop>(
    rt: &R,
    alloc: Global,
    request: &Request,
    whole: &Outcome,
    call: usize,
) -> Result<bool, Fail>
    requires { 0 < request.now.code.0 }
{
    let broken = run(rt, alloc, request, Fault::Told(call))?;
    let so = match broken.again {
        0 => is_as_lost(rt, alloc, request, &broken, call),
        again => Ok(again == 1 && is_like(whole, &broken)),
    };
    let once = fails_once(&broken);
    drop(broken);
    Ok(so? && once)
}

fn is_as_lost<R: Abort + Drop>(
    rt: &R,
    alloc: Global,
    request: &Request,
    broken: &Outcome,
    call: usize,
) -> Result<bool, Fail>
    requires { 0 < request.now.code.0 }
{
    let lost = run(rt, alloc, request, Fault::Silent(call))?;
    let so = lost.failures == (0, 0, 0) && is_like(&lost, broken);
    drop(lost);
    Ok(so)
}

/// Whether nothing failed, and the client learnt of an unprotected answer to what was served.
fn is_whole(run: &Outcome) -> bool {
    run.failures == (0, 0, 0)
        && run.again == 0
        && run.learnt == UNVERIFIED
        && run.effect == Effect::Once
}

/// Each call of the run in turn.
fn sweeps<R: Abort + Drop>(rt: &R, alloc: Global, request: &Request) -> Result<(), Fail>
    requires { 0 < request.now.code.0 }
{
    let whole = run(rt, alloc, request, Fault::Told(0))?;
    assert!(rt; is_whole(&whole));
    for call in 1..=CALLS {
        let so = is_as_wanted(rt, alloc, request, &whole, call)?;
        assert!(rt; so, "call {call}");
    }
    let beyond = run(rt, alloc, request, Fault::Told(CALLS + 1))?;
    assert!(rt; is_whole(&beyond) && is_like(&whole, &beyond));
    drop(beyond);
    drop(whole);
    Ok(())
}

#[test]
fn each_call_fails_where_an_answer_is_lost(rt: HostRuntime) -> Result<(), Fail> {
    let request = request(rt.alloc(), b"/log", POST, b"a")?;
    let swept = sweeps(&rt, rt.alloc(), &request);
    drop(request);
    swept
}

/// At a server that keeps answers the client learns its answer, though the request comes under another message ID: it made its resource once.
fn is_answered<R: Abort + Drop>(rt: &R, alloc: Global, request: &Request) -> Result<bool, Fail>
    requires { 0 < request.now.code.0 }
{
    let told = run_at(rt, alloc, request, Fault::Told(0), answering_server(alloc)?)?;
    let so = told.failures == (0, 0, 0)
        && told.learnt == Code::CREATED.0
        && told.effect == Effect::Once;
    drop(told);
    Ok(so)
}

#[test]
fn a_kept_answer_comes_again_through_a_proxy(rt: HostRuntime) -> Result<(), Fail> {
    let request = request(rt.alloc(), b"/log", POST, b"a")?;
    let answered = is_answered(&rt, rt.alloc(), &request);
    drop(request);
    assert!(&rt; answered?);
    Ok(())
}

// ---- each beginning of what comes to the proxy

/// How many datagrams come to the proxy before it starts again.
const BEFORE: usize = 4;

/// When the datagram of this number comes to the proxy.
fn ms_of(number: usize) -> u64 {
    if number < BEFORE { 0 } else { 3_000 }
}

/// Whether the step sends at most two datagrams, and seals and opens nothing.
fn is_modest(step: Result<Step, AllocError>) -> bool {
    let Ok(step) = step else {
        return false;
    };
    let modest = step.out.as_slice().len() <= 2
        && step.notes.seals().is_none()
        && step.notes.opens().is_none();
    drop(step);
    modest
}

/// Whether the step is so that the proxy makes of these bytes.
fn hears(alloc: Global, proxy: &mut Proxy, number: usize, from: Peer, bytes: &[u8]) -> bool {
    let ms = ms_of(number);
    let draw = drawn((ms / 1_000 % 256) as u8);
    is_modest(proxy.on_datagram(alloc, at(ms), from, bytes, &draw))
}

/// Whether each step is so that the proxy makes of what came; it starts again where it did.
fn hears_all(alloc: Global, proxy: &mut Proxy, came: &[Option<(Peer, Bytes)>]) -> bool {
    let mut modest = true;
    for (number, datagram) in came.iter().enumerate() {
        if number == BEFORE {
            proxy.restart();
        }
        if let Some((from, bytes)) = datagram {
            modest = modest && hears(alloc, proxy, number, *from, bytes.as_slice());
        }
    }
    modest
}

/// Whether each step is so of a new proxy, to which these bytes come after what came.
fn hears_at_last(
    alloc: Global,
    came: &[Option<(Peer, Bytes)>],
    from: Peer,
    bytes: &[u8],
) -> Result<bool, Fail> {
    let mut proxy = proxy(alloc)?;
    let before = hears_all(alloc, &mut proxy, came);
    if came.len() == BEFORE {
        proxy.restart();
    }
    let last = hears(alloc, &mut proxy, came.len(), from, bytes);
    drop(proxy);
    Ok(before && last)
}

/// The same of each proper beginning of the datagram of this number, and of the whole.
fn hears_each_beginning(
    rt: &impl Abort,
    alloc: Global,
    came: &[Option<(Peer, Bytes)>],
    number: usize,
) -> Result<(), Fail> {
    let (Some(before), Some(Some((from, bytes)))) = (came.get(..number), came.get(number)) else {
        return Ok(());
    };
    for end in 0..=bytes.len() {
        let front = bytes.as_slice().get(..end).ok_or("a beginning")?;
        let modest = hears_at_last(alloc, before, *from, front)?;
        assert!(rt; modest, "{end} bytes of datagram {number}");
    }
    Ok(())
}

/// What comes to the proxy in a run without faults.
fn came<R: Abort + Drop>(
    rt: &R,
    alloc: Global,
    request: &Request,
    network: &mut Network<'_, R>,
) -> Result<(), Fail>
    requires { 0 < request.now.code.0 }
{
    let mut client = client(alloc)?;
    let mut proxy = proxy(alloc)?;
    let mut server = server(alloc)?;
    let (_, learnt) = goes(network, &mut client, &mut proxy, &mut server, request);
    drop(server);
    drop(proxy);
    drop(client);
    assert!(rt; learnt == UNVERIFIED);
    Ok(())
}

fn beginnings<R: Abort + Drop>(rt: &R, alloc: Global, request: &Request) -> Result<(), Fail>
    requires { 0 < request.now.code.0 }
{
    let mut network = network_with(rt, alloc, Fault::Told(0));
    came(rt, alloc, request, &mut network)?;
    let came = network.came_to_proxy();
    assert!(rt; came.len() == 8);
    for number in 0..came.len() {
        hears_each_beginning(rt, alloc, came, number)?;
    }
    drop(network);
    Ok(())
}

#[test]
fn each_beginning_of_what_comes_to_a_proxy(rt: HostRuntime) -> Result<(), Fail> {
    let request = request(rt.alloc(), b"/log", POST, b"a")?;
    let swept = beginnings(&rt, rt.alloc(), &request);
    drop(request);
    swept
}

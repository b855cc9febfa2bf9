//! Whatever call of a port fails, the client is answered.
ghost use Rattle.std.specs.Prelude.{◌<◌};

use crate::network::Network;
use crate::nodes::{client, server};
use crate::telling::UNVERIFIED;
use osc_client::Client;
use osc_fixtures::{POST, proxy, request};
use osc_model::{Code, Request};
use osc_proxy::Proxy;
use osc_server::Server;
use std::alloc::Global;
use std::process::Abort;
use std::test::*;

/// More than there are calls.
const NONE: usize = 1000;

/// An exchange through the proxy; 4 seconds after it what got lost was sent again, and is answered.
fn is_granted<R: Abort>(
    rt: &R,
    network: &mut Network<'_, R>,
    client: &mut Client,
    proxy: &mut Proxy,
    server: &mut Server,
) {
    network.exchanges(client, 0);
    let made = network.turns(client, proxy, server, 0, 0);
    assert!(rt; network.turns(client, proxy, server, 4_000, made) == 1);
}

/// A POST through the proxy; 4 seconds after it what got lost was sent again, and is answered.
fn goes_through<R: Abort>(
    rt: &R,
    network: &mut Network<'_, R>,
    client: &mut Client,
    proxy: &mut Proxy,
    server: &mut Server,
    request: &Request,
)
    requires { 0 < request.now.code.0 }
{
    network.asks(client, request, 8_000);
    let answered = network.turns(client, proxy, server, 8_000, 0);
    assert!(rt; network.turns(client, proxy, server, 12_000, answered) == Code::CREATED.0);
}

/// A POST through the proxy, which starts again before the answer comes to it: what the client sends again is forwarded again. Where the
/// server had served it, it refuses the number that comes twice, and all that the client learns is that an unprotected 4.01 came.
fn goes_through_restarted<R: Abort>(
    rt: &R,
    network: &mut Network<'_, R>,
    client: &mut Client,
    proxy: &mut Proxy,
    server: &mut Server,
    request: &Request,
)
    requires { 0 < request.now.code.0 }
{
    network.asks(client, request, 8_000);
    network.forgets(proxy, server, 8_000);
    let once = network.turns(client, proxy, server, 12_000, 0);
    let again = network.turns(client, proxy, server, 16_000, once);
    let last = network.turns(client, proxy, server, 22_000, again);
    assert!(rt; last == UNVERIFIED || last == Code::CREATED.0);
}

/// Whether the resource that the request makes is there, with its payload once.
fn holds(server: &Server, request: &Request) -> bool {
    let Some(path) = &request.path else {
        return false;
    };
    match server.tree().get(path) {
        Some(resource) => resource.payload.as_slice() == request.payload.as_slice(),
        None => false,
    }
}

/// How a run goes.
#[derive(Clone, Copy, PartialEq, Eq)]
enum Way {
    /// Each node takes what waits, and ticks where nothing does.
    Plain,
    /// So, but the proxy starts again in the midst of the POST.
    Restarted,
    /// Each node keeps its pace.
    Paced,
}

/// The run in which the call of this number fails: an exchange and a POST. The POST was served once. How many calls failed at the client, the proxy and the server, and how many more calls it takes to the one that fails.
fn run<R: Abort + Drop>(
    rt: &R,
    alloc: Global,
    request: &Request,
    way: Way,
    failing: usize,
) -> Result<((usize, usize, usize), usize), Fail>
    requires { 0 < request.now.code.0 }
{
    let mut client = client(alloc)?;
    let mut proxy = proxy(alloc)?;
    let mut server = server(alloc)?;
    let mut network = Network::new(rt, alloc, failing);
    if way == Way::Paced {
        network.keeps_pace();
    }
    is_granted(rt, &mut network, &mut client, &mut proxy, &mut server);
    if way == Way::Restarted {
        goes_through_restarted(
            rt,
            &mut network,
            &mut client,
            &mut proxy,
            &mut server,
            request,
        );
    } else {
        goes_through(
            rt,
            &mut network,
            &mut client,
            &mut proxy,
            &mut server,
            request,
        );
    }
    assert!(rt; holds(&server, request));
    let told = (network.failures(), network.failing);
    drop(network);
    drop(server);
    drop(proxy);
    drop(client);
    Ok(told)
}

/// Whether one call failed.
fn is_one(failures: (usize, usize, usize)) -> bool {
    matches!(failures, (1, 0, 0) | (0, 1, 0) | (0, 0, 1))
}

/// Each call of the run in turn.
fn sweeps<R: Abort + Drop>(rt: &R, alloc: Global, request: &Request, way: Way) -> Result<(), Fail>
    requires { 0 < request.now.code.0 }
{
    let (failures, left) = run(rt, alloc, request, way, NONE)?;
    assert!(rt; failures == (0, 0, 0));
    assert!(rt; 40 < left && left < 960);
    for failing in 1..=NONE - left {
        let (failures, left) = run(rt, alloc, request, way, failing)?;
        assert!(rt; is_one(failures) && left == 0);
    }
    Ok(())
}

#[test]
fn each_call_fails_in_turn(rt: HostRuntime) -> Result<(), Fail> {
    let request = request(rt.alloc(), b"/log", POST, b"a")?;
    let swept = sweeps(&rt, rt.alloc(), &request, Way::Plain);
    drop(request);
    swept
}

#[test]
fn each_call_fails_in_turn_around_a_restart(rt: HostRuntime) -> Result<(), Fail> {
    let request = request(rt.alloc(), b"/log", POST, b"a")?;
    let swept = sweeps(&rt, rt.alloc(), &request, Way::Restarted);
    drop(request);
    swept
}

#[test]
fn each_call_of_paced_turns_fails_in_turn(rt: HostRuntime) -> Result<(), Fail> {
    let request = request(rt.alloc(), b"/log", POST, b"a")?;
    let swept = sweeps(&rt, rt.alloc(), &request, Way::Paced);
    drop(request);
    swept
}

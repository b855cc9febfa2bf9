//! The moments that nodes are handed, whatever the wall clock says, and what ends by them.
ghost use Rattle.std.specs.Prelude.{◌<◌, None};

use crate::stage::Event::{Comes, Tick};
use crate::stage::{ASKED, FORWARDED, goes};
use osc_authz::ContextRules;
use osc_ccm::Suite;
use osc_client::Client;
use osc_fixtures::{
    CLIENT, GET, GET_AND_POST, SERVER, at, drawn, own, proxy, request, ruled_server, sent_in,
    straight,
};
use osc_model::{Draw, Moment, Request};
use osc_server::Server;
use osc_tree::Tree;
use osc_turn::{ClockAndRandom, Reading, Seeds, Watch, generator_of};
use std::alloc::{AllocError, Global};
use std::io::{self, ErrorKind};
use std::process::Abort;
use std::test::*;
use std::time::Duration;

/// A moment of the year 2027, in milliseconds.
const T: u64 = 1_800_000_000_000;

const MINUTE: u64 = 60_000;

const HOUR: u64 = 60 * MINUTE;

const MONTH: u64 = 30 * 24 * HOUR;

/// Plays readings: what the wall clock says and what the steady clock has counted, in milliseconds. After the last of them none can be read.
#[derive(Drop)]
struct Played<'a> {
    readings: &'a [(u64, u64)],
}

impl<'a> Watch for Played<'a> {
    ghost told = { λ _. None };

    fn read(&mut self) -> io::Result<Reading> {
        let Some((reading, rest)) = self.readings.split_first() else {
            return Err(io::Error::from(ErrorKind::UnexpectedEof));
        };
        self.readings = rest;
        Ok(Reading {
            wall: Duration::from_millis(reading.0),
            counted: Duration::from_millis(reading.1),
        })
    }
}

/// What a supply over these readings gives: each moment in milliseconds, and by how many seconds the wall clock is told to be behind it. The first
/// reading is at the start.
fn moments<S: Seeds>(
    alloc: Global,
    seeds: &S,
    readings: &[(u64, u64)],
) -> Result<Vec<(u64, Option<u64>)>, Fail> {
    let mut supply = ClockAndRandom::new(Played { readings }, generator_of(seeds)?)?;
    let mut all = Vec::new(alloc);
    for _ in 1..readings.len() {
        let now = supply.moment()?;
        all.push((now.ms, supply.seconds_behind()))?;
    }
    drop(supply);
    Ok(all)
}

/// Readings after the first, which is at T and at a count of 0: what the wall clock says, what the steady clock has counted, and the moment then, each in
/// milliseconds, the first and the last after T.
type Case = (&'static str, &'static [(i64, u64, u64)]);

const CASES: [Case; 9] = [
    (
        "right at all times",
        &[(0, 0, 0), (10, 10, 10), (MINUTE as i64, MINUTE, MINUTE)],
    ),
    (
        "30 days ahead once, and right again",
        &[
            (1_000, 1_000, 1_000),
            (MONTH as i64, 2_000, 2_000),
            (3_000, 3_000, 3_000),
            (MONTH as i64, 4_000, 4_000),
            (64_000, 64_000, 64_000),
        ],
    ),
    (
        "set back an hour",
        &[
            (-3_599_000, 1_000, 1_000),
            (-3_539_000, 61_000, 61_000),
            (0, HOUR, HOUR),
        ],
    ),
    (
        "5 seconds ahead for less than a minute",
        &[
            (6_000, 1_000, 1_000),
            (35_000, 30_000, 30_000),
            (65_999, 60_999, 60_999),
            (61_000, 61_000, 61_000),
            (67_000, 62_000, 62_000),
            (126_999, 121_999, 121_999),
        ],
    ),
    (
        "ahead for a minute, by 4 seconds at least",
        &[
            (6_000, 1_000, 1_000),
            (34_000, 30_000, 30_000),
            (67_000, 61_000, 65_000),
            (68_000, 62_000, 66_000),
            (127_999, 121_999, 125_999),
            (128_000, 122_000, 128_000),
        ],
    ),
    (
        "as a moment that is right ends what was ahead",
        &[
            (6_000, 1_000, 1_000),
            (30_000, 30_000, 30_000),
            (66_000, 61_000, 61_000),
            (125_999, 120_999, 120_999),
            (126_000, 121_000, 126_000),
        ],
    ),
    (
        "while the machine slept for two hours",
        &[(1_000, 1_000, 1_000), (2_000, 2 * HOUR, 2 * HOUR)],
    ),
    (
        "where the steady clock goes back",
        &[(500, 500, 500), (600, 400, 500), (700, 700, 700)],
    ),
    (
        "where the steady clock can't be read",
        &[(500, 0, 0), (MINUTE as i64, 0, 0)],
    ),
];

fn tells<R: Abort + Seeds>(rt: &R, alloc: Global, case: &Case) -> Result<(), Fail> {
    let mut readings = Vec::new(alloc);
    readings.push((T, 0))?;
    for row in case.1 {
        readings.push((T.saturating_add_signed(row.0), row.1))?;
    }
    let told = moments(alloc, rt, &readings)?;
    assert!(rt; told.len() == case.1.len());
    for (told, row) in told.iter().zip(case.1.iter()) {
        assert!(rt; told.0 == T.saturating_add(row.2), "{}: {row:?}", case.0);
    }
    Ok(())
}

#[test]
fn the_time_goes_on(rt: HostRuntime) -> Result<(), Fail> {
    for case in &CASES {
        tells(&rt, rt.alloc(), case)?;
    }
    Ok(())
}

/// There is no moment after the last one, at which the time stays.
#[test]
fn the_last_moment_stays(rt: HostRuntime) -> Result<(), Fail> {
    let last = (1 << 63) - 1;
    let readings = [(u64::MAX, 0), (u64::MAX, 1), (0, u64::MAX)];
    let told = moments(rt.alloc(), &rt, &readings)?;
    assert!(rt;
        matches!(told.as_slice(), [(one, _), (other, Some(_))] if *one == last && *other == last)
    );
    Ok(())
}

/// A wall clock that is more than a second behind is told of at once, and once an hour while it is.
#[test]
fn a_clock_behind_is_told(rt: HostRuntime) -> Result<(), Fail> {
    let readings = [
        (T, 0),
        (T, 1_000),
        (T, 1_001),
        (T, 1_002),
        (T + 2_000, 2_000),
        (T + 2_000, HOUR + 1_000),
        (T + 2_000, HOUR + 1_001),
        (T + 3_000, HOUR + 2_000),
        (T + 3 * HOUR, 3 * HOUR),
        (T + 3 * HOUR, 3 * HOUR + 5_999),
    ];
    let expected = [
        None,
        Some(1),
        None,
        None,
        None,
        Some(3_599),
        None,
        None,
        Some(5),
    ];
    let told = moments(rt.alloc(), &rt, &readings)?;
    assert!(rt; told.len() == expected.len());
    for (told, expected) in told.iter().zip(expected.iter()) {
        assert!(rt; told.1 == *expected, "{told:?}");
    }
    Ok(())
}

// ---- nodes

/// What the clocks say while nodes run: 30 days ahead at times, an hour back at others, and for less than a minute the one or the other.
const READINGS: [(u64, u64); 9] = [
    (T, 0),
    (T, 0),
    (T + MONTH, 1_999),
    (T + 2_000, 2_000),
    (T - HOUR, 246_999),
    (T + MONTH, 247_000),
    (T + 247_001, 247_001),
    (T + MONTH, 599_999),
    (T - HOUR, 600_000),
];

/// The nth of the moments that they give.
fn nth(moments: &[(u64, Option<u64>)], n: usize) -> u64 {
    match moments.get(n) {
        Some(moment) => moment.0,
        None => 0,
    }
}

/// A proxy sends again what nobody acknowledges when its 2 seconds are over, and not before.
#[test]
fn a_proxy_sends_again_in_its_time(rt: HostRuntime) -> Result<(), Fail> {
    let moments = moments(rt.alloc(), &rt, &READINGS)?;
    let mut proxy = proxy(rt.alloc())?;
    goes(
        &rt,
        rt.alloc(),
        &mut proxy,
        &[
            (
                nth(&moments, 0),
                Comes(CLIENT, ASKED),
                &[(CLIENT, b"\x60\0\0\x01"), (SERVER, FORWARDED)],
            ),
            (nth(&moments, 1), Tick, &[]),
            (nth(&moments, 2), Tick, &[(SERVER, FORWARDED)]),
        ],
    );
    drop(proxy);
    Ok(())
}

/// A draw by which the timeout is 2 seconds.
const DRAW: Draw = Draw([0; 32]);

/// How many datagrams the client sends at this moment.
fn repeats(alloc: Global, client: &mut Client, ms: u64) -> usize {
    let step = client.on_tick(alloc, at(ms));
    let count = step.out.as_slice().len();
    drop(step);
    count
}

/// A client sends its post again when its 2 seconds are over, and not before.
#[test]
fn a_client_sends_again_in_its_time(rt: HostRuntime) -> Result<(), Fail> {
    let moments = moments(rt.alloc(), &rt, &READINGS)?;
    let mut client = osc_fixtures::client(rt.alloc(), own(1, GET_AND_POST), straight())?;
    drop(client.exchange(rt.alloc(), at(nth(&moments, 0)), &DRAW)?);
    assert!(rt; repeats(rt.alloc(), &mut client, nth(&moments, 1)) == 0);
    assert!(rt; repeats(rt.alloc(), &mut client, nth(&moments, 2)) == 1);
    drop(client);
    Ok(())
}

/// A server whose contexts count for ten minutes.
fn server(alloc: Global) -> Result<Server, AllocError> {
    let rules = ContextRules {
        seconds: Some(600),
        ..ContextRules::none()
    };
    ruled_server(alloc, Tree::new(alloc), rules)
}

/// What the server sends for this datagram at this moment.
fn served(alloc: Global, server: &mut Server, ms: u64, datagram: &[u8]) -> Vec<u8> {
    sent_in(
        alloc,
        server.on_datagram::<Suite>(alloc, at(ms), CLIENT, datagram, &drawn(9)),
    )
}

/// What the client sends for a request at the start, and hears of nothing.
fn asked(alloc: Global, client: &mut Client, request: &Request, byte: u8) -> Vec<u8>
    requires { 0 < request.now.code.0 }
{
    sent_in(
        alloc,
        client.ask::<Suite>(alloc, Moment::START, request, &drawn(byte)),
    )
}

/// The code of what is sent; 0 where nothing is.
fn code(bytes: &[u8]) -> u8 {
    match bytes {
        [_, code, ..] => *code,
        _ => 0,
    }
}

/// The client hears the server's datagram.
fn hears(alloc: Global, client: &mut Client, datagram: &[u8]) {
    drop(client.on_datagram::<Suite>(alloc, Moment::START, SERVER, datagram));
}

/// The code of the server's answer to a new request at this moment, which the client hears. 2.04 stands outside of each protected answer.
fn asks(
    alloc: Global,
    client: &mut Client,
    server: &mut Server,
    get: &Request,
    ms: u64,
    byte: u8,
) -> u8
    requires { 0 < get.now.code.0 }
{
    let asked = asked(alloc, client, get, byte);
    let answer = served(alloc, server, ms, &asked);
    hears(alloc, client, &answer);
    code(&answer)
}

/// What a server answered stands for 247 seconds for the same message, and its contexts for their ten minutes, at these moments.
fn counts(
    rt: &impl Abort,
    alloc: Global,
    client: &mut Client,
    server: &mut Server,
    get: &Request,
    moments: &[(u64, Option<u64>)],
)
    requires { 0 < get.now.code.0 }
{
    let post = sent_in(alloc, client.exchange(alloc, Moment::START, &drawn(1)));
    let made = served(alloc, server, nth(moments, 0), &post);
    hears(alloc, client, &made);
    let first = asked(alloc, client, get, 2);
    let answer = served(alloc, server, nth(moments, 0), &first);
    assert!(rt; code(&answer) == 0x44);
    assert!(rt; served(alloc, server, nth(moments, 3), &first) == answer);
    assert!(rt; code(&served(alloc, server, nth(moments, 4), &first)) == 0x81);
    hears(alloc, client, &answer);
    assert!(rt; asks(alloc, client, server, get, nth(moments, 6), 3) == 0x44);
    assert!(rt; asks(alloc, client, server, get, nth(moments, 7), 4) == 0x81);
}

#[test]
fn a_server_counts_in_its_time(rt: HostRuntime) -> Result<(), Fail> {
    let moments = moments(rt.alloc(), &rt, &READINGS)?;
    let get = request(rt.alloc(), b"/log", GET, b"")?;
    let mut client = osc_fixtures::client(rt.alloc(), own(1, GET_AND_POST), straight())?;
    let mut server = server(rt.alloc())?;
    counts(&rt, rt.alloc(), &mut client, &mut server, &get, &moments);
    drop(server);
    drop(client);
    drop(get);
    Ok(())
}

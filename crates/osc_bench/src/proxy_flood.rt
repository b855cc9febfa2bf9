//! A flood at a proxy.

use crate::flood::{draw_of, ended, first_in, mark, moment_of, origin, ticks_at};
use osc_fixtures::{STRANGER, at, drawn, place, proxy};
use osc_model::{Draw, Moment, Peer};
use osc_proxy::Proxy;
use std::alloc::{AllocError, Global};

/// `open` exchanges open at a proxy of one target, the first 16 of them for confirmable GETs, each from a peer of its own; then comes the flood, as at
/// `osc_bench_flood_server`, the byte 255 for the target; then the proxy ticks at each of its deadlines until it has none. Answers how
/// many exchanges were open after the flood; 1,000 for lack of memory, and where the proxy has anything open in the end, or doesn't
/// forward the next request.
///
/// A block of 65,521 bytes is taken and given back before the proxy is made, before and after each datagram of the flood, after the flood, and
/// after all.
#[unsafe(no_mangle)]
pub extern "C" fn osc_bench_flood_proxy(alloc: Global, open: u8, flood: &[u8], count: u32) -> u64 {
    open_behind(alloc, open, flood, count).unwrap_or(NOT_FREE)
}

// More than are ever open.
const NOT_FREE: u64 = 1000;

// Which requests are confirmable: those of lower numbers. As many may be open to one target, and one more.
const CONFIRMABLE: u8 = 16;

// How often a proxy is ticked at most: each of 64 exchanges and of their messages has few deadlines.
const MOST_TICKS: u16 = 20_000;

// A non-confirmable GET of `/e` at the host `s`, whose message ID ends with a byte of its own.
const GET: [u8; 14] = *b"\x50\x01\x00\x00\x31s\x81e\xd4\x0fcoap";

fn open_behind(alloc: Global, open: u8, flood: &[u8], count: u32) -> Result<u64, AllocError> {
    mark(alloc)?;
    let mut proxy = proxy(alloc)?;
    let told = flooded(alloc, &mut proxy, open, flood, count);
    drop(proxy);
    told
}

fn flooded(
    alloc: Global,
    proxy: &mut Proxy,
    open: u8,
    flood: &[u8],
    count: u32,
) -> Result<u64, AllocError> {
    for number in 0..open {
        forward(alloc, proxy, Moment::START, place(number), number)?;
    }
    hear_all(alloc, proxy, flood, count)?;
    mark(alloc)?;
    let open = proxy.open_exchanges() as u64;
    let free = is_free_behind(alloc, proxy, moment_of(count))?;
    mark(alloc)?;
    Ok(if free { open } else { NOT_FREE })
}

// Forwards the GET of this number.
pub(crate) fn forward(
    alloc: Global,
    proxy: &mut Proxy,
    now: Moment,
    from: Peer,
    number: u8,
) -> Result<(), AllocError> {
    let datagram = get_of(number);
    let step = proxy.on_datagram(alloc, now, from, &datagram, &drawn(number))?;
    drop(step);
    Ok(())
}

// The GET of this number.
fn get_of(number: u8) -> [u8; 14] {
    let mut datagram = GET;
    if number < CONFIRMABLE {
        datagram[0] = 0x40;
    }
    datagram[3] = number;
    datagram
}

fn hear_all(alloc: Global, proxy: &mut Proxy, flood: &[u8], count: u32) -> Result<(), AllocError> {
    let mut rest = flood;
    for place in 0..count {
        if let Some((from, datagram, behind)) = first_in(rest) {
            rest = behind;
            hear(alloc, proxy, place, from, datagram)?;
        }
    }
    Ok(())
}

// Hears the datagram of this place, with the tick that comes before it.
fn hear(
    alloc: Global,
    proxy: &mut Proxy,
    place: u32,
    from: u8,
    datagram: &[u8],
) -> Result<(), AllocError> {
    let now = moment_of(place);
    let draw = draw_of(place);
    if ticks_at(place) {
        tick(alloc, proxy, now, &draw);
    }
    mark(alloc)?;
    let step = proxy.on_datagram(alloc, now, origin(from), datagram, &draw)?;
    ended(alloc, step)?;
    Ok(())
}

fn tick(alloc: Global, proxy: &mut Proxy, now: Moment, draw: &Draw) {
    let step = proxy.on_tick(alloc, now, draw);
    drop(step);
}

// Ticks at each deadline from this moment on. Whether nothing is open then, and the next request opens one exchange.
fn is_free_behind(alloc: Global, proxy: &mut Proxy, now: Moment) -> Result<bool, AllocError> {
    let end = wait(alloc, proxy, now)?;
    if proxy.open_exchanges() > 0 || proxy.open_messages() > 0 {
        return Ok(false);
    }
    forward(alloc, proxy, end, STRANGER, u8::MAX)?;
    Ok(proxy.open_exchanges() == 1)
}

// Ticks at each deadline from this moment on, until there is none. When the last tick was.
fn wait(alloc: Global, proxy: &mut Proxy, start: Moment) -> Result<Moment, AllocError> {
    let mut now = start;
    for round in 0..MOST_TICKS {
        if let Some(deadline) = proxy.next_deadline() {
            now = at(deadline.max(now.ms));
            tick(alloc, proxy, now, &drawn((round % 256) as u8));
        }
    }
    Ok(now)
}

//! Messages read, and datagrams served.

ghost use Rattle.std.specs.Prelude.{◌≡◌, ◌≤◌, ◌<◌, length, IsTrue};
ghost use Rattle.osc_coap.specs.{Spells};
ghost use Rattle.osc_coap.specs.Message.{Message};

use osc_ccm::Suite;
use osc_coap::MessageRef;
use osc_fixtures::{STRANGER, put, server};
use osc_model::{Datagram, Draw, Method, Moment, Path, Step};
use osc_scope::Scope;
use osc_server::Server;
use osc_tree::Tree;
use std::alloc::{AllocError, Global};

/// How many options the datagram has; 0 where it is no message.
#[unsafe(no_mangle)]
pub extern "C" fn osc_bench_parse(datagram: &[u8]) -> u64
    ensures { (message : Message) → Spells datagram.now message → result ≡ length message.options }
{
    match MessageRef::parse(datagram) {
        Ok(message) => message.options().count() as u64,
        Err(_) => 0,
    }
}

/// Serves the datagram `rounds` times, each time with a message ID of its own, so that each is new, and `apart` milliseconds
/// after the one before, by a server of `resources` resources, `/r000` and so on up to 1024 of them, each open. Answers how many
/// bytes it sent in all; 0 for lack of memory, and for a datagram that isn't 4 to 64 bytes long. Where 64 of them come within
/// 247,000 ms, the duplicate table is full from the 64th round on; where they are as far apart as that, none that was
/// noted lives when the next one comes.
#[unsafe(no_mangle)]
pub extern "C" fn osc_bench_serve(
    alloc: Global,
    resources: u16,
    apart: u32,
    datagram: &[u8],
    rounds: u64,
) -> u64 {
    if !fits(datagram) {
        return 0;
    }
    match server_of(alloc, resources) {
        Ok(mut server) => {
            let sent = serve_new(alloc, &mut server, apart, datagram, rounds);
            drop(server);
            sent.unwrap_or(0)
        }
        Err(_) => 0,
    }
}

/// Serves the datagram `rounds` times by a server of one resource, `/r000`, which served it before, and 63 others before
/// that: each time the full duplicate table answers. Answers how many bytes it sent in all; 0 for lack of memory, and for a
/// datagram that isn't 4 to 64 bytes long.
#[unsafe(no_mangle)]
pub extern "C" fn osc_bench_repeat(alloc: Global, datagram: &[u8], rounds: u64) -> u64 {
    if !fits(datagram) {
        return 0;
    }
    match server_of(alloc, 1) {
        Ok(mut server) => {
            let sent = serve_again(alloc, &mut server, datagram, rounds);
            drop(server);
            sent.unwrap_or(0)
        }
        Err(_) => 0,
    }
}

// The most bytes that a datagram has here.
const ROOM: usize = 64;

// The most rounds.
const MOST_ROUNDS: u64 = 1 << 30;

// The moment of a round, where each is `apart` milliseconds after the one before.
fn moment_of(round: u64, apart: u32) -> Moment
    requires { round < MOST_ROUNDS }
{
    Moment {
        ms: round * apart as u64,
    }
}

fn fits(datagram: &[u8]) -> bool
    ensures { IsTrue result → (4 ≤ length datagram.now) × (length datagram.now ≤ ROOM) }
{
    4 <= datagram.len() && datagram.len() <= ROOM
}

// A server of this number of resources, each with four bytes and open.
pub(crate) fn server_of(alloc: Global, resources: u16) -> Result<Server, AllocError> {
    let mut tree = Tree::new(alloc);
    let mut open_scope = Scope::new(alloc);
    fill(alloc, &mut tree, &mut open_scope, resources)?;
    server(alloc, tree, open_scope)
}

// Puts and opens this number of resources, or as many as there is room for.
fn fill(
    alloc: Global,
    tree: &mut Tree,
    open_scope: &mut Scope,
    resources: u16,
) -> Result<(), AllocError> {
    for number in 0..resources {
        let text = format!(in alloc; "/r{number:03}")?;
        put(alloc, tree, text.as_bytes(), b"21.5")?;
        if let Some(path) = Path::from_text(alloc, text.as_bytes())? {
            open_scope.allow(alloc, path, Method::Get)?;
        }
    }
    Ok(())
}

// Serves `rounds` datagrams, which are this one but for their message IDs: those that come after its own.
fn serve_new(
    alloc: Global,
    server: &mut Server,
    apart: u32,
    datagram: &[u8],
    rounds: u64,
) -> Result<u64, AllocError>
    requires long { 4 ≤ length datagram.now }
    requires short { length datagram.now ≤ ROOM }
{
    let own_id = u16::from_be_bytes([datagram[2], datagram[3]]);
    let mut buffer = [0; ROOM];
    let copy = &mut buffer[..datagram.len()];
    copy.copy_from_slice(datagram);
    let mut sent = 0u64;
    for round in 0..rounds.min(MOST_ROUNDS) {
        let id = own_id.wrapping_add((round % 65536) as u16).wrapping_add(1);
        copy[2..4].copy_from_slice(&id.to_be_bytes());
        let bytes = bytes_sent(alloc, server, moment_of(round, apart), copy)?;
        sent = sent.wrapping_add(bytes);
    }
    Ok(sent)
}

// Serves 63 other datagrams and this one, and then this one `rounds` times again.
fn serve_again(
    alloc: Global,
    server: &mut Server,
    datagram: &[u8],
    rounds: u64,
) -> Result<u64, AllocError>
    requires long { 4 ≤ length datagram.now }
    requires short { length datagram.now ≤ ROOM }
{
    serve_new(alloc, server, 1, datagram, 63)?;
    bytes_sent(alloc, server, Moment { ms: 63 }, datagram)?;
    let mut sent = 0u64;
    for round in 0..rounds.min(MOST_ROUNDS) {
        let bytes = bytes_sent(alloc, server, Moment { ms: 64 + round }, datagram)?;
        sent = sent.wrapping_add(bytes);
    }
    Ok(sent)
}

// How many bytes answer the datagram.
fn bytes_sent(
    alloc: Global,
    server: &mut Server,
    now: Moment,
    datagram: &[u8],
) -> Result<u64, AllocError> {
    match answer(alloc, server, now, [0; 32], datagram) {
        Ok(step) => Ok(length_of(step)),
        Err(error) => Err(error),
    }
}

// What answers the datagram, where these bytes are drawn.
pub(crate) fn answer(
    alloc: Global,
    server: &mut Server,
    now: Moment,
    drawn: [u8; 32],
    datagram: &[u8],
) -> Result<Step, AllocError> {
    server.on_datagram::<Suite>(alloc, now, STRANGER, datagram, &Draw(drawn))
}

// How many bytes the step sends.
fn length_of(step: Step) -> u64 {
    let sent = length_in(step.out.as_slice());
    drop(step);
    sent
}

// How many bytes the datagrams have.
fn length_in(datagrams: &[Datagram]) -> u64 {
    let mut sent = 0u64;
    for datagram in datagrams {
        sent = sent.wrapping_add(datagram.bytes.len() as u64);
    }
    sent
}

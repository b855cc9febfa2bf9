//! Datagrams to a small server, and what it sends for each.
use osc_ccm::Suite;
use osc_fixtures::{CLIENT, at, put, scope_of, sent};
use osc_model::{Draw, Moment, Peer};
use osc_server::Server;
use osc_tree::Tree;
use std::alloc::{AllocError, Global};
use std::process::Abort;
use std::test::Fail;

const OTHER_PORT: Peer = Peer {
    port: 5684,
    ..CLIENT
};

/// GET on `/e` and `/t`.
const GETS: &[u8] = b"\x82\x82\x62/e\x01\x82\x62/t\x01";

/// `/e` has no bytes and `/t` has 31 zeros, both without a format; GETs of both are open.
fn server(alloc: Global) -> Result<Server, AllocError> {
    let mut tree = Tree::new(alloc);
    put(alloc, &mut tree, b"/e", b"")?;
    put(alloc, &mut tree, b"/t", &[0; 31])?;
    osc_fixtures::server(alloc, tree, scope_of(alloc, GETS)?)
}

/// A draw whose bytes 18 and 19 are these, the others zeros.
fn draw_of(high: u8, low: u8) -> Draw {
    let mut bytes = [0; 32];
    bytes[18] = high;
    bytes[19] = low;
    Draw(bytes)
}

/// What the server sends for the datagram, which comes at this moment from this peer.
fn answer(
    alloc: Global,
    server: &mut Server,
    now: Moment,
    from: Peer,
    datagram: &[u8],
    draw: &Draw,
) -> Result<Vec<u8>, AllocError> {
    let step = server.on_datagram::<Suite>(alloc, now, from, datagram, draw)?;
    Vec::from_slice(alloc, sent(&step))
}

/// What a server that heard nothing before sends for the datagram.
fn first_answer(alloc: Global, datagram: &[u8]) -> Result<Vec<u8>, AllocError> {
    let mut server = server(alloc)?;
    answer(
        alloc,
        &mut server,
        Moment::START,
        CLIENT,
        datagram,
        &draw_of(1, 0),
    )
}

/// Each datagram is answered so by a server of its own.
fn check(rt: &impl Abort, alloc: Global, rows: &[(&[u8], &[u8])]) -> Result<(), Fail> {
    for (datagram, reply) in rows {
        let answered = first_answer(alloc, datagram)?;
        assert_eq!(rt; answered.as_slice(), *reply);
    }
    Ok(())
}

/// A datagram that comes at this moment from this peer, with the bytes of the draw, and what answers it.
type Row<'a> = (u32, Peer, &'a [u8], (u8, u8), &'a [u8]);

fn answer_in_turn(
    alloc: Global,
    server: &mut Server,
    row: &Row<'_>,
) -> Result<Vec<u8>, AllocError> {
    let (ms, from, datagram, (high, low), _) = row;
    answer(
        alloc,
        server,
        at(*ms as u64),
        *from,
        datagram,
        &draw_of(*high, *low),
    )
}

/// One server answers the datagrams so, one after another.
fn check_in_turn(
    rt: &impl Abort,
    alloc: Global,
    server: &mut Server,
    rows: &[Row<'_>],
) -> Result<(), Fail> {
    for row in rows {
        let answered = answer_in_turn(alloc, server, row)?;
        assert_eq!(rt; answered.as_slice(), row.4);
    }
    Ok(())
}

#[test]
fn messages_that_are_no_requests(rt: HostRuntime) -> Result<(), Fail> {
    check(
        &rt,
        rt.alloc(),
        &[
            (b"", b""),
            (b"\x40\x01\x00", b""),
            (b"\x80\x01\x00\x06", b""),
            (b"\x50\x01\x00\x0d\xff", b""),
            (b"\x60\x00\x00\x05", b""),
            (b"\x70\x00\x00\x05", b""),
            (b"\x40\x00\x00\x05", b"\x70\x00\x00\x05"),
            (
                b"\x49\x01\x00\x07\x00\x01\x02\x03\x04\x05\x06\x07\x08",
                b"\x70\x00\x00\x07",
            ),
            (b"\x40\x01\x00\x08\xff", b"\x70\x00\x00\x08"),
            (b"\x40\x01\x00\x09\xf0", b"\x70\x00\x00\x09"),
            (b"\x40\x01\x00\x0a\x0f", b"\x70\x00\x00\x0a"),
            (b"\x40\x00\x00\x0b\x00", b"\x70\x00\x00\x0b"),
            (b"\x40\x25\x00\x0c", b"\x70\x00\x00\x0c"),
        ],
    )
}

#[test]
fn unprotected_requests(rt: HostRuntime) -> Result<(), Fail> {
    check(
        &rt,
        rt.alloc(),
        &[
            // GETs of `/e` and of `/t`, the second with a token.
            (
                b"\x40\x01\x00\x02\xb1e",
                b"\x60\x45\x00\x02\x48\x6e\x34\x0b\x9c\xff\xb3\x7a\x98",
            ),
            (
                b"\x42\x01\x00\x03ab\xb1t",
                b"\x62\x45\x00\x03ab\x48\x66\x68\x7a\xad\xf8\x62\xbd\x77\xff\0\0\0\0\0\0\0\0\0\0\0\0\0\0\0\0\0\0\0\0\0\0\0\0\0\0\0\0\0\0\0",
            ),
            // A GET of a path that isn't open, and a PUT.
            (b"\x40\x01\x00\x14\xb1u", b"\x60\x81\x00\x14"),
            (b"\x40\x03\x00\x15\xb1t", b"\x60\x81\x00\x15"),
            // Block2, Observe and OSCORE.
            (b"\x40\x01\x00\x18\xb1t\xc0", b"\x60\x82\x00\x18"),
            (
                b"\x40\x01\x00\x19\x60\x51e",
                b"\x60\x45\x00\x19\x48\x6e\x34\x0b\x9c\xff\xb3\x7a\x98",
            ),
            (
                b"\x40\x01\x00\x1a\x93\x09\x00\x05\x21e\xff\0",
                b"\x60\x81\x00\x1a\xd0\x01\xffSecurity context not found",
            ),
            (
                b"\x40\x02\x00\x24\x91\x20\xff\0",
                b"\x60\x82\x00\x24\xffFailed to decode COSE",
            ),
            // A GET and an unreadable POST at authz-info.
            (b"\x40\x01\x00\x16\xbaauthz-info", b"\x60\x85\x00\x16"),
            (
                b"\x40\x02\x00\x17\xbaauthz-info\xff\xa0",
                b"\x60\x80\x00\x17",
            ),
            // Proxy-Scheme and Proxy-Uri, the second also beside OSCORE.
            (b"\x40\x01\x00\x1b\xb1e\xd4\x0fcoap", b"\x60\xa5\x00\x1b"),
            (
                b"\x40\x01\x00\x1c\xb1e\xd9\x0bcoap://s/",
                b"\x60\xa5\x00\x1c",
            ),
            (
                b"\x40\x01\x00\x1f\x90\x21e\xd9\x0bcoap://s/",
                b"\x60\xa5\x00\x1f",
            ),
            // With a payload.
            (
                b"\x40\x01\x00\x22\xb1e\xffab",
                b"\x60\x45\x00\x22\x48\x6e\x34\x0b\x9c\xff\xb3\x7a\x98",
            ),
            (b"\x40\x02\x00\x23\xb1t\xffab", b"\x60\x81\x00\x23"),
            // Not confirmable, with Block2, and of a path that isn't open.
            (b"\x50\x01\x00\x1d\xb1e\xc0", b""),
            (b"\x51\x01\x00\x1ea\xb1u", b"\x51\x81\x01\x00a"),
        ],
    )
}

#[test]
fn requests_that_are_not_confirmable(rt: HostRuntime) -> Result<(), Fail> {
    check_in_turn(
        &rt,
        rt.alloc(),
        &mut server(rt.alloc())?,
        &[
            (
                0,
                CLIENT,
                b"\x50\x01\x00\x20\xb1e",
                (1, 0),
                b"\x50\x45\x01\x00\x48\x6e\x34\x0b\x9c\xff\xb3\x7a\x98",
            ),
            (0, CLIENT, b"\x50\x01\x00\x20\xb1e", (1, 0), b""),
            (
                0,
                CLIENT,
                b"\x50\x01\x00\x21\xb1e",
                (2, 0),
                b"\x50\x45\x01\x01\x48\x6e\x34\x0b\x9c\xff\xb3\x7a\x98",
            ),
            (
                145_000,
                CLIENT,
                b"\x50\x01\x00\x20\xb1e",
                (3, 0),
                b"\x50\x45\x01\x02\x48\x6e\x34\x0b\x9c\xff\xb3\x7a\x98",
            ),
            // A confirmable one of a message ID that was noted is its repeat.
            (
                145_000,
                CLIENT,
                b"\x40\x01\x00\x20\xb1u",
                (4, 0),
                b"\x50\x45\x01\x02\x48\x6e\x34\x0b\x9c\xff\xb3\x7a\x98",
            ),
        ],
    )
}

#[test]
fn message_ids_wrap(rt: HostRuntime) -> Result<(), Fail> {
    check_in_turn(
        &rt,
        rt.alloc(),
        &mut server(rt.alloc())?,
        &[
            (
                0,
                CLIENT,
                b"\x50\x01\x00\x20\xb1u",
                (255, 255),
                b"\x50\x81\xff\xff",
            ),
            (
                0,
                CLIENT,
                b"\x50\x01\x00\x21\xb1u",
                (255, 255),
                b"\x50\x81\x00\x00",
            ),
        ],
    )
}

#[test]
fn repeats(rt: HostRuntime) -> Result<(), Fail> {
    let get = b"\x40\x01\x00\x02\xb1e".as_slice();
    let reply = b"\x60\x45\x00\x02\x48\x6e\x34\x0b\x9c\xff\xb3\x7a\x98".as_slice();
    let draw = (0, 0);
    check_in_turn(
        &rt,
        rt.alloc(),
        &mut server(rt.alloc())?,
        &[
            (0, CLIENT, get, draw, reply),
            (0, CLIENT, get, draw, reply),
            // Of the same message ID, but another request.
            (0, CLIENT, b"\x40\x01\x00\x02\xb1u", draw, reply),
            (
                0,
                OTHER_PORT,
                b"\x40\x01\x00\x02\xb1u",
                draw,
                b"\x60\x81\x00\x02",
            ),
            // It isn't confirmable.
            (0, CLIENT, b"\x50\x01\x00\x02\xb1e", draw, b""),
            // It is rejected each time.
            (
                0,
                CLIENT,
                b"\x40\x01\x00\x08\xff",
                draw,
                b"\x70\x00\x00\x08",
            ),
            (
                0,
                CLIENT,
                b"\x40\x01\x00\x08\xff",
                draw,
                b"\x70\x00\x00\x08",
            ),
            (246_999, CLIENT, b"\x40\x01\x00\x02\xb1u", draw, reply),
            (
                247_000,
                CLIENT,
                b"\x40\x01\x00\x02\xb1u",
                draw,
                b"\x60\x81\x00\x02",
            ),
        ],
    )
}

/// An open GET that is refused memory is answered the next time; where the tree alone lacks memory, by 5.00.
fn gets_or_stays(rt: &impl Abort, alloc: Global, server: &mut Server) -> Result<(), Fail> {
    let get = b"\x40\x01\x00\x03\xb1t";
    let draw = draw_of(1, 0);
    let refused = answer(alloc, server, Moment::START, CLIENT, get, &draw).is_err();
    let answered = answer(alloc, server, Moment::START, CLIENT, get, &draw)?;
    let has_content = answered.starts_with(b"\x60\x45\x00\x03\x48");
    assert!(rt; has_content || !refused && answered.as_slice() == b"\x60\xa0\x00\x03".as_slice());
    Ok(())
}

#[test]
fn a_refused_allocation_of_an_open_get(rt: HostRuntime) -> Result<(), Fail> {
    let mut server = server(rt.alloc())?;
    gets_or_stays(&rt, rt.alloc(), &mut server)
}

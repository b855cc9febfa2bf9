//! What a Proxy-Uri names.

use osc_proxy::read_proxy_uri;
use std::process::Abort;
use std::test::*;

/// The host and the port that it names; no host and port 0 where it names none.
fn named(uri: &[u8]) -> (&[u8], u16) {
    match read_proxy_uri(uri) {
        Some(origin) => (origin.host, origin.port),
        None => (&[], 0),
    }
}

fn names(rt: &impl Abort) {
    assert!(rt; named(b"coap://s") == (b"s".as_slice(), 5683));
    assert!(rt; named(b"coap://s/") == (b"s".as_slice(), 5683));
    assert!(rt; named(b"coap://s:1") == (b"s".as_slice(), 1));
    assert!(rt; named(b"coap://s:65535/") == (b"s".as_slice(), 65535));
    assert!(rt; named(b"coap://s:00001") == (b"s".as_slice(), 1));
    assert!(rt; named(b"coap://Gate.Example:61616/") == (b"Gate.Example".as_slice(), 61616));
    assert!(rt; named(b"coap://s?a=b") == (b"s?a=b".as_slice(), 5683));
}

fn is_another_form(uri: &[u8]) -> bool {
    read_proxy_uri(uri).is_none()
}

/// What names no host in this form.
const OTHERS: [&[u8]; 20] = [
    b"",
    b"coap:",
    b"coap:/s",
    b"COAP://s",
    b"coaps://s",
    b"http://s/",
    b"coap://",
    b"coap:///",
    b"coap://:5683",
    b"coap://s:",
    b"coap://s:/",
    b"coap://s:0",
    b"coap://s:00000",
    b"coap://s:65536",
    b"coap://s:005683",
    b"coap://s:5683x",
    b"coap://s:+1",
    b"coap://s//",
    b"coap://s/e",
    b"coap://s:5683/e",
];

fn names_nothing(rt: &impl Abort) {
    for &uri in &OTHERS {
        assert!(rt; is_another_form(uri));
    }
}

#[test]
fn uris_of_the_form_and_of_others(rt: HostRuntime) -> Result<(), Fail> {
    names(&rt);
    names_nothing(&rt);
    Ok(())
}

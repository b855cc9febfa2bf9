//! A message that is built step by step, and parts that outlive their message. The others are rows.
use osc_coap::{DATAGRAM_LIMIT, DatagramTooLong, Kind, MessageBuilder, MessageRef};

/// A GET with the token 00003974 and the options Uri-Host "localhost" and Uri-Path "tv1".
const REQUEST: [u8; 22] = [
    0x44, 0x01, 0x5d, 0x1f, 0x00, 0x00, 0x39, 0x74, 0x39, 0x6c, 0x6f, 0x63, 0x61, 0x6c, 0x68, 0x6f,
    0x73, 0x74, 0x83, 0x74, 0x76, 0x31,
];

/// A 2.05 to a request with a token of two bytes: an ETag and a payload of 31 bytes.
#[test]
fn a_reply(rt: HostRuntime) {
    let mut builder = MessageBuilder::start(Kind::Acknowledgement, 0x45, 3, b"ab");
    let etag = builder.option(4, b"\x66\x68\x7a\xad\xf8\x62\xbd\x77");
    etag.expect(&rt, "room");
    builder.payload(&[0; 31]).expect(&rt, "room");
    let start = b"\x62\x45\x00\x03ab\x48\x66\x68\x7a\xad\xf8\x62\xbd\x77\xff";
    assert!(rt; builder.bytes().starts_with(start));
    assert!(rt; builder.message().payload() == Some([0; 31].as_slice()));
    assert!(rt; builder.into_bytes().len() == 47);
}

/// The payload of a datagram, which outlives the message that lent it.
fn payload_in(datagram: &[u8]) -> Option<&[u8]> {
    let message = MessageRef::parse(datagram).ok()?;
    message.payload()
}

#[test]
fn a_payload_outlives_its_message(rt: HostRuntime) {
    let datagram = [0x60, 0x45, 0, 1, 0xff, 0x68, 0x69];
    assert!(rt; payload_in(&datagram) == Some(b"hi".as_slice()));
}

/// 1152 bytes are a datagram, 1153 are not.
#[test]
fn a_full_datagram(rt: HostRuntime) {
    let mut builder = MessageBuilder::start(Kind::Confirmable, 2, 1, b"");
    let refused = builder.option(8, &[97; 1146]);
    assert!(rt; refused.expect_err(&rt, "too long") == DatagramTooLong);
    let refused = builder.payload(&[97; 1148]);
    refused.expect_err(&rt, "too long");
    assert!(rt; builder.bytes() == b"\x40\x02\x00\x01".as_slice());
    let written = builder.payload(&[97; 1147]);
    assert!(rt; written.is_ok());
    assert!(rt; builder.bytes().len() == DATAGRAM_LIMIT);
}

#[test]
fn printed(rt: HostRuntime) {
    let error = DatagramTooLong;
    let printed = format!(in rt.alloc(); "{} {error}", error.number()).expect(&rt, "memory");
    assert!(rt; printed.as_str() == "14 the message is longer than 1152 bytes");
}

/// The token and the first option's value of a datagram, which outlive the message and the options that lent them.
fn token_and_value_in(datagram: &[u8]) -> Option<(&[u8], &[u8])> {
    let message = MessageRef::parse(datagram).ok()?;
    let (_, value) = message.options().next()?;
    Some((message.token(), value))
}

#[test]
fn a_token_and_a_value_outlive_their_message(rt: HostRuntime) {
    let lent = token_and_value_in(&REQUEST);
    let wanted = (b"\x00\x00\x39\x74".as_slice(), b"localhost".as_slice());
    assert!(rt; lent == Some(wanted));
}

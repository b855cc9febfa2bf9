//! Sealings with one bit or some bytes changed, and round trips at any cipher. The others are rows.

ghost use Rattle.std.specs.Prelude.{◌≡◌, ◌+◌, ◌≤◌, length, take};
ghost use Rattle.osc_ccm.specs.{IsInRange};

use osc_ccm::{Aead, Ccm, OpenError};
use std::process::Abort;

mod marked;

use marked::Marked;

/// The key of RFC 3610's packet vectors.
const KEY: [u8; 16] = [
    0xc0, 0xc1, 0xc2, 0xc3, 0xc4, 0xc5, 0xc6, 0xc7, 0xc8, 0xc9, 0xca, 0xcb, 0xcc, 0xcd, 0xce, 0xcf,
];

/// RFC 3610 section 8, packet vector 1: nonce, associated data, and what is sealed.
const NONCE: [u8; 13] = *b"\x00\x00\x00\x03\x02\x01\x00\xa0\xa1\xa2\xa3\xa4\xa5";

const AAD: [u8; 8] = [0, 1, 2, 3, 4, 5, 6, 7];

const SEALED: [u8; 31] =
    *b"\x58\x8c\x97\x9a\x61\xc6\x63\xd2\xf0\x66\xd0\xc2\xc0\xf9\x89\x80\x6d\x5f\x6b\x61\xda\xc3\x84\x17\xe8\xd1\x2c\xfd\xf9\x26\xe0";

/// Whether nothing was written there.
fn is_untouched(out: &[u8]) -> bool {
    out.iter().all(|byte| *byte == 0xee)
}

/// Whether the packet's key, nonce and associated data open these bytes.
fn opens(rt: &impl Abort, sealed: &[u8]) -> bool {
    let mut out = [0xee; 23];
    let result = Ccm::<8>::from_key(&KEY).open(&NONCE, &AAD, sealed, &mut out);
    if let Err(error) = result {
        assert!(rt; error == OpenError::NotGenuine);
        assert!(rt; is_untouched(&out));
    }
    result.is_ok()
}

/// Each bit of a sealing counts, and so does its length.
#[test]
fn nothing_else_is_genuine(rt: HostRuntime) {
    let mut sealed = SEALED;
    assert!(rt; opens(&rt, &sealed));
    for index in 0..31 {
        for &bit in &[1, 2, 4, 8, 16, 32, 64, 128] {
            sealed[index] ^= bit;
            assert!(rt; !opens(&rt, &sealed));
            sealed[index] ^= bit;
        }
        assert!(rt; !opens(&rt, &sealed[..index]));
    }
    assert!(rt; opens(&rt, &sealed));
}

/// What a text is sealed to opens to that text, at any cipher: by the law of `Aead` alone.
fn seal_and_open<A: Aead>(
    cipher: &A,
    nonce: &[u8; 13],
    aad: &[u8],
    text: &[u8],
    sealed: &mut [u8],
    opened: &mut [u8],
) -> usize
    requires range { IsInRange (length text.now) (length aad.now) }
    requires sealed { length text.now + A.TAG ≤ length sealed.old }
    requires opened { length text.now ≤ length opened.old }
    ensures { take result opened.new ≡ text.now }
{
    let count = cipher.seal(nonce, aad, text, sealed).unwrap();
    cipher.open(nonce, aad, &sealed[..count], opened).unwrap()
}

fn round_trip<A: Aead>(rt: &impl Abort, cipher: &A) {
    let (mut sealed, mut opened) = ([0; 20], [0; 4]);
    assert!(rt; A::TAG <= 16);
    let count = seal_and_open(cipher, &[1; 13], b"a", b"text", &mut sealed, &mut opened);
    assert!(rt; opened.get(..count) == Some(b"text".as_slice()));
}

#[test]
fn round_trips(rt: HostRuntime) {
    round_trip(&rt, &Ccm::<8>::from_key(&KEY));
    round_trip(&rt, &Ccm::<16>::from_key(&KEY));
    round_trip(&rt, &Marked::from_key(&KEY));
}

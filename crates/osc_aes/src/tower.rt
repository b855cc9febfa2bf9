//! The substitution of bytes (FIPS 197, section 5.1.1) on sixteen lanes at once, by look-ups among 16 entries that stay in
//! registers: each is one shuffle of bytes.
//!
//! A byte is written as another, its form, whose halves are two elements of the field of 16; sums of bytes are sums of
//! forms. The inverse of a byte is made of inverses in that field (M. Hamburg, Accelerating AES with Vector Permute
//! Instructions, CHES 2009): five look-ups give two places, and the substitute is the sum of what two tables have there. 0
//! has no inverse in the field, and 0x80 stands for it; a look-up from 128 on gives 0.
//!
//! The 0x63 of the affine map isn't added here: it is in the round keys.
ghost use Rattle.std.specs.Prelude.{◌≡◌, map};
ghost use Rattle.std.specs.Simd.Lanes.{Each1};
ghost use Rattle.osc_aes.specs.Inner.Tower.{IsPlace, looked, upper, lower, first_place, second_place, byte_of, substitute, doubled, plain_substitute};
ghost use Rattle.osc_aes.specs.Inner.States.{state_in};

use std::simd::prelude::*;

/// The inverse of each element of the field of 16.
const INVERSES: [u8; 16] = [
    0x80, 0x01, 0x08, 0x0d, 0x0f, 0x06, 0x05, 0x0e, 0x02, 0x0c, 0x0b, 0x0a, 0x09, 0x03, 0x07, 0x04,
];

/// Each element's inverse times a constant of the field.
const QUOTIENTS: [u8; 16] = [
    0x80, 0x07, 0x0b, 0x0f, 0x06, 0x0a, 0x04, 0x01, 0x09, 0x08, 0x05, 0x02, 0x0c, 0x0e, 0x0d, 0x03,
];

/// The form of a byte below 16.
const FORM_LOWER: [u8; 16] = [
    0x00, 0x70, 0x2a, 0x5a, 0x98, 0xe8, 0xb2, 0xc2, 0x08, 0x78, 0x22, 0x52, 0x90, 0xe0, 0xba, 0xca,
];

/// The form of 16 times each number.
const FORM_UPPER: [u8; 16] = [
    0x00, 0x4d, 0x7c, 0x31, 0x7d, 0x30, 0x01, 0x4c, 0x81, 0xcc, 0xfd, 0xb0, 0xfc, 0xb1, 0x80, 0xcd,
];

/// The byte whose form is a number below 16.
const BYTE_LOWER: [u8; 16] = [
    0x00, 0x60, 0xb6, 0xd6, 0x29, 0x49, 0x9f, 0xff, 0x08, 0x68, 0xbe, 0xde, 0x21, 0x41, 0x97, 0xf7,
];

/// The byte whose form is 16 times each number.
const BYTE_UPPER: [u8; 16] = [
    0x00, 0xec, 0xbc, 0x50, 0x51, 0xbd, 0xed, 0x01, 0xe0, 0x0c, 0x5c, 0xb0, 0xb1, 0x5d, 0x0d, 0xe1,
];

/// What the first place adds to the form of the substitute.
const SUBSTITUTE_FIRST: [u8; 16] = [
    0x00, 0x3e, 0x50, 0xcb, 0x8f, 0xe1, 0x9b, 0xb1, 0x44, 0xf5, 0x2a, 0x14, 0x6e, 0x7a, 0xdf, 0xa5,
];

/// What the second place adds to it.
const SUBSTITUTE_SECOND: [u8; 16] = [
    0x00, 0x23, 0xe2, 0xfa, 0x15, 0xd4, 0x18, 0x36, 0xef, 0xd9, 0x2e, 0x0d, 0xc1, 0xcc, 0xf7, 0x3b,
];

/// What the first place adds to the form of x times the substitute.
const DOUBLED_FIRST: [u8; 16] = [
    0x00, 0x24, 0x71, 0x0b, 0xc6, 0x93, 0x7a, 0xe2, 0xcd, 0x2f, 0x98, 0xbc, 0x55, 0xe9, 0xb7, 0x5e,
];

/// What the second place adds to it.
const DOUBLED_SECOND: [u8; 16] = [
    0x00, 0x29, 0xe1, 0x0a, 0x40, 0x88, 0xeb, 0x69, 0x4a, 0x23, 0x82, 0xab, 0xc8, 0x63, 0xa1, 0xc2,
];

/// What the first place adds to the substitute itself.
const PLAIN_FIRST: [u8; 16] = [
    0x00, 0xc7, 0xbd, 0x6f, 0x17, 0x6d, 0xd2, 0xd0, 0x78, 0xa8, 0x02, 0xc5, 0x7a, 0xbf, 0xaa, 0x15,
];

/// What the second place adds to it.
const PLAIN_SECOND: [u8; 16] = [
    0x00, 0x6a, 0xbb, 0x5f, 0xa5, 0x74, 0xe4, 0xcf, 0xfa, 0x35, 0x2b, 0x41, 0xd1, 0x90, 0x1e, 0x8e,
];

/// The entries of a table at these places.
#[inline(always)]
fn look_up(table: [u8; 16], places: u8x16) -> u8x16
    requires { Each1 IsPlace places }
    ensures { result ≡ map (looked table) places }
{
    u8x16::from_array(table).swizzle_dyn(places)
}

/// The upper and the lower half of each lane.
#[inline(always)]
fn halves(lanes: u8x16) -> (u8x16, u8x16)
    ensures upper { result.0 ≡ map upper lanes }
    ensures lower { result.1 ≡ map lower lanes }
{
    (lanes >> u8x16::splat(4), lanes & u8x16::splat(15))
}

/// The two places of each form, which its inverse is read from.
#[inline(always)]
fn places(forms: u8x16) -> (u8x16, u8x16)
    ensures first { result.0 ≡ map first_place forms }
    ensures second { result.1 ≡ map second_place forms }
{
    let (upper, lower) = halves(forms);
    let sum = upper ^ lower;
    let quotient = look_up(QUOTIENTS, lower);
    let one = look_up(INVERSES, upper) ^ quotient;
    let other = look_up(INVERSES, sum) ^ quotient;
    (
        look_up(INVERSES, one) ^ sum,
        look_up(INVERSES, other) ^ upper,
    )
}

/// The forms of bytes.
#[inline(always)]
pub(crate) fn forms(bytes: u8x16) -> u8x16
    ensures bytes { map byte_of result ≡ bytes }
    ensures state { state_in 0 result ≡ bytes }
{
    let (upper, lower) = halves(bytes);
    look_up(FORM_LOWER, lower) ^ look_up(FORM_UPPER, upper)
}

/// The bytes of forms.
#[inline(always)]
pub(crate) fn bytes(forms: u8x16) -> u8x16
    ensures { result ≡ map byte_of forms }
{
    let (upper, lower) = halves(forms);
    look_up(BYTE_LOWER, lower) ^ look_up(BYTE_UPPER, upper)
}

/// The form of the substitute of each byte by its form, 0x63 left out.
#[inline(always)]
pub(crate) fn substitutes(forms: u8x16) -> u8x16
    ensures { result ≡ map substitute forms }
{
    let (first, second) = places(forms);
    look_up(SUBSTITUTE_FIRST, first) ^ look_up(SUBSTITUTE_SECOND, second)
}

/// The same, and the form of x times it (section 4.2).
#[inline(always)]
pub(crate) fn doubled_substitutes(forms: u8x16) -> (u8x16, u8x16)
    ensures once { result.0 ≡ map substitute forms }
    ensures doubled { result.1 ≡ map doubled forms }
{
    let (first, second) = places(forms);
    let once = look_up(SUBSTITUTE_FIRST, first) ^ look_up(SUBSTITUTE_SECOND, second);
    let doubled = look_up(DOUBLED_FIRST, first) ^ look_up(DOUBLED_SECOND, second);
    (once, doubled)
}

/// The substitute of each byte by its form, 0x63 left out, as a byte.
#[inline(always)]
pub(crate) fn plain_substitutes(forms: u8x16) -> u8x16
    ensures { result ≡ map plain_substitute forms }
{
    let (first, second) = places(forms);
    look_up(PLAIN_FIRST, first) ^ look_up(PLAIN_SECOND, second)
}

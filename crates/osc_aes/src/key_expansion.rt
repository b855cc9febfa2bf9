//! The key schedule (FIPS 197, section 5.2) on sixteen lanes, a round key at a time.
ghost use Rattle.std.specs.Prelude.{◌≡◌, ◌++◌, map, take, replicate, bit_xor};
ghost use Rattle.osc_aes.specs.Inner.Tower.{byte_of};
ghost use Rattle.osc_aes.specs.Inner.States.{state_in, with_constant};
ghost use Rattle.osc_aes.specs.Inner.Keys.{AreKeys, next_round_key};

use crate::tower::{bytes, forms, substitutes};
use std::simd::prelude::*;

/// The round keys as the rounds take them, each with 0x63 added to its bytes but the first: forms, turned as the state is
/// then, and in the last round bytes.
#[derive(Drop)]
pub(crate) struct Keys {
    /// The key itself, which is round key 0, as it was given.
    pub(crate) key: u8x16,
    pub(crate) round_1: u8x16,
    pub(crate) round_2: u8x16,
    pub(crate) round_3: u8x16,
    pub(crate) round_4: u8x16,
    pub(crate) round_5: u8x16,
    pub(crate) round_6: u8x16,
    pub(crate) round_7: u8x16,
    pub(crate) round_8: u8x16,
    pub(crate) round_9: u8x16,
    /// Round key 10, as bytes.
    pub(crate) last: u8x16,
}

/// The form of 0x63.
const CONSTANT: u8 = 0x5b;

/// The forms of the first bytes of the round constants number 1 to 10, each with 0x63 added.
const ROUND_CONSTANTS: [u8; 10] = [0x2b, 0x71, 0xc3, 0x53, 0x16, 0x27, 0x26, 0xda, 0x44, 0xd8];

/// Lanes moved up by a word, after zeros.
#[inline(always)]
fn word_later(lanes: u8x16) -> u8x16
    ensures { result ≡ replicate 4 0 ++ take 12 lanes }
{
    lanes.shuffle(
        u8x16::splat(0),
        [16, 16, 16, 16, 0, 1, 2, 3, 4, 5, 6, 7, 8, 9, 10, 11],
    )
}

/// Lanes moved up by two words, after zeros.
#[inline(always)]
fn two_words_later(lanes: u8x16) -> u8x16
    ensures { result ≡ replicate 8 0 ++ take 8 lanes }
{
    lanes.shuffle(
        u8x16::splat(0),
        [16, 16, 16, 16, 16, 16, 16, 16, 0, 1, 2, 3, 4, 5, 6, 7],
    )
}

/// The forms of the next round key: each word is the sum of the words up to it and of the last one, turned left by one
/// byte and substituted. `constant` is the form of the round constant's first byte with 0x63 added.
#[inline(always)]
fn next_key(key: u8x16, constant: u8) -> u8x16
    ensures { map byte_of result ≡ next_round_key (bit_xor (byte_of constant) 0x63) (map byte_of key) }
{
    let (n, c) = (constant, CONSTANT);
    let constants = u8x16::from_array([n, c, c, c, n, c, c, c, n, c, c, c, n, c, c, c]);
    let last = key.swizzle([
        13, 14, 15, 12, 13, 14, 15, 12, 13, 14, 15, 12, 13, 14, 15, 12,
    ]);
    let pairs = key ^ word_later(key);
    let sums = pairs ^ two_words_later(pairs);
    sums ^ constants ^ substitutes(last)
}

/// A round key for a state that is turned not at all.
#[inline(always)]
fn turned_0(key: u8x16) -> u8x16
    ensures { state_in 0 result ≡ with_constant (map byte_of key) }
{
    key ^ u8x16::splat(CONSTANT)
}

/// A round key for a state that is turned once.
#[inline(always)]
fn turned_1(key: u8x16) -> u8x16
    ensures { state_in 1 result ≡ with_constant (map byte_of key) }
{
    (key ^ u8x16::splat(CONSTANT)).swizzle([0, 13, 10, 7, 4, 1, 14, 11, 8, 5, 2, 15, 12, 9, 6, 3])
}

/// A round key for a state that is turned twice.
#[inline(always)]
fn turned_2(key: u8x16) -> u8x16
    ensures { state_in 2 result ≡ with_constant (map byte_of key) }
{
    (key ^ u8x16::splat(CONSTANT)).swizzle([0, 9, 2, 11, 4, 13, 6, 15, 8, 1, 10, 3, 12, 5, 14, 7])
}

/// A round key for a state that is turned three times.
#[inline(always)]
fn turned_3(key: u8x16) -> u8x16
    ensures { state_in 3 result ≡ with_constant (map byte_of key) }
{
    (key ^ u8x16::splat(CONSTANT)).swizzle([0, 5, 10, 15, 4, 9, 14, 3, 8, 13, 2, 7, 12, 1, 6, 11])
}

/// The last round key.
#[inline(always)]
fn last_key(key: u8x16) -> u8x16
    ensures { result ≡ with_constant (map byte_of key) }
{
    bytes(key) ^ u8x16::splat(0x63)
}

/// All round keys of `key`.
pub(crate) fn key_expansion(key: &[u8; 16]) -> Keys
    ensures key { result.key ≡ key.now }
    ensures keys { AreKeys result }
{
    let key = u8x16::from_array(*key);
    let one = next_key(forms(key), ROUND_CONSTANTS[0]);
    let two = next_key(one, ROUND_CONSTANTS[1]);
    let three = next_key(two, ROUND_CONSTANTS[2]);
    let four = next_key(three, ROUND_CONSTANTS[3]);
    let five = next_key(four, ROUND_CONSTANTS[4]);
    let six = next_key(five, ROUND_CONSTANTS[5]);
    let seven = next_key(six, ROUND_CONSTANTS[6]);
    let eight = next_key(seven, ROUND_CONSTANTS[7]);
    let nine = next_key(eight, ROUND_CONSTANTS[8]);
    let ten = next_key(nine, ROUND_CONSTANTS[9]);
    Keys {
        key,
        round_1: turned_1(one),
        round_2: turned_2(two),
        round_3: turned_3(three),
        round_4: turned_0(four),
        round_5: turned_1(five),
        round_6: turned_2(six),
        round_7: turned_3(seven),
        round_8: turned_0(eight),
        round_9: turned_1(nine),
        last: last_key(ten),
    }
}

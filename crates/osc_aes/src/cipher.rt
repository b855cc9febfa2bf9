//! The rounds of the cipher (FIPS 197, section 5.1) on sixteen lanes. A state is the forms of its bytes (`tower`), and
//! ShiftRows moves none of them: the state counts as turned once more after each round, and four turns are none.
ghost use Rattle.std.specs.Prelude.{◌≡◌, bit_xor};
ghost use Rattle.std.specs.Simd.Lanes.{zip2};
ghost use Rattle.osc_aes.specs.Cipher.{sub_bytes, shift_rows, rounds, cipher};
ghost use Rattle.osc_aes.specs.KeyExpansion.{key_expansion};
ghost use Rattle.osc_aes.specs.Inner.States.{state_in, mixed_state, with_constant};
ghost use Rattle.osc_aes.specs.Inner.Keys.{AreKeys};

use crate::key_expansion::Keys;
use crate::tower::{doubled_substitutes, forms, plain_substitutes};
use std::simd::prelude::*;

/// Where the form of the byte one row below is, once ShiftRows has turned the state once.
const NEXT_1: [usize; 16] = [5, 6, 7, 4, 9, 10, 11, 8, 13, 14, 15, 12, 1, 2, 3, 0];

/// Where the form of the byte one row above is, once ShiftRows has turned the state once.
const BEFORE_1: [usize; 16] = [15, 12, 13, 14, 3, 0, 1, 2, 7, 4, 5, 6, 11, 8, 9, 10];

/// Where the form of the byte one row below is, once ShiftRows has turned the state twice.
const NEXT_2: [usize; 16] = [9, 10, 11, 8, 13, 14, 15, 12, 1, 2, 3, 0, 5, 6, 7, 4];

/// Where the form of the byte one row above is, once ShiftRows has turned the state twice.
const BEFORE_2: [usize; 16] = [11, 8, 9, 10, 15, 12, 13, 14, 3, 0, 1, 2, 7, 4, 5, 6];

/// Where the form of the byte one row below is, once ShiftRows has turned the state three times.
const NEXT_3: [usize; 16] = [13, 14, 15, 12, 1, 2, 3, 0, 5, 6, 7, 4, 9, 10, 11, 8];

/// Where the form of the byte one row above is, once ShiftRows has turned the state three times.
const BEFORE_3: [usize; 16] = [7, 4, 5, 6, 11, 8, 9, 10, 15, 12, 13, 14, 3, 0, 1, 2];

/// Where the form of the byte one row below is, once ShiftRows has turned the state from three times to not at all.
const NEXT_0: [usize; 16] = [1, 2, 3, 0, 5, 6, 7, 4, 9, 10, 11, 8, 13, 14, 15, 12];

/// Where the form of the byte one row above is, once ShiftRows has turned the state from three times to not at all.
const BEFORE_0: [usize; 16] = [3, 0, 1, 2, 7, 4, 5, 6, 11, 8, 9, 10, 15, 12, 13, 14];

/// A round before the last, after which the state is turned once.
#[inline(always)]
fn round_to_1(state: u8x16, key: u8x16) -> u8x16
    ensures { state_in 1 result ≡ zip2 bit_xor (mixed_state (state_in 0 state)) (with_constant (state_in 1 key)) }
{
    let (once, doubled) = doubled_substitutes(state);
    let sum = once.swizzle(NEXT_1) ^ doubled;
    once.swizzle(BEFORE_1) ^ key ^ sum ^ sum.swizzle(NEXT_1)
}

/// A round before the last, after which the state is turned twice.
#[inline(always)]
fn round_to_2(state: u8x16, key: u8x16) -> u8x16
    ensures { state_in 2 result ≡ zip2 bit_xor (mixed_state (state_in 1 state)) (with_constant (state_in 2 key)) }
{
    let (once, doubled) = doubled_substitutes(state);
    let sum = once.swizzle(NEXT_2) ^ doubled;
    once.swizzle(BEFORE_2) ^ key ^ sum ^ sum.swizzle(NEXT_2)
}

/// A round before the last, after which the state is turned three times.
#[inline(always)]
fn round_to_3(state: u8x16, key: u8x16) -> u8x16
    ensures { state_in 3 result ≡ zip2 bit_xor (mixed_state (state_in 2 state)) (with_constant (state_in 3 key)) }
{
    let (once, doubled) = doubled_substitutes(state);
    let sum = once.swizzle(NEXT_3) ^ doubled;
    once.swizzle(BEFORE_3) ^ key ^ sum ^ sum.swizzle(NEXT_3)
}

/// A round before the last, after which the state is turned not at all.
#[inline(always)]
fn round_to_0(state: u8x16, key: u8x16) -> u8x16
    ensures { state_in 0 result ≡ zip2 bit_xor (mixed_state (state_in 3 state)) (with_constant (state_in 0 key)) }
{
    let (once, doubled) = doubled_substitutes(state);
    let sum = once.swizzle(NEXT_0) ^ doubled;
    once.swizzle(BEFORE_0) ^ key ^ sum ^ sum.swizzle(NEXT_0)
}

/// The last round, without MixColumns, of a state that is turned once.
#[inline(always)]
fn last_round(state: u8x16, key: u8x16) -> u8x16
    ensures { result ≡ zip2 bit_xor (shift_rows (sub_bytes (state_in 1 state))) (with_constant key) }
{
    plain_substitutes(state).swizzle([0, 9, 2, 11, 4, 13, 6, 15, 8, 1, 10, 3, 12, 5, 14, 7]) ^ key
}

/// The state of a block before the first round.
#[inline(always)]
fn first_state(block: u8x16, keys: &Keys) -> u8x16
    requires { AreKeys keys.now }
    ensures { state_in 0 result ≡ rounds block (key_expansion keys.now.key) 0 }
{
    forms(block ^ keys.key)
}

/// The state after nine rounds. They stand one by one, so that the compiler keeps the state in a register.
#[inline(always)]
fn nine_rounds(block: u8x16, keys: &Keys) -> u8x16
    requires { AreKeys keys.now }
    ensures { state_in 1 result ≡ rounds block (key_expansion keys.now.key) 9 }
{
    let state = first_state(block, keys);
    let state = round_to_1(state, keys.round_1);
    let state = round_to_2(state, keys.round_2);
    let state = round_to_3(state, keys.round_3);
    let state = round_to_0(state, keys.round_4);
    let state = round_to_1(state, keys.round_5);
    let state = round_to_2(state, keys.round_6);
    let state = round_to_3(state, keys.round_7);
    let state = round_to_0(state, keys.round_8);
    round_to_1(state, keys.round_9)
}

/// Ten rounds, the last without MixColumns (section 5.1).
pub(crate) fn cipher(block: [u8; 16], keys: &Keys) -> [u8; 16]
    requires { AreKeys keys.now }
    ensures { result ≡ cipher block (key_expansion keys.now.key) }
{
    let state = nine_rounds(u8x16::from_array(block), keys);
    last_round(state, keys.last).to_array()
}

/// The states of two blocks after nine rounds, round by round in turn: the look-ups of one don't wait for those of the
/// other.
#[inline(always)]
fn nine_rounds_of_two(one: u8x16, other: u8x16, keys: &Keys) -> (u8x16, u8x16)
    requires { AreKeys keys.now }
    ensures one { state_in 1 result.0 ≡ rounds one (key_expansion keys.now.key) 9 }
    ensures other { state_in 1 result.1 ≡ rounds other (key_expansion keys.now.key) 9 }
{
    let (a, b) = (first_state(one, keys), first_state(other, keys));
    let (a, b) = (round_to_1(a, keys.round_1), round_to_1(b, keys.round_1));
    let (a, b) = (round_to_2(a, keys.round_2), round_to_2(b, keys.round_2));
    let (a, b) = (round_to_3(a, keys.round_3), round_to_3(b, keys.round_3));
    let (a, b) = (round_to_0(a, keys.round_4), round_to_0(b, keys.round_4));
    let (a, b) = (round_to_1(a, keys.round_5), round_to_1(b, keys.round_5));
    let (a, b) = (round_to_2(a, keys.round_6), round_to_2(b, keys.round_6));
    let (a, b) = (round_to_3(a, keys.round_7), round_to_3(b, keys.round_7));
    let (a, b) = (round_to_0(a, keys.round_8), round_to_0(b, keys.round_8));
    (round_to_1(a, keys.round_9), round_to_1(b, keys.round_9))
}

/// The ciphers of two blocks.
pub(crate) fn cipher_two(one: [u8; 16], other: [u8; 16], keys: &Keys) -> ([u8; 16], [u8; 16])
    requires { AreKeys keys.now }
    ensures one { result.0 ≡ cipher one (key_expansion keys.now.key) }
    ensures other { result.1 ≡ cipher other (key_expansion keys.now.key) }
{
    let (one, other) = (u8x16::from_array(one), u8x16::from_array(other));
    let (a, b) = nine_rounds_of_two(one, other, keys);
    let (a, b) = (last_round(a, keys.last), last_round(b, keys.last));
    (a.to_array(), b.to_array())
}

//! Partial IVs and nonces (RFC 8613 sections 5.2 and 6.1).

ghost use Rattle.std.specs.Prelude.{◌≡◌, ◌≤◌, ◌<◌, ◌∷◌, ◌++◌, length, bit_xor};
ghost use Rattle.std.specs.Simd.Lanes.{zip2};
ghost use Rattle.arrayvec.specs.ArrayVec.{array_vec_len};
ghost use Rattle.osc_context.specs.Nonce as spec;
ghost use Rattle.osc_context.specs.Nonce.{longest_id, greatest_number};

use arrayvec::ArrayVec;

/// The most bytes of a sender ID: the nonce has 13 bytes (RFC 8613 section 3.3).
pub const ID_LIMIT: usize = 7;

/// The greatest sender sequence number, 2^40 - 1: a Partial IV has at most 5 bytes (RFC 8613 section 7.2.1).
pub const NUMBER_LIMIT: u64 = 1_099_511_627_775;

/// A copy of an ID.
pub(crate) fn id_copy(id: &[u8]) -> ArrayVec<u8, ID_LIMIT>
    requires { length id.now ≤ longest_id }
    ensures { result.items ≡ id.now }
{
    let mut copy = ArrayVec::new();
    let _ = copy.try_extend_from_slice(id);
    copy
}

/// The five low bytes of a number, the most significant first.
fn five_bytes(number: u64) -> [u8; 5]
    requires { number ≤ greatest_number }
    ensures { result ≡ spec.five_bytes number }
{
    let [_, _, _, a, b, c, d, e] = number.to_be_bytes();
    [a, b, c, d, e]
}

/// The bytes without their leading zeros, but for the last byte.
fn without_zeros(bytes: &[u8]) -> &[u8]
    ensures value { result.now ≡ spec.without_zeros bytes.now }
    ensures some { 0 < length bytes.now → 0 < length result.now }
    ensures short { length result.now ≤ length bytes.now }
{
    match bytes {
        [0, rest @ ..] if !rest.is_empty() => without_zeros(rest),
        _ => bytes,
    }
}

/// The Partial IV of a number: big-endian without leading zeros, and one zero byte for 0.
#[tactic(auto, unfolding(crate::specs::Nonce::partial_iv))]
pub fn partial_iv_of(number: u64) -> ArrayVec<u8, 5>
    requires { number ≤ greatest_number }
    ensures value { result.items ≡ spec.partial_iv number }
    ensures least { 0 < array_vec_len result }
    ensures short { array_vec_len result ≤ 5 }
{
    let bytes = five_bytes(number);
    let mut out = ArrayVec::new();
    let _ = out.try_extend_from_slice(without_zeros(&bytes));
    out
}

/// What is xored with the common IV: the length of the ID in one byte, the ID in 7 and the number in 5.
fn plain_nonce(id: &[u8], number: u64) -> [u8; 13]
    requires id { length id.now ≤ longest_id }
    requires number { number ≤ greatest_number }
    ensures { result ≡ length id.now ∷ spec.padded 7 id.now ++ spec.five_bytes number }
{
    let mut nonce = [0; 13];
    nonce[0] = id.len() as u8;
    nonce[8 - id.len()..8].copy_from_slice(id);
    nonce[8..].copy_from_slice(&five_bytes(number));
    nonce
}

/// Xors bytes with others, as many.
fn xor_into(bytes: &mut [u8; 13], others: &[u8; 13])
    ensures { bytes.new ≡ zip2 bit_xor bytes.old others.now }
{
    for index in 0..13 {
        bytes[index] ^= others[index];
    }
}

/// The nonce of a number under a common IV, where the end with this ID made the Partial IV.
#[tactic(auto, using(crate::proofs::NonceLemmas::nonce_is))]
pub fn nonce_for(common_iv: &[u8; 13], id: &[u8], number: u64) -> [u8; 13]
    requires id { length id.now ≤ longest_id }
    requires number { number ≤ greatest_number }
    ensures { result ≡ spec.nonce common_iv.now id.now number }
{
    let mut nonce = plain_nonce(id, number);
    xor_into(&mut nonce, common_iv);
    nonce
}

//! Blocks of 16 bytes (RFC 3610 section 2).

ghost use Rattle.std.specs.Prelude.{◌≡◌, ◌+◌, ◌*◌, ◌<◌, ◌≤◌, ◌↔◌, IsTrue, length};
ghost use Rattle.osc_ccm.specs.Ccm.{xor, flagged, filled, block_count, piece};

/// How many blocks hold `length` bytes.
pub fn block_count(length: usize) -> usize
    requires { length ≤ 65535 }
    ensures { result ≡ block_count length }
{
    (length + 15) / 16
}

/// The bytes that go into a block: 16 of them, or those that are left.
pub fn piece(bytes: &[u8], index: usize) -> &[u8]
    requires { 16 * index ≤ length bytes.now }
    ensures { result.now ≡ piece bytes.now index }
{
    let left = &bytes[16 * index..];
    if left.len() < 16 { left } else { &left[..16] }
}

/// At most 16 bytes as a block, filled up with zeros.
#[tactic(auto, unfolding(crate::specs::Ccm::filled))]
pub fn filled(bytes: &[u8]) -> [u8; 16]
    requires { length bytes.now ≤ 16 }
    ensures { result ≡ filled bytes.now }
{
    let mut block = [0; 16];
    block[..bytes.len()].copy_from_slice(bytes);
    block
}

/// The 16 bytes at a block's place.
fn whole(bytes: &[u8], index: usize) -> [u8; 16]
    requires { 16 * index + 16 ≤ length bytes.now }
    ensures { result ≡ piece bytes.now index }
{
    let start = 16 * index;
    let mut block = [0; 16];
    block.copy_from_slice(&bytes[start..start + 16]);
    block
}

/// The bytes that go into a block, filled up with zeros.
pub fn block_at(bytes: &[u8], index: usize) -> [u8; 16]
    requires { 16 * index ≤ length bytes.now }
    ensures { result ≡ filled (piece bytes.now index) }
{
    if bytes.len() - 16 * index < 16 {
        filled(piece(bytes, index))
    } else {
        whole(bytes, index)
    }
}

/// A byte of flags, the nonce, and a number in 2 bytes.
pub fn flagged(flags: u8, nonce: &[u8; 13], number: usize) -> [u8; 16]
    requires { number ≤ 65535 }
    ensures { result ≡ flagged flags nonce.now number }
{
    let mut block = [0; 16];
    block[0] = flags;
    block[1..14].copy_from_slice(nonce);
    block[14] = (number / 256) as u8;
    block[15] = (number % 256) as u8;
    block
}

/// Xors at most 16 bytes with the beginning of a block.
pub fn xor_into(bytes: &mut [u8], block: &[u8; 16])
    requires { length bytes.old ≤ 16 }
    ensures { bytes.new ≡ xor bytes.old block.now }
{
    for index in 0..bytes.len() {
        bytes[index] ^= block[index];
    }
}

/// Whether two strings of bytes of one length are equal. All bytes are compared, wherever the
/// first difference is: the differences are gathered, and looked at once.
pub fn is_same(one: &[u8], other: &[u8]) -> bool
    requires { length one.now ≡ length other.now }
    ensures { IsTrue result ↔ (one.now ≡ other.now) }
{
    let mut difference = 0;
    for index in 0..one.len() {
        difference |= one[index] ^ other[index];
    }
    difference == 0
}

//! Blocks of 16 bytes xored as 16 lanes of one vector.

ghost use Rattle.std.specs.Prelude.{◌≡◌, length};
ghost use Rattle.osc_ccm.specs.Ccm.{xor};

use std::simd::prelude::*;

/// Two blocks xored.
pub fn xor(one: [u8; 16], other: [u8; 16]) -> [u8; 16]
    ensures { result ≡ xor one other }
{
    (u8x16::from_array(one) ^ u8x16::from_array(other)).to_array()
}

/// Xors 16 bytes with a block.
pub fn xor_into(bytes: &mut [u8], block: [u8; 16])
    requires { length bytes.old ≡ 16 }
    ensures { bytes.new ≡ xor bytes.old block }
{
    let lanes = u8x16::from_slice(bytes) ^ u8x16::from_array(block);
    lanes.copy_to_slice(bytes);
}

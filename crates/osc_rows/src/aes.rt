//! AES-128 of one block (FIPS 197).

use crate::line::Line;
use crate::words::Word;
use osc_aes::Aes128;

/// `aes KEY BLOCK`: the encrypted block.
pub fn encrypted(words: &[Word<'_>], line: &mut Line) -> Option<()> {
    let [key, block] = words else {
        return None;
    };
    let (key, block) = (key.key()?, block.key()?);
    line.bytes(&Aes128::new(&key).encrypt(block));
    Some(())
}

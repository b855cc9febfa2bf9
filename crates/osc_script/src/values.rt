//! What texts spell, whoever reads them: numbers, bytes in hexadecimal, methods and scopes.

ghost use Rattle.std.specs.Prelude.{◌≡◌, IfOk, option_map};
ghost use Rattle.hex.specs.Hex.{decode_of};
ghost use Rattle.osc_script.specs.Inner.Reading.{decoded};
ghost use Rattle.osc_script.specs.Values.{Reads, SpellsHex, SpellsHexWithin, SpellsMethod, SpellsNumber, SpellsScope, SpellsShortNumber};

use crate::words;
use hex::{FromHex, FromHexError};
use osc_model::{Bytes, Method};
use osc_scope::{ScopeError, text_to_cbor};
use std::alloc::{AllocError, Global};

/// A number of 64 bits in decimal digits, without a sign.
pub fn number(text: &str) -> Option<u64>
    ensures { Reads (SpellsNumber text.now) result }
{
    words::number(text.as_bytes())
}

/// The same, as the bytes of its digits.
pub fn decimal(word: &[u8]) -> Option<u64>
    ensures { Reads (SpellsNumber word.now) result }
{
    words::number(word)
}

/// The same of 16 bits.
pub fn short_number(text: &str) -> Option<u16>
    ensures { Reads (SpellsShortNumber text.now) result }
{
    words::short_number(text.as_bytes())
}

/// The method of this name.
pub fn method(text: &str) -> Option<Method>
    ensures { Reads (SpellsMethod text.now) result }
{
    words::method(text)
}

/// The bytes of the scope of this text.
pub fn scope(alloc: Global, text: &str) -> Result<Option<Bytes>, AllocError>
    ensures { IfOk result (λ found. Reads (SpellsScope text.now) found) }
{
    let mut bytes = Vec::new(alloc);
    match text_to_cbor(alloc, text.as_bytes(), &mut bytes) {
        Ok(()) => Ok(Some(Bytes::from_vec(bytes))),
        Err(ScopeError::BadScope) => Ok(None),
        Err(ScopeError::Memory) => Err(AllocError),
    }
}

// ---- bytes in hexadecimal

/// `N` bytes.
pub fn array<const N: usize>(text: &str) -> Option<[u8; N]>
    ensures { Reads (SpellsHexWithin N N text.now) result }
{
    <[u8; N] as FromHex>::from_hex(text).ok()
}

/// Any number of bytes.
pub fn bytes(alloc: Global, text: &str) -> Result<Option<Bytes>, AllocError>
    ensures { IfOk result (λ found. Reads (SpellsHex text.now) found) }
{
    match decoded(alloc, text.as_bytes())? {
        Some(items) => Ok(Some(Bytes::from_vec(items))),
        None => Ok(None),
    }
}

/// From `least` to `most` bytes.
pub fn bytes_within(
    alloc: Global,
    text: &str,
    least: usize,
    most: usize,
) -> Result<Option<Bytes>, AllocError>
    ensures { IfOk result (λ found. Reads (SpellsHexWithin least most text.now) found) }
{
    match bytes(alloc, text)? {
        Some(bytes) if least <= bytes.len() && bytes.len() <= most => Ok(Some(bytes)),
        _ => Ok(None),
    }
}

/// What pairs of hexadecimal digits in either case stand for, be it nothing.
pub(crate) fn decoded(alloc: Global, text: &[u8]) -> Result<Option<Vec<u8>>, AllocError>
    ensures { IfOk result (λ found. option_map (λ items. items.items) found ≡ decoded (decode_of text.now)) }
{
    match hex::decode(alloc, text) {
        Ok(items) => Ok(Some(items)),
        Err(FromHexError::OutOfMemory) => Err(AllocError),
        Err(_) => Ok(None),
    }
}

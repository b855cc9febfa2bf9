//! What files hold that the key and the secret are in.
ghost use Rattle.std.specs.Prelude.{◌≡◌, IfOk};
ghost use Rattle.osc_script.specs.{Reads, SpellsHexWithin};
ghost use Rattle.osc_words.specs.Sources as spec;

use osc_model::Bytes;
use osc_script::values;
use std::alloc::{AllocError, Global};
use std::str;

/// The key that a file of these bytes holds: 16 bytes in hexadecimal, which a line feed or CR LF may follow.
pub fn held_key(bytes: &[u8]) -> Option<[u8; 16]>
    ensures { Reads (spec.Holds (SpellsHexWithin 16 16) bytes.now) result }
{
    match str::from_utf8(without_end(bytes)) {
        Ok(text) => values::array(text),
        Err(_) => None,
    }
}

/// The secret likewise: 1 to 64 bytes.
pub fn held_secret(alloc: Global, bytes: &[u8]) -> Result<Option<Bytes>, AllocError>
    ensures { IfOk result (λ found. Reads (spec.Holds (SpellsHexWithin 1 64) bytes.now) found) }
{
    match str::from_utf8(without_end(bytes)) {
        Ok(text) => values::bytes_within(alloc, text, 1, 64),
        Err(_) => Ok(None),
    }
}

// The bytes without the end of a line.
fn without_end(bytes: &[u8]) -> &[u8]
    ensures { result.now ≡ spec.without_end bytes.now }
{
    if let Some(text) = bytes.strip_suffix(b"\r\n") {
        return text;
    }
    bytes.strip_suffix(b"\n").unwrap_or(bytes)
}

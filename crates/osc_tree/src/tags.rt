//! Entity tags.
ghost use Rattle.std.specs.Prelude.{◌≡◌, ◌++◌};
ghost use Rattle.osc_model.specs.{etag_of, format_bytes};
ghost use Rattle.sha2.specs.Sha256.{sha256};

use osc_model::Resource;
use sha2::{Digest, Sha256};

/// The ETag of a resource (RFC 7252 section 5.10.6): the first 8 bytes of SHA-256 over its Content-Format, as byte 00
/// where it has none and else as byte 01 and two bytes, big-endian, and its payload. Takes no memory.
pub fn etag(resource: &Resource) -> [u8; 8]
    ensures { result ≡ etag_of resource.now }
{
    let digest = digest(resource);
    let mut tag = [0; 8];
    tag.copy_from_slice(&digest[..8]);
    tag
}

fn digest(resource: &Resource) -> [u8; 32]
    ensures { result ≡ sha256 (format_bytes resource.now.format ++ resource.now.payload) }
{
    let mut hasher = Sha256::new();
    match resource.format {
        None => hasher.update(&[0u8]),
        Some(format) => hasher.update(&[1, (format / 256) as u8, (format % 256) as u8]),
    }
    hasher.update(resource.payload.as_slice());
    hasher.finalize()
}

//! HKDF on HMAC-SHA-256 (RFC 5869).
ghost use Rattle.std.specs.Prelude.{◌≡◌, ◌≤◌, ◌<◌, ◌↔◌, ◌++◌, [], ◌∷◌, IsErr, OnOk, OnErr, List, ℕ, length};
ghost use Rattle.osc_hkdf.specs.Hmac.{hmac_of};
ghost use Rattle.osc_hkdf.specs.Hkdf.{extract_of, expand_of};
ghost use Rattle.osc_hkdf.specs.Inner.Mac.{Holds};

use crate::error::OutputTooLong;
use crate::mac::{Mac, hmac};

/// The pseudorandom key of `ikm` under `salt` (RFC 5869 section 2.2). An empty salt stands for 32 zero bytes.
#[tactic(auto, unfolding(crate::specs::Hkdf::extract_of))]
pub fn extract(salt: &[u8], ikm: &[u8]) -> [u8; 32]
    ensures { result ≡ extract_of salt.now ikm.now }
{
    if salt.is_empty() {
        hmac(&[0; 32], ikm)
    } else {
        hmac(salt, ikm)
    }
}

/// T(counter) after T(counter - 1), which is `previous`. `start` is a code with an empty text, under the pseudorandom key.
fn next_block(start: &Mac, previous: &[u8], info: &[u8], counter: u8) -> [u8; 32]
    ensures { (prk : List ℕ) → Holds start.now prk []
        → result ≡ hmac_of prk (previous.now ++ info.now ++ counter ∷ []) }
{
    let mut mac = start.copy();
    mac.update(previous);
    mac.update(info);
    mac.update(&[counter]);
    mac.finalize()
}

/// Writes T(1), T(2) and so on, as far as `out` has room.
fn fill(start: &Mac, info: &[u8], out: &mut [u8])
    requires { length out.old ≤ 8160 }
    ensures { (prk : List ℕ) → Holds start.now prk [] → out.new ≡ expand_of prk info.now (length out.old) }
{
    let count = out.len().div_ceil(32);
    for i in 0..count {
        let begin = 32 * i;
        let end = (begin + 32).min(out.len());
        // T(i) is just before, and nothing before T(1).
        let previous = &out[begin.saturating_sub(32)..begin];
        let block = next_block(start, previous, info, (i + 1) as u8);
        out[begin..end].copy_from_slice(&block[..end - begin]);
    }
}

/// Fills `out` unless it is too long. `start` is a code with an empty text, under the pseudorandom key.
pub(crate) fn expand_from(start: &Mac, info: &[u8], out: &mut [u8]) -> Result<(), OutputTooLong>
    ensures refused { IsErr result ↔ (8160 < length out.old) }
    ensures ok { (prk : List ℕ) → Holds start.now prk []
        → OnOk result (out.new ≡ expand_of prk info.now (length out.old)) }
    ensures err { OnErr result (out.new ≡ out.old) }
{
    if out.len() > 255 * 32 {
        return Err(OutputTooLong);
    }
    fill(start, info, out);
    Ok(())
}

/// Fills `out` with output keying material of `prk` and `info` (RFC 5869 section 2.3).
///
/// # Errors
///
/// `OutputTooLong` exactly where `out` is longer than 8160 bytes, which are 255 blocks of 32. `out` is as before then.
pub fn expand(prk: &[u8], info: &[u8], out: &mut [u8]) -> Result<(), OutputTooLong>
    ensures refused { IsErr result ↔ (8160 < length out.old) }
    ensures ok { OnOk result (out.new ≡ expand_of prk.now info.now (length out.old)) }
    ensures err { OnErr result (out.new ≡ out.old) }
{
    expand_from(&Mac::new(prk), info, out)
}

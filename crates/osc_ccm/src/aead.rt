//! Authenticated encryption with associated data, as a trait with a law.

ghost use Rattle.std.specs.Prelude.{◌≡◌, ◌↔◌, ℕ, ◌+◌, ◌-◌, ◌<◌, ◌≤◌, IfOk, OnErr, List, length, take, drop};
ghost use Rattle.osc_ccm.specs.Limits.{IsInRange, IsTooLong, most_tag};

use crate::error::{OpenError, SealError};

/// The most bytes that a text may have: CCM writes their number in 2 bytes.
pub const TEXT_LIMIT: usize = 65535;

/// The most bytes that associated data may have: CCM writes their number in 2 bytes below 65280,
/// and longer above (RFC 3610 section 2.2).
pub const AAD_LIMIT: usize = 65279;

/// The most bytes that a tag may have.
pub const TAG_LIMIT: usize = 16;

/// Authenticated encryption with associated data, under keys of 16 bytes and nonces of 13 bytes.
///
/// Which bytes are a sealing of which text is the relation `is_sealing key nonce aad text sealed`,
/// of which callers know the law alone: `seal` makes a sealing of its text, bytes are a sealing of
/// at most one text, `open` finds it, and refuses bytes that are a sealing of none. So what `seal`
/// wrote, `open` gives back, and nothing else comes out of `open`. That nobody without the key can
/// make a sealing is the cipher's strength, of which nothing is claimed here.
pub trait Aead: Drop {
    /// The number of bytes of the tag, by which sealed bytes are longer than their text.
    const TAG: usize;

    ghost TAG: { ℕ };

    ghost key_of: { Self → List ℕ };

    ghost is_sealing: { List ℕ → List ℕ → List ℕ → List ℕ → List ℕ → Type 0 };

    /// The cipher under a key.
    fn from_key(key: &[u8; 16]) -> Self
        ensures { key_of result ≡ key.now };

    /// Seals a text together with associated data, which is not in the sealed bytes: writes the
    /// sealed bytes to the beginning of `out`, and answers their number.
    ///
    /// A nonce is used for one text alone under a key.
    ///
    /// # Errors
    ///
    /// The first of these that applies; `out` is then as before:
    /// `TooLong` for a text above `TEXT_LIMIT` or associated data above `AAD_LIMIT` bytes,
    /// `OutTooSmall` where the sealed bytes don't fit into `out`.
    fn seal(
        &self,
        nonce: &[u8; 13],
        aad: &[u8],
        text: &[u8],
        out: &mut [u8],
    ) -> Result<usize, SealError>
        ensures sealed { IfOk result (λ n. is_sealing (key_of self.now) nonce.now aad.now text.now (take n out.new)) }
        ensures count { IfOk result (λ n. (n ≡ length text.now + TAG) × (n ≤ length out.new)) }
        ensures rest { IfOk result (λ n. drop n out.new ≡ drop n out.old) }

        ensures too_long { (result ≡ Err SealError.TooLong) ↔ IsTooLong (length text.now) (length aad.now) }
        ensures out_too_small { (result ≡ Err SealError.OutTooSmall)
            ↔ (IsInRange (length text.now) (length aad.now)
            × (length out.old < length text.now + TAG)) }
        ensures refused { OnErr result (out.new ≡ out.old) };

    /// Opens sealed bytes: writes the text that they are a sealing of, under this key and nonce
    /// and with this associated data, to the beginning of `out`, and answers its number of bytes.
    ///
    /// # Errors
    ///
    /// The first of these that applies; `out` is then as before:
    /// `TooLong` for a text above `TEXT_LIMIT` or associated data above `AAD_LIMIT` bytes,
    /// `OutTooSmall` where the text doesn't fit into `out`,
    /// `NotGenuine` where the bytes are a sealing of no text; so are bytes shorter than a tag.
    fn open(
        &self,
        nonce: &[u8; 13],
        aad: &[u8],
        sealed: &[u8],
        out: &mut [u8],
    ) -> Result<usize, OpenError>
        ensures opened { IfOk result (λ n. is_sealing (key_of self.now) nonce.now aad.now (take n out.new) sealed.now) }
        ensures count { IfOk result (λ n. (n + TAG ≡ length sealed.now) × (n ≤ length out.new)) }
        ensures rest { IfOk result (λ n. drop n out.new ≡ drop n out.old) }

        ensures too_long { (result ≡ Err OpenError.TooLong)
            ↔ IsTooLong (length sealed.now - TAG) (length aad.now) }
        ensures out_too_small { (result ≡ Err OpenError.OutTooSmall)
            ↔ (IsInRange (length sealed.now - TAG) (length aad.now)
            × (length out.old < length sealed.now - TAG)) }
        ensures not_genuine { (result ≡ Err OpenError.NotGenuine)
            ↔ (IsInRange (length sealed.now - TAG) (length aad.now)
            × (length sealed.now - TAG ≤ length out.old)
            × ((text : List ℕ) → ¬ is_sealing (key_of self.now) nonce.now aad.now text sealed.now)) }
        ensures refused { OnErr result (out.new ≡ out.old) };

    // Bytes are a sealing of at most one text.
    ghost one_text: { (key nonce aad text other sealed : List ℕ) →
        is_sealing key nonce aad text sealed → is_sealing key nonce aad other sealed → text ≡ other };

    // A sealing is longer than its text by the tag.
    ghost sealed_length: { (key nonce aad text sealed : List ℕ) →
        is_sealing key nonce aad text sealed → length sealed ≡ length text + TAG };

    // What is sealed is within the limits.
    ghost in_range: { (key nonce aad text sealed : List ℕ) →
        is_sealing key nonce aad text sealed → IsInRange (length text) (length aad) };

    // So a sealing's length doesn't overflow.
    ghost short_tag: { TAG ≤ most_tag };
}

//! A cipher for each AEAD algorithm, as one trait: the one place where an algorithm chooses.

ghost use Rattle.std.specs.Prelude.{◌≡◌, ◌↔◌, ℕ, ◌+◌, ◌-◌, ◌<◌, ◌≤◌, IfOk, OnErr, List, length, take, drop, refl};
ghost use Rattle.osc_ccm.specs.Limits.{IsInRange, IsTooLong, most_tag};
ghost use Rattle.osc_model.specs.declared.algorithm.Algorithm.TheVariants.{EightByteTag, SixteenByteTag};
ghost use Rattle.osc_ccm.specs.Ciphers.{Sealing, SealsOneText, IsLongerBy, StaysInRange, chosen_tag, chosen_sealing, one_text_of, sealed_length_of, in_range_of, short_tag_of};

use crate::aead::Aead;
use crate::ccm::Ccm;
use crate::error::{OpenError, SealError};
use osc_model::Algorithm;

/// A cipher whose tag has 8 bytes.
pub trait TagOf8: Aead {
    ghost eight: { Self.TAG ≡ 8 };
}

/// A cipher whose tag has 16 bytes.
pub trait TagOf16: Aead {
    ghost sixteen: { Self.TAG ≡ 16 };
}

impl TagOf8 for Ccm<8> {
    ghost eight = { refl };
}

impl TagOf16 for Ccm<16> {
    ghost sixteen = { refl };
}

/// A cipher for each AEAD algorithm, under keys of 16 bytes and nonces of 13 bytes: each has the clauses and the laws of an `Aead`.
///
/// Met by a pair, as `Suite`: the first is for the algorithm whose tag has 8 bytes, the second for the one whose tag has 16.
pub trait Ciphers {
    ghost use Rattle.osc_model.specs.declared.algorithm.Algorithm.{Algorithm};

    ghost TAG: { Algorithm → ℕ };

    ghost is_sealing: { Algorithm → Sealing };

    /// The number of bytes of the algorithm's tag, by which sealed bytes are longer than their text.
    fn tag(algorithm: Algorithm) -> usize
        ensures { result ≡ TAG algorithm };

    /// Seals a text under a key by the algorithm's cipher, as `Aead::seal` does.
    ///
    /// # Errors
    ///
    /// Those of `Aead::seal`.
    fn seal(
        algorithm: Algorithm,
        key: &[u8; 16],
        nonce: &[u8; 13],
        aad: &[u8],
        text: &[u8],
        out: &mut [u8],
    ) -> Result<usize, SealError>
        ensures sealed { IfOk result (λ n. is_sealing algorithm key.now nonce.now aad.now text.now (take n out.new)) }
        ensures count { IfOk result (λ n. (n ≡ length text.now + TAG algorithm) × (n ≤ length out.new)) }
        ensures rest { IfOk result (λ n. drop n out.new ≡ drop n out.old) }

        ensures too_long { (result ≡ Err SealError.TooLong) ↔ IsTooLong (length text.now) (length aad.now) }
        ensures out_too_small { (result ≡ Err SealError.OutTooSmall)
            ↔ (IsInRange (length text.now) (length aad.now)
            × (length out.old < length text.now + TAG algorithm)) }
        ensures refused { OnErr result (out.new ≡ out.old) };

    /// Opens sealed bytes under a key by the algorithm's cipher, as `Aead::open` does.
    ///
    /// # Errors
    ///
    /// Those of `Aead::open`.
    fn open(
        algorithm: Algorithm,
        key: &[u8; 16],
        nonce: &[u8; 13],
        aad: &[u8],
        sealed: &[u8],
        out: &mut [u8],
    ) -> Result<usize, OpenError>
        ensures opened { IfOk result (λ n. is_sealing algorithm key.now nonce.now aad.now (take n out.new) sealed.now) }
        ensures count { IfOk result (λ n. (n + TAG algorithm ≡ length sealed.now) × (n ≤ length out.new)) }
        ensures rest { IfOk result (λ n. drop n out.new ≡ drop n out.old) }

        ensures too_long { (result ≡ Err OpenError.TooLong)
            ↔ IsTooLong (length sealed.now - TAG algorithm) (length aad.now) }
        ensures out_too_small { (result ≡ Err OpenError.OutTooSmall)
            ↔ (IsInRange (length sealed.now - TAG algorithm) (length aad.now)
            × (length out.old < length sealed.now - TAG algorithm)) }
        ensures not_genuine { (result ≡ Err OpenError.NotGenuine)
            ↔ (IsInRange (length sealed.now - TAG algorithm) (length aad.now)
            × (length sealed.now - TAG algorithm ≤ length out.old)
            × ((text : List ℕ) → ¬ is_sealing algorithm key.now nonce.now aad.now text sealed.now)) }
        ensures refused { OnErr result (out.new ≡ out.old) };

    // Bytes are a sealing of at most one text.
    ghost one_text: { (algorithm : Algorithm) → SealsOneText (is_sealing algorithm) };

    // A sealing is longer than its text by the tag.
    ghost sealed_length: { (algorithm : Algorithm) → IsLongerBy (TAG algorithm) (is_sealing algorithm) };

    // What is sealed is within the limits.
    ghost in_range: { (algorithm : Algorithm) → StaysInRange (is_sealing algorithm) };

    // So a sealing's length doesn't overflow.
    ghost short_tag: { (algorithm : Algorithm) → TAG algorithm ≤ most_tag };

    // The tags have the sizes that the algorithms say.
    ghost tags: { (TAG EightByteTag ≡ 8) × (TAG SixteenByteTag ≡ 16) };
}

/// AES-CCM for each algorithm (RFC 9053 section 4.2): with tags of 8 bytes, and with tags of 16.
pub type Suite = (Ccm<8>, Ccm<16>);

impl<A: TagOf8, B: TagOf16> Ciphers for (A, B) {
    ghost TAG = { chosen_tag A.TAG B.TAG };

    ghost is_sealing = { chosen_sealing A.is_sealing B.is_sealing };

    fn tag(algorithm: Algorithm) -> usize {
        match algorithm {
            Algorithm::EightByteTag => A::TAG,
            Algorithm::SixteenByteTag => B::TAG,
        }
    }

    fn seal(
        algorithm: Algorithm,
        key: &[u8; 16],
        nonce: &[u8; 13],
        aad: &[u8],
        text: &[u8],
        out: &mut [u8],
    ) -> Result<usize, SealError> {
        match algorithm {
            Algorithm::EightByteTag => A::from_key(key).seal(nonce, aad, text, out),
            Algorithm::SixteenByteTag => B::from_key(key).seal(nonce, aad, text, out),
        }
    }

    fn open(
        algorithm: Algorithm,
        key: &[u8; 16],
        nonce: &[u8; 13],
        aad: &[u8],
        sealed: &[u8],
        out: &mut [u8],
    ) -> Result<usize, OpenError> {
        match algorithm {
            Algorithm::EightByteTag => A::from_key(key).open(nonce, aad, sealed, out),
            Algorithm::SixteenByteTag => B::from_key(key).open(nonce, aad, sealed, out),
        }
    }

    ghost one_text = { one_text_of A.is_sealing B.is_sealing A.one_text B.one_text };

    ghost sealed_length = { sealed_length_of A.TAG B.TAG A.is_sealing B.is_sealing A.sealed_length B.sealed_length };

    ghost in_range = { in_range_of A.is_sealing B.is_sealing A.in_range B.in_range };

    ghost short_tag = { short_tag_of A.TAG B.TAG A.short_tag B.short_tag };

    ghost tags = { (A.eight, B.sixteen) };
}

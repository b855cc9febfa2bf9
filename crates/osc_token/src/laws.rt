//! Laws of the definitions, for the crates above. These functions do nothing: whoever calls one has its clauses for a proof.

ghost use Rattle.std.specs.Prelude.{◌≡◌, ◌≤◌, ◌<◌, ◌^◌, ℕ, List, [], length, Option, Ok, Result};
ghost use Rattle.std.specs.Option.{ForSome};
ghost use Rattle.std.specs.Str.{IsUtf8};
ghost use Rattle.osc_model.specs.{HasBegun, IsNotOver};
ghost use Rattle.osc_model.specs.Scope.{Scope as Permissions};
ghost use Rattle.osc_model.specs.declared.node.Moment.{Moment as AnyMoment};
ghost use Rattle.osc_cbor.specs.{spelling};
ghost use Rattle.osc_cose.specs.{enc_structure, object_item};
ghost use Rattle.osc_scope.specs.{Entry, IsScope, scope_of};
ghost use Rattle.osc_token.specs.Claims.{ComesTo};
ghost use Rattle.osc_token.specs.Minted.{FitTheirTypes, HasLawfulParts};
ghost use Rattle.osc_token.specs.Token.{IsToken, algorithm_header, claims_item, token_object};
ghost use Rattle.osc_token.specs.declared.claims.Claims.{Claims as AnyClaims};
ghost use Rattle.osc_token.specs.declared.error.TokenError.{TokenError as AnyError};

use osc_ccm::Aead;

/// What is minted is a token of the claims' text.
pub fn minted_tokens<A: Aead>()
    ensures { (key iv text ciphertext : List ℕ) → length iv ≡ 13 → length ciphertext < 2 ^ 64
        → A.is_sealing key iv (enc_structure algorithm_header []) text ciphertext
        → IsToken A.is_sealing key (spelling (object_item (token_object iv ciphertext))) algorithm_header iv text }
{
    osc_cbor::laws::what_is_written();
    osc_cose::laws::what_is_written();
}

/// Where no check fails, the text of minted claims gives the claims.
pub fn minted_claims()
    ensures { (claims : AnyClaims) (entries : List Entry) (now : AnyMoment)
        → HasLawfulParts claims → IsScope claims.scope entries
        → HasBegun claims.not_before now → IsNotOver claims.expires now
        → ComesTo (spelling (claims_item claims)) claims.audience now (Ok (claims, scope_of entries)) }
{
    osc_cbor::laws::what_is_written();
}

/// The text of minted claims, of any lengths that fit their types, gives the claims and what their scope is, or nothing.
pub fn minted_texts()
    ensures { (claims read : AnyClaims) (entries : List Entry) (granted : Permissions) (audience : List ℕ) (now : AnyMoment)
        → FitTheirTypes claims → IsScope claims.scope entries
        → ComesTo (spelling (claims_item claims)) audience now (Ok (read, granted))
        → (read ≡ claims) × (granted ≡ scope_of entries) }
{
    osc_cbor::laws::what_is_written();
    osc_cbor::laws::one_item();
    osc_scope::laws::one_scope();
}

/// What was minted is opened and judged to its claims: whatever text the token opens to, in the time of the claims it gives
/// them and what their scope is, and nothing else.
pub fn what_was_minted<A: Aead>()
    ensures { (key iv ciphertext protected ivs text : List ℕ) (claims : AnyClaims) (entries : List Entry) (now : AnyMoment) (outcome : Result (AnyClaims × Permissions) AnyError)
        → length iv ≡ 13 → length ciphertext < 2 ^ 64
        → A.is_sealing key iv (enc_structure algorithm_header []) (spelling (claims_item claims)) ciphertext
        → HasLawfulParts claims → IsScope claims.scope entries
        → HasBegun claims.not_before now → IsNotOver claims.expires now
        → IsToken A.is_sealing key (spelling (object_item (token_object iv ciphertext))) protected ivs text
        → ComesTo text claims.audience now outcome
        → outcome ≡ Ok (claims, scope_of entries) }
{
    minted_tokens::<A>();
    minted_claims();
    one_token::<A>();
    one_outcome();
}

/// Bytes are a token of one text at most under a key.
pub fn one_token<A: Aead>()
    ensures { (key bytes protected iv text others ivs other : List ℕ)
        → IsToken A.is_sealing key bytes protected iv text → IsToken A.is_sealing key bytes others ivs other
        → (protected ≡ others) × (iv ≡ ivs) × (text ≡ other) }
{
    osc_cbor::laws::one_item();
}

/// A text has one outcome at most.
pub fn one_outcome()
    ensures { (text audience : List ℕ) (now : AnyMoment) (one other : Result (AnyClaims × Permissions) AnyError)
        → ComesTo text audience now one → ComesTo text audience now other → one ≡ other }
{
    osc_cbor::laws::one_item();
    osc_scope::laws::one_scope();
}

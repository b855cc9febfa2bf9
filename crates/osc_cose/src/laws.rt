//! Laws of the definitions. These functions do nothing: whoever calls one has its clauses for a proof.

ghost use Rattle.std.specs.Prelude.{◌≡◌, ℕ, List};
ghost use Rattle.osc_cose.specs.Encrypt0.{IsObject, IsProtected, object_item, enc_structure as structure};
ghost use Rattle.osc_cose.specs.declared.encrypt0.Encrypt0.{Encrypt0 as AnyObject};

use osc_ccm::Aead;

/// An object opens to the text that was sealed, and to no other: of two texts of which its ciphertext is the sealing,
/// each is the other.
pub fn one_text<A: Aead>()
    ensures { (key nonce external_aad text other : List ℕ) (object : AnyObject)
        → A.is_sealing key nonce (structure object.protected external_aad) text object.ciphertext
        → A.is_sealing key nonce (structure object.protected external_aad) other object.ciphertext
        → text ≡ other }
{}

/// The item of an object is the item of this object, so what is written is read again.
pub fn what_is_written()
    ensures { (object : AnyObject) → IsProtected object.protected → IsObject (object_item object) object }
{}

//! Laws of the definitions, for the crates above. These functions do nothing: whoever calls one has its clauses for a proof.

ghost use Rattle.std.specs.Prelude.{◌≡◌, ◌<◌, ◌≤◌, ℕ, List, Option, None, IfSome, length, false};
ghost use Rattle.osc_model.specs.declared.context.ContextName.{ContextName as AnyName};
ghost use Rattle.osc_coap.specs.{HasSpelling, spelling, SpellsPlaintext};
ghost use Rattle.osc_coap.specs.Message.{Message};
ghost use Rattle.osc_options.specs.{AreInOrder, plaintext_of, unprotected, has_oscore};
ghost use Rattle.osc_model.specs.declared.context.Side.TheVariants.{Client, Server};
ghost use Rattle.osc_context.specs.{algorithm_of, key_of, longest_id, greatest_number};
ghost use Rattle.osc_protect.specs.Aad.{aad_of};
ghost use Rattle.osc_ccm.specs.{Tags};
ghost use Rattle.osc_protect.specs.Value.{Compressed, SpellsValue};
ghost use Rattle.osc_protect.specs.Protection.{HasShortContext, plain_bytes, request_nonce, request_value, response_nonce, response_value, request_length, response_length, IsProtectedRequest, IsProtectedResponse, SealedRequest, IsRequest, SealedResponse, IsResponse, IsFor};

use osc_ccm::Ciphers;
use osc_coap::laws::one_plaintext;
use osc_options::laws::{
    merging_what_was_split, option_of_a_protected_message, protecting_lengthens,
    splitting_what_is_lawful,
};

/// Associated data tells the request's number.
pub fn aad_tells_the_number()
    ensures { (name : AnyName) (m n : ℕ)
        → length name.client_id ≤ longest_id → m ≤ greatest_number → n ≤ greatest_number
        → aad_of name m ≡ aad_of name n → m ≡ n }
{}

/// Bytes are the value of option 9 for one list of parameters at most.
pub fn one_value()
    ensures { (bytes : List ℕ) (c d : Compressed) → SpellsValue bytes c → SpellsValue bytes d → c ≡ d }
{}

/// How many bytes the value of option 9 has at most.
pub fn lengths_of_values()
    ensures request { (name : AnyName) (number : ℕ) → HasShortContext name → length name.client_id ≤ longest_id
        → length (request_value name number) ≤ 255 }
    ensures response { length (response_value None) ≤ 255 }
{}

/// Protecting a message makes it longer, under any name and number, however long the cipher's tag is.
pub fn protected_messages_are_longer()
    ensures request { (tag : Tags) (number : ℕ) (name : AnyName) (m : Message)
        → AreInOrder 0 m.options → has_oscore m.options ≡ false → length (spelling m) < request_length tag name number m }
    ensures response { (tag : ℕ) (own : Option ℕ) (m : Message)
        → AreInOrder 0 m.options → has_oscore m.options ≡ false → length (spelling m) < response_length tag own m }
{
    protecting_lengthens();
}

/// A message is one protected request at most.
pub fn one_request()
    ensures { (m : Message) (a b : SealedRequest) → IsRequest m a → IsRequest m b → a ≡ b }
{
    one_value();
}

/// The same of a protected response.
pub fn one_response()
    ensures { (m : Message) (a b : SealedResponse) → IsResponse m a → IsResponse m b → a ≡ b }
{
    one_value();
}

/// A protected request is read as what it was made of: it is a request of this number for this context; under this context's
/// key, nonce and associated data it opens, and to nothing but the plaintext of the message that was protected; and with it the
/// message is as it was.
pub fn unprotecting_a_protected_request<A: Ciphers>()
    ensures request { (name : AnyName) (number : ℕ) (m p : Message) → HasShortContext name → number ≤ greatest_number
        → IsProtectedRequest A.is_sealing name number m p
        → (request : SealedRequest) × IsRequest p request × (request.number ≡ number) × IsFor name request
        × A.is_sealing (algorithm_of name) (key_of name Client) (request_nonce name number) (aad_of name number) (plain_bytes m) request.sealed
        × ((text : List ℕ) → A.is_sealing (algorithm_of name) (key_of name Client) (request_nonce name number) (aad_of name number) text request.sealed → text ≡ plain_bytes m) }
    ensures again { (name : AnyName) (number : ℕ) (m p : Message)
        → HasSpelling m → has_oscore m.options ≡ false → IsProtectedRequest A.is_sealing name number m p
        → SpellsPlaintext (plain_bytes m) (plaintext_of m) × (unprotected p (plaintext_of m) ≡ m) }
{
    one_plaintext();
    option_of_a_protected_message();
    splitting_what_is_lawful();
    merging_what_was_split();
}

/// The same of a protected response.
pub fn unprotecting_a_protected_response<A: Ciphers>()
    ensures response { (name : AnyName) (number : ℕ) (own : Option ℕ) (m p : Message)
        → IfSome own (λ n. n ≤ greatest_number) → IsProtectedResponse A.is_sealing name number own m p
        → (response : SealedResponse) × IsResponse p response × (response.own ≡ own)
        × A.is_sealing (algorithm_of name) (key_of name Server) (response_nonce name number own) (aad_of name number) (plain_bytes m) response.sealed
        × ((text : List ℕ) → A.is_sealing (algorithm_of name) (key_of name Server) (response_nonce name number own) (aad_of name number) text response.sealed → text ≡ plain_bytes m) }
    ensures again { (name : AnyName) (number : ℕ) (own : Option ℕ) (m p : Message)
        → HasSpelling m → has_oscore m.options ≡ false → IsProtectedResponse A.is_sealing name number own m p
        → SpellsPlaintext (plain_bytes m) (plaintext_of m) × (unprotected p (plaintext_of m) ≡ m) }
{
    one_plaintext();
    option_of_a_protected_message();
    splitting_what_is_lawful();
    merging_what_was_split();
}

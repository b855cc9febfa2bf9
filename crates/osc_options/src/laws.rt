//! Laws of the definitions, for the crates above. These functions do nothing: whoever calls one has its clauses for
//! a proof.
ghost use Rattle.std.specs.Prelude.{◌≡◌, ◌<◌, ◌≤◌, ◌+◌, ◌++◌, ℕ, List, [], Some, None, Ok, IfSome, false, true, length};
ghost use Rattle.osc_model.specs.declared.reply.Reply.{Reply};
ghost use Rattle.osc_model.specs.declared.request.Request.{Request as AnyRequest};
ghost use Rattle.osc_coap.specs.declared.kind.Kind.{Kind as AnyKind};
ghost use Rattle.osc_coap.specs.{bare, is_request_code, NumberAndValue, AreOptions, HasSpelling, spelling, HasPlaintextSpelling, plaintext_spelling, options_length};
ghost use Rattle.osc_coap.specs.Message.{Message};
ghost use Rattle.osc_coap.specs.Plaintext.{Plaintext};
ghost use Rattle.osc_options.specs.Split.{AreInOrder, of_number, inner_options, outer_options, merge, plaintext_of, protected, unprotected, has_oscore};
ghost use Rattle.osc_options.specs.Recognised.{unrecognised_critical};
ghost use Rattle.osc_options.specs.Requests.{IsWithinTable, request_of, request_options, value as value_in, with_request};
ghost use Rattle.osc_options.specs.PlaintextRequests.{request_of_plaintext, request_plaintext};
ghost use Rattle.osc_options.specs.Replies.{with_reply};
ghost use Rattle.osc_options.specs.PlaintextReplies.{reply_plaintext, reply_in};

use crate::numbers::{
    ACCEPT, CONTENT_FORMAT, ETAG, IF_MATCH, IF_NONE_MATCH, LOCATION_PATH, LOCATION_QUERY, MAX_AGE,
    OSCORE, PROXY_SCHEME, PROXY_URI, SIZE1, URI_HOST, URI_PATH, URI_PORT, URI_QUERY,
};
use osc_coap::laws::{fewer_options, length_of_plaintext, length_of_spelling};
use osc_model::laws::paths_are_cut_at_slashes;

/// A message that was split is merged again, whatever the protected message says beside it.
pub fn merging_what_was_split()
    ensures { (m : Message) (code : ℕ) (value payload : List ℕ)
        → HasSpelling m → has_oscore m.options ≡ false
        → unprotected (protected m code value payload) (plaintext_of m) ≡ m }
{
    fewer_options();
}

/// The outcome of splitting and merging has a spelling.
pub fn splitting_what_is_lawful()
    ensures plaintext { (m : Message) → HasSpelling m → HasPlaintextSpelling (plaintext_of m) }
    ensures protected { (m : Message) (code : ℕ) (value payload : List ℕ)
        → HasSpelling m → 0 < code → length value ≤ 255 → HasSpelling (protected m code value payload) }
    ensures unprotected { (outer : Message) (inner : Plaintext)
        → HasSpelling outer → HasPlaintextSpelling inner → 0 < inner.code
        → HasSpelling (unprotected outer inner) }
{
    fewer_options();
}

/// Option 9 of a protected message is the value that was written.
pub fn option_of_a_protected_message()
    ensures { (m : Message) (code : ℕ) (bytes payload : List ℕ)
        → value_in 9 (protected m code bytes payload).options ≡ Some bytes }
{}

/// Two lists of options in one: in the order of their numbers, and of each number the outer ones and then the inner ones,
/// which determines the list. They are options, and take no more bytes than each alone.
pub fn merged_options()
    ensures order { (before : ℕ) (outer inner : List NumberAndValue)
        → AreInOrder before outer → AreInOrder before inner → AreInOrder before (merge outer inner) }
    ensures each { (before number : ℕ) (outer inner : List NumberAndValue)
        → AreInOrder before outer → AreInOrder before inner
        → of_number number (merge outer inner) ≡ of_number number outer ++ of_number number inner }
    ensures only { (before : ℕ) (outer inner merged : List NumberAndValue)
        → AreInOrder before outer → AreInOrder before inner → AreInOrder before merged
        → ((number : ℕ) → of_number number merged ≡ of_number number outer ++ of_number number inner)
        → merged ≡ merge outer inner }
    ensures options { (before : ℕ) (outer inner : List NumberAndValue)
        → AreOptions before outer → AreOptions before inner → AreOptions before (merge outer inner) }
    ensures length { (before : ℕ) (outer inner : List NumberAndValue)
        → AreOptions before outer → AreOptions before inner
        → options_length before (merge outer inner)
        ≤ options_length before outer + options_length before inner }
{}

/// How long the outcome of splitting and merging is at most.
pub fn length_of_split()
    ensures plaintext { (m : Message) → HasSpelling m
        → length (plaintext_spelling (plaintext_of m)) ≤ length (spelling m) }
    ensures protected { (m : Message) (code : ℕ) (value payload : List ℕ)
        → HasSpelling m → length value ≤ 255
        → length (spelling (protected m code value payload))
        ≤ length (spelling m) + 6 + length value + length payload }
    ensures unprotected { (outer : Message) (inner : Plaintext)
        → HasSpelling outer → HasPlaintextSpelling inner
        → length (spelling (unprotected outer inner))
        ≤ length (spelling outer) + length (plaintext_spelling inner) }
{
    fewer_options();
    length_of_spelling();
    length_of_plaintext();
}

/// A message that is sent in place of one is longer, where its payload is as long as what is encrypted, or longer.
pub fn protecting_lengthens()
    ensures { (m : Message) (code : ℕ) (value payload : List ℕ)
        → AreInOrder 0 m.options → has_oscore m.options ≡ false
        → length (plaintext_spelling (plaintext_of m)) ≤ length payload
        → length (spelling m) < length (spelling (protected m code value payload)) }
{
    length_of_spelling();
    length_of_plaintext();
}

/// The constants of `numbers` are the registered numbers (RFC 7252 section 12.2, RFC 8613 section 11.1).
pub fn registered_numbers()
    ensures if_match { IF_MATCH ≡ 1 }
    ensures uri_host { URI_HOST ≡ 3 }
    ensures etag { ETAG ≡ 4 }
    ensures if_none_match { IF_NONE_MATCH ≡ 5 }
    ensures uri_port { URI_PORT ≡ 7 }
    ensures location_path { LOCATION_PATH ≡ 8 }
    ensures oscore { OSCORE ≡ 9 }
    ensures uri_path { URI_PATH ≡ 11 }
    ensures content_format { CONTENT_FORMAT ≡ 12 }
    ensures max_age { MAX_AGE ≡ 14 }
    ensures uri_query { URI_QUERY ≡ 15 }
    ensures accept { ACCEPT ≡ 17 }
    ensures location_query { LOCATION_QUERY ≡ 20 }
    ensures proxy_uri { PROXY_URI ≡ 35 }
    ensures proxy_scheme { PROXY_SCHEME ≡ 39 }
    ensures size1 { SIZE1 ≡ 60 }
{}

/// A reply that was written into a message is encrypted whole: its options are all of class E, none stays outside, and its plaintext has
/// a spelling.
pub fn a_written_reply()
    ensures plaintext { (message : Message) (reply : Reply)
        → plaintext_of (with_reply message reply) ≡ reply_plaintext reply }
    ensures outside { (message : Message) (reply : Reply) (code : ℕ) (value payload : List ℕ) → message.options ≡ []
        → protected (with_reply message reply) code value payload ≡ protected message code value payload }
    ensures spelled { (reply : Reply) → IfSome reply.etag (λ tag. length tag ≡ 8) → HasPlaintextSpelling (reply_plaintext reply) }
{}

/// A reply that was written into a plaintext is read of it again.
pub fn a_reply_is_read_again()
    ensures { (reply : Reply) → 64 ≤ reply.code.0 → reply.code.0 < 192
        → IfSome reply.etag (λ tag. length tag ≡ 8) → IfSome reply.format (λ format. format < 65536)
        → reply_in (reply_plaintext reply) ≡ Some reply }
{}

/// A request that was written into a message is understood and read of it again, also of what is encrypted of the message.
pub fn a_request_is_read_again()
    ensures understood { (request : AnyRequest) → IsWithinTable request
        → unrecognised_critical 0 (request_options request) ≡ None }
    ensures message { (message : Message) (request : AnyRequest) → IsWithinTable request
        → request_of (with_request message request) ≡ request }
    ensures inside { (request : AnyRequest) → IsWithinTable request
        → inner_options (request_options request) ≡ request_options request }
    ensures plaintext { (message : Message) (request : AnyRequest) → IsWithinTable request
        → is_request_code request.code.0 ≡ true
        → request_of_plaintext (plaintext_of (with_request message request)) ≡ Ok request }
{
    paths_are_cut_at_slashes();
}

/// A request is encrypted whole: none of its options stays outside.
pub fn requests_are_encrypted()
    ensures { (request : AnyRequest) → outer_options (request_options request) ≡ [] }
{}

/// A request that was written into a message is encrypted whole: its options are all of class E, and in the order of their numbers.
/// The message that results from what stays outside and from the request's plaintext has these two parts again; with nothing outside it is the message
/// that carries the request.
pub fn a_written_request()
    ensures plaintext { (message : Message) (request : AnyRequest) → plaintext_of (with_request message request) ≡ request_plaintext request }
    ensures order { (request : AnyRequest) → AreInOrder 0 (request_options request) }
    ensures inside { (outside : Message) (request : AnyRequest) → AreInOrder 0 outside.options
        → plaintext_of (unprotected outside (request_plaintext request)) ≡ request_plaintext request }
    ensures outside { (outside : Message) (request : AnyRequest) (code : ℕ) (value payload : List ℕ) → AreInOrder 0 outside.options
        → protected (unprotected outside (request_plaintext request)) code value payload ≡ protected outside code value payload }
    ensures alone { (kind : AnyKind) (code id : ℕ) (token : List ℕ) (request : AnyRequest)
        → unprotected (bare kind code id token) (request_plaintext request) ≡ with_request (bare kind code id token) request }
{}

//! Laws of the definitions, for the crates above. These functions do nothing: whoever calls one has its clauses for a proof.
ghost use Rattle.std.specs.Prelude.{◌≡◌, ℕ, List, Option};
ghost use Rattle.osc_coap.specs.Message.{Message};
ghost use Rattle.osc_model.specs.declared.request.Request.{Request as AnyRequest};
ghost use Rattle.osc_options.specs.{AreInOrder, plaintext_of};
ghost use Rattle.osc_client.specs.Sending.{plain_request};
ghost use Rattle.osc_client.specs.Route.{HostAndPort, through};

use osc_options::laws::merged_options;

/// What is encrypted of a message is the same through a proxy and without one: of a message whose options are in the order of their
/// numbers, and so of each request.
pub fn encrypted_through_a_proxy()
    ensures message { (origin : Option HostAndPort) (message : Message)
        → AreInOrder 0 message.options → plaintext_of (through origin message) ≡ plaintext_of message }
    ensures request { (origin : Option HostAndPort) (id : ℕ) (token : List ℕ) (request : AnyRequest)
        → plaintext_of (through origin (plain_request id token request)) ≡ plaintext_of (plain_request id token request) }
{
    merged_options();
}

//! Laws of the definitions, for the crates above. These functions do nothing: whoever calls one has its clauses for a proof.

ghost use Rattle.std.specs.Prelude.{◌≡◌, ◌≢◌, ◌≤◌, ℕ, List, Option, Some, None, length};
ghost use Rattle.osc_model.specs.Refusals as refusal;
ghost use Rattle.osc_model.specs.declared.node.Draw.{Draw as AnyDraw};
ghost use Rattle.osc_model.specs.declared.node.Moment.{Moment as AnyMoment};
ghost use Rattle.osc_model.specs.declared.node.Peer.{Peer as AnyPeer};
ghost use Rattle.osc_model.specs.declared.step.ClientResult.TheVariants as result_as;
ghost use Rattle.osc_model.specs.declared.step.Step.{Step as AnyStep};
ghost use Rattle.osc_context.specs.{greatest_number};
ghost use Rattle.osc_scope.specs.{Entry};
ghost use Rattle.osc_token.specs.declared.claims.Claims.{Claims as AnyClaims};
ghost use Rattle.osc_authz.specs.{ClientContextState};
ghost use Rattle.osc_server.specs.State.{State as Server};
ghost use Rattle.osc_client.specs.{Asked, Asks, Exchanges, IsLawfulClient, begun_by};
ghost use Rattle.osc_client.specs.State.{State as Client};
ghost use Rattle.osc_rounds.specs.{Ends, IsStraight, asked_text};
ghost use Rattle.osc_loss.specs.Road.{Goes, Happening, IsReadyAtFirst};
ghost use Rattle.osc_loss.specs.Session.{IsAskedInASession, MayServe, RequestOnItsWay};
ghost use Rattle.osc_loss.specs.Staying.{AreLeavingContext, HasFresh, StaysLive};
ghost use Rattle.osc_loss.specs.Alone.{IsAlone, IsAtFirst};
ghost use Rattle.osc_loss.specs.Exchange.{IsBegunOverLoss, MayAgree, PostOnItsWay};

use osc_authz::laws::{
    answers_stay, held_contexts_are_meant, lengths_of_answers, meant_contexts, numbers_taken,
    one_context, one_more_context, one_name, one_payload, welcome_posts, what_is_written,
};
use osc_ccm::Ciphers;
use osc_coap::laws::{length_of_spelling, one_plaintext};
use osc_message::laws::{one_reception, retransmissions};
use osc_model::laws::one_peer;
use osc_options::laws::{
    a_reply_is_read_again, a_written_reply, option_of_a_protected_message, requests_are_encrypted,
};
use osc_protect::TokenCipher;
use osc_protect::laws::{
    lengths_of_values, one_value, unprotecting_a_protected_request,
    unprotecting_a_protected_response,
};
use osc_run::laws::codes_of_replies;
use osc_server::laws::lengths_of_replies;

/// A request of a session that goes straight to the server over a network that loses, repeats, delays and reorders, while whatever else
/// comes to both ends too: the client's earlier messages, other clients, strangers. It goes out in one datagram. Then the first copy that
/// comes is served, under a context of its name, by the server as it is then, and each later copy is answered by the same bytes; the first
/// reply that comes while the client waits is its answer; the client asks again by the timetable, under the same bytes, and gives up not
/// before its end; so where one copy comes, and one reply comes back before that, it is served and answered. What is asked of the server, and
/// of what else comes, stands in `MayServe`, `IsRemembered` and `AreLeavingWaiting`.
pub fn a_request_is_served_in_a_session<A: Ciphers>()
    ensures { (client asked : Client) (server : Server) (asks : Asked) (now : AnyMoment) (at server_at : AnyPeer) (context : ClientContextState) (first : AnyStep)
        → IsLawfulClient client → IsStraight client server now asks.draw at server_at
        → client.waiting ≡ None → client.context ≡ Some context → context.next ≤ greatest_number
        → first.notes.result ≢ Some (result_as.Refused refusal.datagram_too_long)
        → Asks A.is_sealing A.TAG client asks first asked
        → IsAskedInASession A.is_sealing (record {
          asked = asked;
          server = server;
          route = record { at = at; server_at = server_at; now = now };
          name = context.name;
          number = context.next;
          text = asked_text client asks.draw asks.request;
        }) client asks first }
{
    one_peer();
    held_contexts_are_meant();
    one_reception();
    one_value();
    option_of_a_protected_message();
    lengths_of_values();
    unprotecting_a_protected_request::<A>();
    unprotecting_a_protected_response::<A>();
    one_plaintext();
    a_written_reply();
    a_reply_is_read_again();
    length_of_spelling();
    requests_are_encrypted();
    codes_of_replies();
    lengths_of_replies();
    retransmissions();
}

/// A server keeps a context while whatever else comes to it, and a number in it stays fresh, so that it is ready when the first copy of a
/// request comes. What is asked of that is in `AreLeavingContext`, of the notes of its steps alone: no context of the token's id is made, none
/// other of that id is used, and under the context itself no such number is served. And its context lives whenever something comes.
pub fn a_context_stays<A: Ciphers>()
    ensures { (request : RequestOnItsWay) (token : List ℕ) (all : List Happening) (start last : Ends) (goes : Goes A.is_sealing request.route start all last)
        → HasFresh request token start.server → AreLeavingContext request token all → StaysLive A.is_sealing request request.route start all last goes
        → IsReadyAtFirst A.is_sealing (MayServe request) request.route start all last goes }
{
    one_more_context();
    numbers_taken();
    answers_stay();
    meant_contexts();
    one_context();
}

/// A server to which nothing else comes is ready at the first copy of a request, or of a post, where it would be so as it is: of it nothing
/// changes but its message layer.
pub fn a_server_alone_stays_ready<A: Ciphers>()
    ensures serves { (request : RequestOnItsWay) (all : List Happening) (start last : Ends) (goes : Goes A.is_sealing request.route start all last)
        → IsAlone all → IsAtFirst (λ now draw. MayServe request start.server now draw) all
        → IsReadyAtFirst A.is_sealing (MayServe request) request.route start all last goes }
    ensures agrees { (post : PostOnItsWay) (all : List Happening) (start last : Ends) (goes : Goes A.is_sealing post.route start all last)
        → IsAlone all → IsAtFirst (λ now draw. MayAgree A.is_sealing post start.server now draw) all
        → IsReadyAtFirst A.is_sealing (MayAgree A.is_sealing post) post.route start all last goes }
{}

/// An exchange that goes straight to the server over such a network, among whatever else comes to both ends: the first copy of its post that
/// comes is agreed to, and each later one is answered by the same bytes; the first answer that comes while the client waits makes its
/// context, of the name of the server's; the client posts again by the timetable, and gives up not before its end; so where one copy comes,
/// and one answer comes back before that, client and server have a context of one name, the server's with the token's scope.
pub fn an_exchange_is_made_over_loss<A: Ciphers>()
    ensures { (client begun : Client) (server : Server) (asked_at now : AnyMoment) (draw : AnyDraw) (at server_at : AnyPeer)
        (claims : AnyClaims) (entries : List Entry) (first : AnyStep)
        → IsLawfulClient client → length draw.0 ≡ 32 → IsStraight client server now draw at server_at → client.waiting ≡ None
        → first.notes.result ≢ Some (result_as.Refused refusal.datagram_too_long)
        → Exchanges client asked_at draw first begun
        → IsBegunOverLoss A.is_sealing (record {
          begun = begun;
          server = server;
          route = record { at = at; server_at = server_at; now = now };
          exchange = record { claims = claims; entries = entries; holder = client.desk; begun = begun_by client draw };
        }) client asked_at draw first }
{
    one_peer();
    one_reception();
    length_of_spelling();
    lengths_of_answers();
    welcome_posts::<TokenCipher<A>>();
    what_is_written();
    one_payload();
    one_name::<TokenCipher<A>>();
    retransmissions();
}

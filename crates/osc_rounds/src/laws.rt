//! Laws of the definitions, for the crates above. These functions do nothing: whoever calls one has its clauses for a proof.

ghost use Rattle.std.specs.Prelude.{◌≡◌, ◌≢◌, ◌<◌, ◌^◌, ℕ, false, List, [], Option, Some, None, ◌≤◌, length, ◌∷◌, ◌++◌};
ghost use Rattle.osc_model.specs.Refusals as refusal;
ghost use Rattle.osc_model.specs.{read_as, sends, quiet};
ghost use Rattle.osc_model.specs.Arrival.{Arrival};
ghost use Rattle.osc_model.specs.StepNotes.{StepNotes};
ghost use Rattle.osc_model.specs.declared.context.ContextName.{ContextName as AnyName};
ghost use Rattle.osc_model.specs.declared.node.Draw.{Draw as AnyDraw};
ghost use Rattle.osc_model.specs.declared.node.Moment.{Moment as AnyMoment};
ghost use Rattle.osc_model.specs.declared.node.Peer.{Peer as AnyPeer};
ghost use Rattle.osc_model.specs.declared.reply.Reply.{Reply as AnyReply};
ghost use Rattle.osc_model.specs.declared.step.ClientResult.TheVariants as result_as;
ghost use Rattle.osc_model.specs.declared.step.Step.{Step as AnyStep};
ghost use Rattle.osc_coap.specs.{spelling};
ghost use Rattle.osc_coap.specs.Message.{Message};
ghost use Rattle.osc_coap.specs.declared.kind.Kind.{Kind as AnyKind};
ghost use Rattle.osc_options.specs.{AreInOrder, outer_options};
ghost use Rattle.osc_message.specs.{acknowledgement, empty_acknowledgement, sent_to, datagram, own_id};
ghost use Rattle.osc_coap.specs.declared.kind.Kind.TheVariants.{Acknowledgement, Confirmable};
ghost use Rattle.osc_dedup.specs.{looked};
ghost use Rattle.osc_scope.specs.{Entry};
ghost use Rattle.osc_protect.specs.{IsProtectedRequest, IsProtectedResponse, plain_bytes};
ghost use Rattle.osc_token.specs.declared.claims.Claims.{Claims as AnyClaims};
ghost use Rattle.osc_authz.specs.{ClientContextState, In, IsTable, contexts};
ghost use Rattle.osc_authz.specs.SecurityContext.{SecurityContext};
ghost use Rattle.osc_authz.specs.declared.token_entry.TokenEntry.{TokenEntry};
ghost use Rattle.osc_run.specs.{Noted, HasFreshDraws, IsMinted, Minted};
ghost use Rattle.osc_run.specs.Premise.{Premise};
ghost use Rattle.osc_server.specs.{Hears as ServerHears};
ghost use Rattle.osc_server.specs.State.{State as Server};
ghost use Rattle.osc_client.specs.{Hears as ClientHears, Asked, Asks, Exchanges, post_of, HostAndPort, IsLawfulOrigin, through, IsLawfulClient};
ghost use Rattle.osc_client.specs.State.{State as Client};
ghost use Rattle.osc_proxy.specs.{answer as sent_back, forwarded, forwarded_options, has_proxy_uri, IsCarried, IsLawfulProxy};
ghost use Rattle.osc_proxy.specs.State.{State as Proxy};
ghost use Rattle.osc_rounds.specs.Asked.{AwaitsReply, AwaitsRequest, CarriesReply, IsAnsweredWith, IsForServer, IsServed, OpenedRequest};
ghost use Rattle.osc_rounds.specs.AskRound.{IsAskedAndAnswered, IsLawfulServer, asked_text};
ghost use Rattle.osc_rounds.specs.AskRoundThrough.{IsAskedAndServedThrough};
ghost use Rattle.osc_rounds.specs.Coming.{coming, in_bytes};
ghost use Rattle.osc_rounds.specs.LossClaim.{IsAskedOverLoss};
ghost use Rattle.osc_rounds.specs.ExchangeRound.{IsBegunAndMade, IsHeld};
ghost use Rattle.osc_rounds.specs.ExchangeRoundThrough.{IsPostedAndAgreedThrough};
ghost use Rattle.osc_rounds.specs.Ready.{Hops, IsStraight, IsThrough, MayAsk, MayExchange};
ghost use Rattle.osc_rounds.specs.Agreement.{AwaitsAgreement, AwaitsPost, BegunExchange, IsAgreedTo, agreement};
ghost use Rattle.osc_rounds.specs.ForProxy.{IsForProxy};
ghost use Rattle.osc_rounds.specs.ProxiedExchange.{IsBegunAndMadeThrough, IsMadeThrough, IsPostedThrough, MayExchangeThrough, ProxiedExchange, claims_text};
ghost use Rattle.osc_rounds.specs.RoundNotes.{AreAmongQuiet, AreNotesOfExchange, AreNotesOfRequest, Draws};
ghost use Rattle.osc_rounds.specs.Asked.{with_acknowledgement};

use osc_authz::laws::{
    held_contexts_are_meant, lengths_of_answers, one_name, one_payload, posts_that_agree,
    welcome_posts, what_is_written,
};
use osc_ccm::Ciphers;
use osc_coap::laws::{fewer_options, length_of_spelling, one_plaintext};
use osc_dedup::laws::{expiring, noted};
use osc_message::laws::{one_reception, retransmissions, what_nodes_send};
use osc_model::laws::one_peer;
use osc_options::laws::{
    a_reply_is_read_again, a_written_reply, option_of_a_protected_message, requests_are_encrypted,
};
use osc_protect::TokenCipher;
use osc_protect::laws::{
    lengths_of_values, one_value, unprotecting_a_protected_request,
    unprotecting_a_protected_response,
};
use osc_proxy::laws::{a_request_goes_there_and_back, forwarding_adds_nothing};
use osc_run::laws::codes_of_replies;
use osc_server::laws::lengths_of_replies;
use osc_token::laws::{minted_tokens, one_token};

/// A protected request that comes to a server that has its context, live, and its number fresh, straight or with the Uri-Host that a
/// proxy leaves, is served: its plaintext is applied to the resources under the context's scope, one entry is served, and one protected
/// reply goes out.
pub fn a_request_is_served<A: Ciphers>()
    ensures { (old new : Server) (came : Arrival Message) (held : SecurityContext) (number : ℕ) (plain : Message) (step : AnyStep)
        → AwaitsRequest old came.at came.from held number plain.id → IsForServer plain
        → IsProtectedRequest A.is_sealing held.name number plain came.what → IsCarried came.what
        → ServerHears A.is_sealing old (in_bytes came) step new
        → IsServed A.is_sealing old came (record { held = held; number = number; text = plain_bytes plain }) step new }
{
    one_reception();
    one_value();
    option_of_a_protected_message();
    lengths_of_values();
    unprotecting_a_protected_request::<A>();
}

/// A protected reply to what a client asked, which comes in the acknowledgement, or in a confirmable message that it hasn't heard
/// before, is its answer: the reply that was encrypted is the result, a confirmable message is acknowledged, and nothing waits.
pub fn a_reply_is_accepted<A: Ciphers>()
    ensures { (old new : Client) (came : Arrival Message) (name : AnyName) (number : ℕ) (request plain : Message) (reply : AnyReply) (step : AnyStep)
        → AwaitsReply old came.from name number request → CarriesReply old came.at came.from request reply plain
        → IsProtectedResponse A.is_sealing name number None plain came.what → IsCarried came.what
        → ClientHears A.is_sealing old (in_bytes came) step new
        → IsAnsweredWith (sent_to came.from (acknowledgement came.what)) old (record { name = name; number = number; reply = reply }) step new }
{
    one_reception();
    one_value();
    option_of_a_protected_message();
    lengths_of_values();
    unprotecting_a_protected_response::<A>();
    one_plaintext();
    a_written_reply();
    a_reply_is_read_again();
}

/// A request that goes straight to the server, from a client that may ask, and isn't too long for a datagram: it goes out in one
/// datagram; where that comes to the server, its plaintext is served as one entry, and one datagram goes back; and where that comes
/// to the client, the request is answered by the reply that was served.
pub fn a_request_is_answered<A: Ciphers>()
    ensures { (client asked : Client) (server : Server) (asks : Asked) (now : AnyMoment) (at server_at : AnyPeer) (context : ClientContextState) (held : SecurityContext)
        (first : AnyStep)
        → IsLawfulServer server → IsLawfulClient asked
        → IsStraight client server now asks.draw at server_at → MayAsk client server now context held
        → first.notes.result ≢ Some (result_as.Refused refusal.datagram_too_long)
        → Asks A.is_sealing A.TAG client asks first asked
        → IsAskedAndAnswered A.is_sealing (record {
          asked = asked;
          server = server;
          at = at;
          server_at = server_at;
          now = now;
          held = held;
          number = context.next;
          text = asked_text client asks.draw asks.request;
        }) client asks.draw first }
{
    one_peer();
    held_contexts_are_meant();
    one_reception();
    one_value();
    option_of_a_protected_message();
    lengths_of_values();
    unprotecting_a_protected_request::<A>();
    unprotecting_a_protected_response::<A>();
    one_plaintext();
    a_written_reply();
    a_reply_is_read_again();
    length_of_spelling();
    requests_are_encrypted();
    codes_of_replies();
    lengths_of_replies();
}

/// An exchange that goes straight to the server, of a client that may begin one, and whose post isn't too long for a datagram: it goes
/// out in one datagram; where that comes to the server, a context is added and one datagram goes back; and where that comes to the
/// client, both ends have a context of one name, which is live at the server, with the token's scope.
pub fn an_exchange_is_made<A: Ciphers>()
    ensures { (client begun : Client) (server : Server) (asked_at now : AnyMoment) (draw : AnyDraw) (at server_at : AnyPeer)
        (claims : AnyClaims) (entries : List Entry) (first : AnyStep)
        → IsLawfulClient begun → IsStraight client server now draw at server_at → MayExchange A.is_sealing client server now draw claims entries
        → first.notes.result ≢ Some (result_as.Refused refusal.datagram_too_long)
        → Exchanges client asked_at draw first begun
        → IsBegunAndMade A.is_sealing (record { begun = begun; server = server; at = at; server_at = server_at; now = now; entries = entries }) client draw first }
{
    one_peer();
    one_reception();
    length_of_spelling();
    lengths_of_answers();
    welcome_posts::<TokenCipher<A>>();
    what_is_written();
    one_payload();
    one_name::<TokenCipher<A>>();
}

/// What a proxy makes of a protected message is protected as it was: of a request without a Proxy-Uri it forwards the same, protected
/// under the same name and number, with the same bytes inside and, outside, the options that it forwards; and so of a response.
pub fn forwarding_keeps_the_protection<A: Ciphers>()
    ensures request { (name : AnyName) (number : ℕ) (plain protected : Message) (id : ℕ) (token : List ℕ)
        → AreInOrder 0 plain.options → has_proxy_uri plain.options ≡ false → IsProtectedRequest A.is_sealing name number plain protected
        → IsProtectedRequest A.is_sealing name number (forwarded id token plain) (forwarded id token protected) }
    ensures inside { (message : Message) (id : ℕ) (token : List ℕ) → has_proxy_uri message.options ≡ false
        → plain_bytes (forwarded id token message) ≡ plain_bytes message }
    ensures outside { (message : Message) (id : ℕ) (token : List ℕ) → has_proxy_uri message.options ≡ false
        → outer_options (forwarded id token message).options ≡ forwarded_options (outer_options message.options) }
    ensures response { (name : AnyName) (number : ℕ) (own : Option ℕ) (plain protected : Message) (kind : AnyKind) (id : ℕ) (token : List ℕ)
        → IsProtectedResponse A.is_sealing name number own plain protected
        → IsProtectedResponse A.is_sealing name number own (sent_back kind id token plain) (sent_back kind id token protected) }
{}

/// An empty acknowledgement that comes to a client acknowledges the confirmable message that it names: nothing goes out, and nothing
/// else changes.
pub fn an_acknowledgement_is_heard<A: Ciphers>()
    ensures { (old new : Client) (came : Arrival ℕ) (step : AnyStep) → came.what < 2 ^ 16
        → ClientHears A.is_sealing old (read_as came (spelling (empty_acknowledgement came.what))) step new
        → (step ≡ sends [])
        × (new ≡ record old { endpoint = with_acknowledgement came.from came.what old.endpoint }) }
{
    one_reception();
    what_nodes_send();
}

/// What a client posts through a proxy, where nothing waits and the post isn't too long for a datagram: one datagram goes to the next hop,
/// with a message that a proxy can take up for the server.
pub fn what_is_posted_through_a_proxy()
    ensures { (old new : Client) (now : AnyMoment) (draw : AnyDraw) (origin : HostAndPort) (step : AnyStep)
        → old.origin ≡ Some origin → IsLawfulOrigin origin → old.waiting ≡ None → length draw.0 ≡ 32
        → step.notes.result ≢ Some (result_as.Refused refusal.datagram_too_long)
        → Exchanges old now draw step new → IsPostedThrough origin old draw step }
{}

/// A post that a proxy forwards is agreed to, where its token is welcome at the server and its message ID is new there: the answer goes
/// back in the acknowledgement, under the forwarded token.
pub fn a_forwarded_post_is_agreed_to<A: Ciphers>()
    ensures { (old new : Server) (came : Arrival Message) (exchange : BegunExchange) (origin : HostAndPort) (id : ℕ) (token : List ℕ) (step : AnyStep)
        → AwaitsPost A.is_sealing old came exchange → IsLawfulOrigin origin
        → IsForProxy origin (through (Some origin) (post_of exchange.holder exchange.begun id token))
        → came.what ≡ forwarded came.what.id came.what.token (through (Some origin) (post_of exchange.holder exchange.begun id token))
        → came.what.id < 2 ^ 16 → length came.what.token ≡ 8
        → ServerHears A.is_sealing old (in_bytes came) step new
        → IsAgreedTo A.is_sealing old came exchange step new }
{
    one_peer();
    one_reception();
    length_of_spelling();
    lengths_of_answers();
    welcome_posts::<TokenCipher<A>>();
    what_is_written();
    one_payload();
    one_name::<TokenCipher<A>>();
    forwarding_adds_nothing();
}

/// What the server agreed to makes the client's context, where a proxy sends the answer back in a confirmable message that is new to the
/// client, and the client waits for it: server and client have a context of one name, and the message is acknowledged.
pub fn an_answer_sent_back_makes_a_context<A: Ciphers>()
    ensures { (server agreed : Server) (came : Arrival Message) (exchange : BegunExchange) (second : AnyStep)
        (client after : Client) (back : Arrival Message) (third : AnyStep)
        → AwaitsPost A.is_sealing server came exchange → length came.draw.0 ≡ 32
        → (is : IsAgreedTo A.is_sealing server came exchange second agreed)
        → AwaitsAgreement client back.from exchange.holder exchange.begun back.what.token
        → back.what.id < 2 ^ 16 → length back.what.token ≤ 8 → looked back.at back.from back.what.id client.endpoint.seen ≡ None
        → back.what ≡ sent_back Confirmable back.what.id back.what.token (agreement Acknowledgement came.what.id came.what.token is.answer)
        → ClientHears A.is_sealing client (in_bytes back) third after
        → (held : SecurityContext) × IsHeld agreed came.at exchange.entries held × IsMadeThrough client back.from back.what.id held third after }
{
    one_peer();
    one_reception();
    length_of_spelling();
    lengths_of_answers();
    welcome_posts::<TokenCipher<A>>();
    what_is_written();
    one_payload();
    one_name::<TokenCipher<A>>();
}

/// An exchange through a forward proxy, of a client that may begin one, and whose post isn't too long for a datagram: it goes out in one
/// datagram, which a proxy can take up; where what a proxy forwards of it comes to the server, the token is opened, a context is added, and
/// one datagram goes back, which a proxy can send back; and where that comes to the client, both ends have a context of one name, which is live at the
/// server, with the token's scope.
pub fn an_exchange_is_made_through_a_proxy<A: Ciphers>()
    ensures { (client begun : Client) (asked_at : AnyMoment) (exchange : ProxiedExchange) (first : AnyStep)
        → MayExchangeThrough A.is_sealing client exchange
        → first.notes.result ≢ Some (result_as.Refused refusal.datagram_too_long)
        → Exchanges client asked_at exchange.draw first begun
        → IsBegunAndMadeThrough A.is_sealing client exchange first begun }
{
    one_peer();
    one_reception();
    what_nodes_send();
    length_of_spelling();
    lengths_of_answers();
    welcome_posts::<TokenCipher<A>>();
    one_name::<TokenCipher<A>>();
    forwarding_adds_nothing();
    what_is_written();
    one_payload();
    posts_that_agree::<TokenCipher<A>>();
    minted_tokens::<TokenCipher<A>>();
    one_token::<TokenCipher<A>>();
}

/// A request that goes through a forward proxy, and its answer, where nothing is lost: six datagrams in all. The proxy acknowledges the
/// request and forwards it; the server serves it as one entry, and answers in the acknowledgement; the proxy sends the answer back; the
/// client takes it for the answer, with the reply that was served, and acknowledges it; and the proxy is at rest again.
pub fn a_request_goes_through_a_proxy<A: Ciphers>()
    ensures { (client asked : Client) (proxy : Proxy) (server : Server) (asks : Asked) (hops : Hops) (context : ClientContextState) (held : SecurityContext) (first : AnyStep)
        → IsLawfulServer server → IsLawfulProxy proxy → IsLawfulClient asked → length hops.proxy_draw.0 ≡ 32
        → (way : IsThrough client proxy server asks.draw hops) → MayAsk client server hops.now context held
        → first.notes.result ≢ Some (result_as.Refused refusal.datagram_too_long)
        → Asks A.is_sealing A.TAG client asks first asked
        → (message : Message)
        × IsAskedAndServedThrough A.is_sealing (record {
          asked = asked;
          proxy = proxy;
          server = server;
          at = hops.at;
          proxy_at = hops.proxy_at;
          server_at = hops.server_at;
          now = hops.now;
          proxy_draw = hops.proxy_draw;
          held = held;
          number = context.next;
          text = asked_text client asks.draw asks.request;
          message = message;
          key = way.key;
        }) client asks.draw asks.request first }
{
    one_peer();
    held_contexts_are_meant();
    one_reception();
    one_value();
    option_of_a_protected_message();
    lengths_of_values();
    unprotecting_a_protected_request::<A>();
    unprotecting_a_protected_response::<A>();
    one_plaintext();
    a_written_reply();
    a_reply_is_read_again();
    length_of_spelling();
    requests_are_encrypted();
    codes_of_replies();
    lengths_of_replies();
    fewer_options();
    forwarding_adds_nothing();
    an_acknowledgement_is_heard::<A>();
    a_request_goes_there_and_back();
}

/// An exchange that goes through a forward proxy, where nothing is lost: six datagrams in all. The proxy acknowledges the post and forwards
/// it; the server agrees, and answers in the acknowledgement; the proxy sends the answer back; the client makes its context of it, and
/// acknowledges it; and the proxy is at rest again.
pub fn an_exchange_goes_through_a_proxy<A: Ciphers>()
    ensures { (client begun : Client) (proxy : Proxy) (server : Server) (begun_at : AnyMoment) (draw : AnyDraw) (hops : Hops)
        (claims : AnyClaims) (entries : List Entry) (posts : AnyStep)
        → IsLawfulProxy proxy → IsLawfulClient begun → length hops.proxy_draw.0 ≡ 32
        → (way : IsThrough client proxy server draw hops) → (may : MayExchange A.is_sealing client server hops.now draw claims entries)
        → posts.notes.result ≢ Some (result_as.Refused refusal.datagram_too_long)
        → Exchanges client begun_at draw posts begun
        → (message : Message)
        × IsPostedAndAgreedThrough A.is_sealing (record {
          begun = begun;
          proxy = proxy;
          server = server;
          at = hops.at;
          proxy_at = hops.proxy_at;
          server_at = hops.server_at;
          now = hops.now;
          draw = draw;
          proxy_draw = hops.proxy_draw;
          claims = claims;
          entries = entries;
          token_key = may.token_key;
          message = message;
          key = way.key;
        }) posts }
{
    an_exchange_is_made_through_a_proxy::<A>();
    a_request_goes_there_and_back();
}

/// Where a request is asked, served under a context of a server's table and answered, and other steps noted nothing, what is assumed of a
/// run goes on: what each end opened was sealed by the other, and no nonce was drawn.
pub fn a_request_keeps_the_premise()
    ensures { (minted : List Minted) (old all : List Noted) (table : List TokenEntry) (now : AnyMoment) (request : OpenedRequest) (reply : AnyReply)
        (asked served answered : Noted)
        → IsTable table → In request.held (contexts table) → AreNotesOfRequest now request reply asked.notes served.notes answered.notes
        → AreAmongQuiet (answered ∷ served ∷ asked ∷ []) all
        → Premise minted old → Premise minted (all ++ old) }
{}

/// Where an exchange is begun, agreed and made, with a token that was minted, and other steps noted nothing, what is assumed of a run
/// goes on, if the two nonces that were drawn are fresh.
pub fn an_exchange_keeps_the_premise()
    ensures { (minted : List Minted) (old all : List Noted) (key text : List ℕ) (draws : Draws) (begun agreed made : Noted)
        → IsMinted minted text → AreNotesOfExchange key text draws begun.notes agreed.notes made.notes
        → AreAmongQuiet (made ∷ agreed ∷ begun ∷ []) all → HasFreshDraws (all ++ old)
        → Premise minted old → Premise minted (all ++ old) }
{}

/// Of an exchange that goes straight to the server, with a token that is welcome there: once it is made, client and server have drawn a
/// nonce each, and the server has opened the token, to the text of its claims. Of the client's other message IDs the server has heard none
/// that it hadn't heard before.
pub fn what_an_exchange_notes<A: Ciphers>()
    ensures notes { (client begun : Client) (server agreed : Server) (asked_at now : AnyMoment) (draw server_draw : AnyDraw) (at server_at : AnyPeer)
        (claims : AnyClaims) (entries : List Entry) (message : Message) (first second : AnyStep) (made : StepNotes)
        → IsLawfulClient begun → IsStraight client server now draw at server_at → (may : MayExchange A.is_sealing client server now draw claims entries)
        → Exchanges client asked_at draw first begun → first.out ≡ datagram client.next_hop message ∷ []
        → ServerHears A.is_sealing server (coming now at server_draw message) second agreed
        → made ≡ record quiet { result = Some result_as.Made }
        → AreNotesOfExchange may.token_key (claims_text claims) (record { client = draw; server = server_draw }) first.notes second.notes made }
    ensures heard { (client begun : Client) (server agreed : Server) (asked_at now later : AnyMoment) (draw server_draw : AnyDraw) (at server_at : AnyPeer)
        (claims : AnyClaims) (entries : List Entry) (message : Message) (first second : AnyStep) (id : ℕ)
        → IsLawfulClient begun → IsStraight client server now draw at server_at → MayExchange A.is_sealing client server now draw claims entries
        → Exchanges client asked_at draw first begun → first.out ≡ datagram client.next_hop message ∷ []
        → ServerHears A.is_sealing server (coming now at server_draw message) second agreed
        → id ≢ own_id draw client.endpoint.next_id → looked later at id server.endpoint.seen ≡ None
        → looked later at id agreed.endpoint.seen ≡ None }
{
    one_reception();
    what_is_written();
    one_payload();
    posts_that_agree::<TokenCipher<A>>();
    welcome_posts::<TokenCipher<A>>();
    minted_tokens::<TokenCipher<A>>();
    one_token::<TokenCipher<A>>();
}

/// A request that goes straight to the server over a network that loses, repeats, delays and reorders, from a client that may ask, and that
/// isn't too long for a datagram. It goes out in one datagram. Whatever comes then, of what both ends sent: it is served once, at the first
/// copy that comes, and each later copy is answered by the same bytes; the first reply that comes while the client waits is its answer; the
/// client asks again by the timetable, under the same bytes, and gives up not before its end; so where one copy comes, and one reply
/// comes back before that, it is served and answered.
pub fn a_request_is_served_over_loss<A: Ciphers>()
    ensures { (client asked : Client) (server : Server) (asks : Asked) (now : AnyMoment) (at server_at : AnyPeer) (context : ClientContextState) (held : SecurityContext)
        (first : AnyStep)
        → IsLawfulServer server → IsLawfulClient client
        → IsStraight client server now asks.draw at server_at → MayAsk client server now context held
        → first.notes.result ≢ Some (result_as.Refused refusal.datagram_too_long)
        → Asks A.is_sealing A.TAG client asks first asked
        → IsAskedOverLoss A.is_sealing (record {
          asked = asked;
          server = server;
          at = at;
          server_at = server_at;
          now = now;
          held = held;
          number = context.next;
          text = asked_text client asks.draw asks.request;
        }) client asks first }
{
    one_peer();
    held_contexts_are_meant();
    one_reception();
    one_value();
    option_of_a_protected_message();
    lengths_of_values();
    unprotecting_a_protected_request::<A>();
    unprotecting_a_protected_response::<A>();
    one_plaintext();
    a_written_reply();
    a_reply_is_read_again();
    length_of_spelling();
    requests_are_encrypted();
    codes_of_replies();
    lengths_of_replies();
    noted();
    expiring();
    retransmissions();
}

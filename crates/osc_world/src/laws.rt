//! Laws of the definitions. These functions do nothing: whoever calls one has its clauses for a proof.
ghost use Rattle.std.specs.Prelude.{◌≡◌, ◌≤◌, ◌∷◌, ◌++◌, ℕ, suc, Bool, List, [], None, Some, IfSome, true, false, length, slice_get, ◌<◌, ◌+◌, ◌%◌, ◌^◌};
ghost use Rattle.osc_model.specs.{is_revoked, HasBegun, IsNotOver};
ghost use Rattle.osc_server.specs.{standing_of};
ghost use Rattle.osc_model.specs.declared.node.Draw.{Draw as AnyDraw};
ghost use Rattle.osc_model.specs.declared.node.Moment.{Moment as AnyMoment};
ghost use Rattle.osc_model.specs.declared.node.Peer.{Peer as AnyPeer};
ghost use Rattle.osc_cbor.specs.{spelling};
ghost use Rattle.osc_authz.specs.{FitAToken, IsLive, is_allowed};
ghost use Rattle.osc_authz.specs.HoldsToken.{HoldsToken};
ghost use Rattle.osc_model.specs.declared.algorithm.Algorithm.TheVariants.{EightByteTag};
ghost use Rattle.osc_context.specs.{greatest_number};
ghost use Rattle.osc_window.specs.{IsFresh};
ghost use Rattle.osc_client.specs.State.{State as AnyClient};
ghost use Rattle.osc_client.specs.{HostAndPort};
ghost use Rattle.osc_dedup.specs.{looked};
ghost use Rattle.osc_message.specs.{own_id};
ghost use Rattle.osc_proxy.specs.State.{State as AnyProxy};
ghost use Rattle.osc_proxy.specs.{peer_of};
ghost use Rattle.osc_proxy.specs.declared.targets.Target.{Target as AnyTarget};
ghost use Rattle.osc_rounds.specs.{IsLawfulServer, OpenedRequest, MayAsk, MayExchange};
ghost use Rattle.osc_run.specs.{HasOwnSecrets, IsMinted};
ghost use Rattle.osc_run.specs.Premise.{Premise};
ghost use Rattle.osc_scope.specs.{Entry, scope_of};
ghost use Rattle.osc_token.specs.{HasLawfulParts, claims_item};
ghost use Rattle.osc_token.specs.declared.claims.Claims.{Claims as AnyClaims};
ghost use Rattle.osc_world.specs.Lawful.{AreLawfulClients, AreLawfulProxies};
ghost use Rattle.osc_world.specs.Log.{delivered, sent_by};
ghost use Rattle.osc_world.specs.Nodes.{NodeStates, StandApart, node_at};
ghost use Rattle.osc_world.specs.Queue.{IsHeardByClient, IsHeardByProxy, IsHeardByServer, queue};
ghost use Rattle.osc_world.specs.Loss.{GoesOverLoss};
ghost use Rattle.osc_world.specs.Quiet.{AreWhole, Deliveries, Rounds, next_draw, waiting_first};
ghost use Rattle.osc_world.specs.Ready.{AnswersWhatWasAsked, AskedRequest, BegunExchange, ClientRound, HasAnswered, HasMade, IsReady, IsRound, LeavesUnheard, MakesWhatWasBegun};
ghost use Rattle.osc_world.specs.Worlds.{Happen, Happens, State};
ghost use Rattle.osc_world.specs.declared.event.Event.{Event as AnyEvent};
ghost use Rattle.osc_world.specs.declared.log.SentDatagram.{SentDatagram as AnySent};
ghost use Rattle.osc_world.specs.Starts.{Beginning, Enrols, begun, new_proxy};
ghost use Rattle.osc_world.specs.declared.nodes.Placed.{Placed as AnyPlaced};
ghost use Rattle.osc_world.specs.declared.nodes.Whose.TheVariants as whose;
ghost use Rattle.osc_world.specs.declared.start.NewHolder.{NewHolder as AnyHolder};

use osc_authz::laws::{answers_stay, numbers_taken};
use osc_ccm::Ciphers;
use osc_model::laws::one_peer;
use osc_rounds::laws::{
    a_request_goes_through_a_proxy, a_request_is_answered, a_request_is_served_over_loss,
    a_request_keeps_the_premise, an_exchange_goes_through_a_proxy, an_exchange_is_made,
    an_exchange_keeps_the_premise, what_an_exchange_notes,
};

/// Where no two nodes share an address, what is sent to a node's address comes to that node.
pub fn who_stands_there()
    ensures server { (nodes : NodeStates) → node_at nodes nodes.server_at ≡ whose.Server }
    ensures client { (nodes : NodeStates) (number : ℕ) (placed : AnyPlaced AnyClient) → StandApart nodes → slice_get nodes.clients number ≡ Some placed
        → node_at nodes placed.at ≡ whose.Client number }
    ensures proxy { (nodes : NodeStates) (number : ℕ) (placed : AnyPlaced AnyProxy) → StandApart nodes → slice_get nodes.proxies number ≡ Some placed
        → node_at nodes placed.at ≡ whose.Proxy number }
{
    one_peer();
}

/// What waits, in order of sending, is a queue. What an event sends waits after the others. A quiet round is over where nothing waits;
/// else the first datagram that waits is delivered, where no two nodes share an address, to the node at the address that it was
/// sent to, and the round goes on from there.
pub fn a_round_delivers<A: Ciphers>()
    ensures at_rest { (world : State) → waiting_first world ≡ None → queue world ≡ [] }
    ensures still { (world : State) → queue world ≡ [] → waiting_first world ≡ None }
    ensures sent { (old new : State) (event : AnyEvent) (happens : Happens A.is_sealing A.TAG old event new)
        → delivered event.what old.sent ≡ old.sent → queue new ≡ queue old ++ sent_by happens.taken }
    ensures over { (deliveries : Deliveries) (limit : ℕ) (old new : State) (quiet : Bool)
        → queue old ≡ [] → Rounds (Happens A.is_sealing A.TAG) deliveries limit old quiet new → (quiet ≡ true) × (new ≡ old) }
    ensures server { (deliveries : Deliveries) (left : ℕ) (first : AnySent) (later : List AnySent) (old new : State) (quiet : Bool)
        → StandApart old.nodes → queue old ≡ first ∷ later → first.to ≡ old.nodes.server_at
        → Rounds (Happens A.is_sealing A.TAG) deliveries (suc left) old quiet new
        → (next : State)
        × IsHeardByServer A.is_sealing (record { at = deliveries.at; draw = next_draw deliveries old; first = first; later = later }) old next
        × Rounds (Happens A.is_sealing A.TAG) deliveries left next quiet new }
    ensures client { (deliveries : Deliveries) (left : ℕ) (first : AnySent) (later : List AnySent) (old new : State) (quiet : Bool)
        (number : ℕ) (placed : AnyPlaced AnyClient)
        → StandApart old.nodes → queue old ≡ first ∷ later → slice_get old.nodes.clients number ≡ Some placed → first.to ≡ placed.at
        → Rounds (Happens A.is_sealing A.TAG) deliveries (suc left) old quiet new
        → (next : State)
        × IsHeardByClient A.is_sealing number placed (record { at = deliveries.at; draw = next_draw deliveries old; first = first; later = later }) old next
        × Rounds (Happens A.is_sealing A.TAG) deliveries left next quiet new }
    ensures proxy { (deliveries : Deliveries) (left : ℕ) (first : AnySent) (later : List AnySent) (old new : State) (quiet : Bool)
        (number : ℕ) (placed : AnyPlaced AnyProxy)
        → StandApart old.nodes → queue old ≡ first ∷ later → slice_get old.nodes.proxies number ≡ Some placed → first.to ≡ placed.at
        → Rounds (Happens A.is_sealing A.TAG) deliveries (suc left) old quiet new
        → (next : State)
        × IsHeardByProxy number placed (record { at = deliveries.at; draw = next_draw deliveries old; first = first; later = later }) old next
        × Rounds (Happens A.is_sealing A.TAG) deliveries left next quiet new }
{
    one_peer();
}

/// In a world that is ready for it, an exchange of a client whose token is welcome at the server, and a quiet round of as many deliveries as
/// its way has, or more, after it: both ends have a context of one name, which is live at the server, with the token's scope; the client is
/// told that it is made; and nothing waits. What is assumed of a run goes on, if the token is one that the world began with and the nonces
/// that were drawn are fresh. Straight, the server hears one message ID of the client's alone.
pub fn an_exchanged_round<A: Ciphers>()
    ensures made { (deliveries : Deliveries) (limit : ℕ) (begun new : State) (quiet : Bool)
        → AreWhole deliveries.drawn begun new → StandApart begun.nodes → AreLawfulProxies begun.nodes.proxies
        → AreLawfulClients begun.nodes.clients
        → Rounds (Happens A.is_sealing A.TAG) deliveries limit begun quiet new
        → MakesWhatWasBegun A.is_sealing A.TAG deliveries limit begun (record { is_quiet = quiet; world = new }) }
    ensures straight { (deliveries : Deliveries) (limit : ℕ) (begun new : State) (quiet : Bool) (it : BegunExchange A.is_sealing A.TAG deliveries 2 begun)
        (after : AnyPlaced AnyClient)
        → AreWhole deliveries.drawn begun new → StandApart begun.nodes → AreLawfulClients begun.nodes.clients
        → 2 ≤ limit → Rounds (Happens A.is_sealing A.TAG) deliveries limit begun quiet new
        → slice_get new.nodes.clients it.client ≡ Some after → LeavesUnheard it.before new it.draw it.placed after }
{
    one_peer();
    an_exchange_is_made::<A>();
    an_exchange_goes_through_a_proxy::<A>();
    what_an_exchange_notes::<A>();
    an_exchange_keeps_the_premise();
}

/// In a world that is ready for it, a request of a client that may ask, and a quiet round of as many deliveries as its way has, or more,
/// after it: one entry is served, with the plaintext that was asked; tree and reply are those of the machine, or the reply is 5.00 for lack
/// of memory and the tree as before; the client's answer is that reply; and nothing waits. What is assumed of a run goes on. Straight, the
/// server hears one message ID of the client's alone.
pub fn an_asked_round<A: Ciphers>()
    ensures answered { (deliveries : Deliveries) (limit : ℕ) (asked new : State) (quiet : Bool)
        → AreWhole deliveries.drawn asked new → StandApart asked.nodes → IsLawfulServer asked.nodes.server → AreLawfulProxies asked.nodes.proxies
        → AreLawfulClients asked.nodes.clients
        → Rounds (Happens A.is_sealing A.TAG) deliveries limit asked quiet new
        → AnswersWhatWasAsked A.is_sealing A.TAG deliveries limit asked (record { is_quiet = quiet; world = new }) }
    ensures straight { (deliveries : Deliveries) (limit : ℕ) (asked new : State) (quiet : Bool) (it : AskedRequest A.is_sealing A.TAG deliveries 2 asked)
        (after : AnyPlaced AnyClient)
        → StandApart asked.nodes → IsLawfulServer asked.nodes.server → AreLawfulClients asked.nodes.clients
        → 2 ≤ limit → Rounds (Happens A.is_sealing A.TAG) deliveries limit asked quiet new
        → slice_get new.nodes.clients it.client ≡ Some after → LeavesUnheard it.before new it.what.draw it.placed after }
{
    one_peer();
    numbers_taken();
    answers_stay();
    a_request_is_answered::<A>();
    a_request_goes_through_a_proxy::<A>();
    a_request_keeps_the_premise();
}

/// After an exchanged round the client may ask, under its first number, at any moment at which the context is live. Where the way is
/// straight, the world is ready for it, if the server had noted no message from there of the ID after that of the post.
pub fn after_an_exchange_one_may_ask()
    ensures may_ask { (old new : State) (client : ℕ) (now later : AnyMoment) (entries : List Entry) (made : HasMade old client now entries new)
        → IsLive (standing_of new.nodes.server later) made.held
        → MayAsk made.placed.node new.nodes.server later (record { name = made.held.name; next = 0 }) made.held }
    ensures straight { (begun old new : State) (quiet : Bool) (client : ℕ) (before : AnyPlaced AnyClient) (now : AnyMoment) (draw : AnyDraw) (entries : List Entry)
        (made : HasMade old client now entries new) (next : ClientRound)
        → IsRound 2 begun quiet new → slice_get old.nodes.clients client ≡ Some before
        → before.node.origin ≡ None → before.node.next_hop ≡ old.nodes.server_at
        → LeavesUnheard old new draw before made.placed
        → looked next.at before.at ((own_id draw before.node.endpoint.next_id + 1) % 65536) old.nodes.server.endpoint.seen ≡ None
        → IsReady new client made.placed next 2 }
{}

/// After an answered round the client may ask again, under its next number, at any moment at which the context is live, if that number is
/// one that may be taken, and was fresh. Where the way is straight, the world is ready for it, if the server had noted no message from there
/// of the ID after that of the request.
pub fn after_an_answer_one_may_ask()
    ensures may_ask { (old new : State) (client : ℕ) (now later : AnyMoment) (request : OpenedRequest)
        (answered : HasAnswered old client now request new)
        → IsLive (standing_of new.nodes.server later) answered.after → request.number + 1 ≤ greatest_number → IsFresh request.held.window (request.number + 1)
        → MayAsk answered.placed.node new.nodes.server later (record { name = request.held.name; next = request.number + 1 }) answered.after }
    ensures straight { (asked old new : State) (quiet : Bool) (client : ℕ) (before : AnyPlaced AnyClient) (now : AnyMoment) (draw : AnyDraw) (request : OpenedRequest)
        (answered : HasAnswered old client now request new) (next : ClientRound)
        → IsRound 2 asked quiet new → slice_get old.nodes.clients client ≡ Some before
        → before.node.origin ≡ None → before.node.next_hop ≡ old.nodes.server_at
        → LeavesUnheard old new draw before answered.placed
        → looked next.at before.at ((own_id draw before.node.endpoint.next_id + 1) % 65536) old.nodes.server.endpoint.seen ≡ None
        → IsReady new client answered.placed next 2 }
{}

/// The claims of a client are minted once it is enrolled; what is minted stays so, whoever is enrolled after it and whatever happens.
pub fn what_is_minted<A: Ciphers>()
    ensures enrolled { (old new : Beginning) (holder : AnyHolder) → Enrols A.is_sealing old holder new
        → IsMinted new.minted (spelling (claims_item holder.claims)) }
    ensures more { (old new : Beginning) (holder : AnyHolder) (text : List ℕ) → Enrols A.is_sealing old holder new
        → IsMinted old.minted text → IsMinted new.minted text }
    ensures stays { (old new : State) (event : AnyEvent) → Happens A.is_sealing A.TAG old event new → new.minted ≡ old.minted }
{}

/// Where a world begins, what is assumed of a run holds if no two grants share a secret. A client that was enrolled holds a token of the
/// key, and may exchange: at any moment in the time of its token, if that is for the server's audience, isn't revoked by the first
/// resources, has a scope that the server allows and parts of lawful lengths, and the server's contexts count for a while. The world is
/// ready for it where the client reaches the server straight, or through a proxy that was added and has the server among its targets, by
/// the host and port that the client writes.
pub fn where_a_world_begins<A: Ciphers>()
    ensures premise { (start : Beginning) → HasOwnSecrets start.minted → Premise (begun start).minted (begun start).steps }
    ensures holds { (before after start : Beginning) (holder : AnyHolder) (enrols : Enrols A.is_sealing before holder after)
        → start.key ≡ before.key → HasLawfulParts holder.claims → FitAToken holder.claims
        → length holder.iv ≡ 13 → length enrols.placed.node.desk.token < 2 ^ 64
        → HoldsToken (A.is_sealing EightByteTag) start.key holder.claims enrols.enrolled.entries enrols.placed.node.desk }
    ensures may_exchange { (before after start : Beginning) (holder : AnyHolder) (now : AnyMoment) (draw : AnyDraw) (enrols : Enrols A.is_sealing before holder after)
        → start.key ≡ before.key → HasLawfulParts holder.claims → FitAToken holder.claims → holder.claims.audience ≡ start.audience
        → HasBegun holder.claims.not_before now → IsNotOver holder.claims.expires now
        → is_revoked start.rules.revoked start.first holder.claims.material.id ≡ false
        → is_allowed start.rules (scope_of enrols.enrolled.entries) ≡ true
        → IfSome start.rules.seconds (λ seconds. 0 < seconds)
        → length holder.iv ≡ 13 → length enrols.placed.node.desk.token < 2 ^ 64
        → MayExchange A.is_sealing enrols.placed.node (begun start).nodes.server now draw holder.claims enrols.enrolled.entries }
    ensures straight { (before after start : Beginning) (holder : AnyHolder) (round : ClientRound) (enrols : Enrols A.is_sealing before holder after)
        → slice_get start.clients (length before.clients) ≡ Some enrols.placed
        → holder.way.origin ≡ None → holder.way.next_hop ≡ start.server_at
        → IsReady (begun start) (length before.clients) enrols.placed round 2 }
    ensures through { (before after start : Beginning) (holder : AnyHolder) (round : ClientRound) (enrols : Enrols A.is_sealing before holder after)
        (origin : HostAndPort) (number : ℕ) (at : AnyPeer) (targets : List AnyTarget)
        → slice_get start.clients (length before.clients) ≡ Some enrols.placed
        → holder.way.origin ≡ Some origin → holder.way.next_hop ≡ at
        → slice_get start.proxies number ≡ Some (new_proxy at targets) → peer_of targets origin.host origin.port ≡ Some start.server_at
        → IsReady (begun start) (length before.clients) enrols.placed round 6 }
{}

/// In a world that is ready for it a client asks, straight to the server: whatever ticks of both come then, and deliveries of what they send,
/// any number of times and in any order, it goes over the network as [`osc_rounds::laws::a_request_is_served_over_loss`] says, and its
/// entries alone are served.
pub fn a_lossy_round<A: Ciphers>()
    ensures { (begun last : State) (events : List AnyEvent) → IsLawfulServer begun.nodes.server → AreLawfulClients begun.nodes.clients
        → StandApart begun.nodes → Happen A.is_sealing A.TAG begun events last → GoesOverLoss A.TAG begun events last }
{
    one_peer();
    a_request_is_served_over_loss::<A>();
}

//! Laws of the definitions. These functions do nothing: whoever calls one has its clauses for a proof.

ghost use Rattle.std.specs.Prelude.{◌≡◌, ◌∷◌, ◌<◌, ◌^◌, ◌++◌, ℕ, [], false, List, None, IfSome, length};
ghost use Rattle.osc_model.specs.declared.node.Draw.{Draw as AnyDraw};
ghost use Rattle.osc_model.specs.declared.node.Moment.{Moment as AnyMoment};
ghost use Rattle.osc_model.specs.{is_revoked, quiet};
ghost use Rattle.osc_model.specs.StepNotes.{StepNotes};
ghost use Rattle.osc_scope.specs.{Entry};
ghost use Rattle.osc_token.specs.{HasLawfulParts};
ghost use Rattle.osc_token.specs.declared.claims.Claims.{Claims as AnyClaims};
ghost use Rattle.osc_world.specs.{minted_of};
ghost use Rattle.osc_authz.specs.{ClientContextState, KeepsPlace};
ghost use Rattle.osc_authz.specs.SecurityContext.{SecurityContext};
ghost use Rattle.osc_client.specs.{Begins, Requests, IsLawfulClient, Asked, core as own_core};
ghost use Rattle.osc_client.specs.State.{State as Own};
ghost use Rattle.osc_rounds.specs.{IsLawfulServer};
ghost use Rattle.osc_run.specs.{ClientStep, by_server, IsReached, Noted, ServerStep, ClientState, Minted, WorldState};
ghost use Rattle.osc_server.specs.{core as server_core};
ghost use Rattle.osc_device.specs.Answered.{IsAnswered, IsOpen, IsReady, IsWhole, MayOpen, MayReturn};
ghost use Rattle.osc_device.specs.Begun.{IsBegun, IsGranted, own_claims};
ghost use Rattle.osc_device.specs.Carrying.{Carries};
ghost use Rattle.osc_device.specs.Runs.{AllGoOn, AreOthers, IsIn, IsOfAnEntry, KeepsItsPromises, first_run, noted, restarts};
ghost use Rattle.osc_device.specs.State.{State, server_address};
ghost use Rattle.osc_device.specs.declared.own_token.OwnToken.{OwnToken as AnyToken};
ghost use Rattle.osc_device.specs.declared.own_token.ServerParts.{ServerParts as AnyParts};
ghost use Rattle.osc_device.specs.declared.round.Round.{Round as AnyRound};

use osc_ccm::Ciphers;

/// A request of a device that may ask, which isn't too long for a datagram, and for whose steps there is memory: it is served as one entry, and
/// the device learns its reply.
pub fn a_request_is_answered<A: Ciphers>()
    ensures { (old new : State) (asks : Asked) (server_draw : AnyDraw) (context : ClientContextState) (held : SecurityContext) (asked : Own) (round : AnyRound)
        → (old.own.origin ≡ None) × (old.own.next_hop ≡ server_address) → IsLawfulServer old.server → IsLawfulClient asked
        → IsReady old asks.at asks.draw context held → IsWhole round
        → Requests A.is_sealing A.TAG old.own asks round.begun asked
        → Carries A.is_sealing (record old { own = asked }) asks.at server_draw round new
        → IsAnswered old asks held context.next round new }
{
    osc_rounds::laws::a_request_is_answered::<A>();
}

/// The post of a device that may post its token, which isn't too long for a datagram, and for whose steps there is memory: both have a context
/// of one name, with the token's scope at the server.
pub fn a_context_is_made<A: Ciphers>()
    ensures { (old new : State) (now : AnyMoment) (draw server_draw : AnyDraw) (claims : AnyClaims) (entries : List Entry) (begun : Own) (round : AnyRound)
        → (old.own.origin ≡ None) × (old.own.next_hop ≡ server_address) → IsLawfulClient begun
        → MayOpen A.is_sealing old now draw claims entries → IsWhole round → length server_draw.0 ≡ 32
        → Begins old.own now draw round.begun begun
        → Carries A.is_sealing (record old { own = begun }) now server_draw round new
        → IsOpen now entries new }
{
    osc_rounds::laws::an_exchange_is_made::<A>();
}

/// A device whose token counts, and isn't revoked, may post it once it waits for nothing, as where it begins and where it starts again: the
/// server has no context there, and heard nothing. Its contexts count for a while.
pub fn a_granted_device_may_open<A: Ciphers>()
    ensures { (device : State) (now : AnyMoment) (draw : AnyDraw) (claims : AnyClaims) (entries : List Entry)
        → IsGranted A.is_sealing device claims entries
        → is_revoked device.server.desk.rules.revoked device.server.tree claims.material.id ≡ false
        → IfSome device.server.desk.rules.seconds (λ seconds. 0 < seconds)
        → device.own.waiting ≡ None → device.server.desk.table ≡ [] → device.server.endpoint.seen ≡ []
        → MayOpen A.is_sealing device now draw claims entries }
{}

/// So may one whose server keeps a place for its token, whoever else has a context there.
pub fn a_place_is_kept<A: Ciphers>()
    ensures { (device : State) (now : AnyMoment) (draw : AnyDraw) (claims : AnyClaims) (entries : List Entry)
        → KeepsPlace device.server.desk.rules.reserved device.server.desk.table
        → MayReturn A.is_sealing device now draw claims entries → MayOpen A.is_sealing device now draw claims entries }
{
    osc_authz::laws::a_kept_place_is_free();
}

/// A run begins with a device, whoever else holds tokens of its server: the others and the device did nothing yet.
pub fn a_run_begins<A: Ciphers>()
    ensures { (parts : AnyParts) (own : AnyToken) (device : State) (is : IsBegun A.is_sealing parts own device) (others : List Minted) (clients : List ClientState)
        → HasLawfulParts (own_claims parts own) → AreOthers others clients
        → IsReached (first_run others clients (minted_of (length clients) (own_claims parts own) is.enrols.enrolled.entries) parts.tree device)
        × IsIn (length clients) device (first_run others clients (minted_of (length clients) (own_claims parts own) is.enrols.enrolled.entries) parts.tree device) }
{
    osc_run::kinds::minted_texts();
}

/// What a device does is a part of each run that it is in, whoever else holds a token of its server and whatever comes from them: its round is
/// up to three steps, one of its own, one of its server's, and one of its own again.
pub fn runs_go_on<A: Ciphers>()
    ensures { (old between new : State) (now : AnyMoment) (server_draw : AnyDraw) (round : AnyRound)
        → ClientStep false (own_core old.own) round.begun.notes (own_core between.own)
        → server_core between.server ≡ server_core old.server
        → Carries A.is_sealing between now server_draw round new
        → AllGoOn old (λ number. noted number round) new }
{}

/// So is what comes from others, by one step of its server's; and a restart, by one step of each.
pub fn runs_go_on_alone()
    ensures heard { (old new : State) (now : AnyMoment) (notes : StepNotes)
        → ServerStep (server_core old.server) now notes (server_core new.server) → new.own ≡ old.own
        → AllGoOn old (λ number. by_server notes ∷ []) new }
    ensures restarted { (old new : State) (now : AnyMoment)
        → ServerStep (server_core old.server) now quiet (server_core new.server)
        → ClientStep false (own_core old.own) quiet (own_core new.own)
        → AllGoOn old restarts new }
{}

/// In each of these runs, where what is assumed holds, there is one history, and a reply that the device learns is that of an entry of it; and
/// where no two grants name a common path, owners and device are answered as if each were alone.
pub fn runs_keep_their_promises<A: Ciphers>()
    ensures promises { (w : WorldState) → IsReached w → KeepsItsPromises w }
    ensures entered { (old between new : State) (now : AnyMoment) (server_draw : AnyDraw) (round : AnyRound)
        → ClientStep false (own_core old.own) round.begun.notes (own_core between.own)
        → server_core between.server ≡ server_core old.server
        → Carries A.is_sealing between now server_draw round new
        → IsOfAnEntry old round }
{
    osc_run::laws::one_history();
    osc_run::laws::contexts_are_young();
    osc_run::laws::own_answers();
}

/// The lives of a device with a store are one run, for each run that it is in. Calls lead it from where it began to where its resources are found
/// after a power cut: before the call in which the power goes, or after it. A device begins of the same parts with these resources, and with the
/// same token. Then the run goes on by what the calls noted, and a restart; so what holds of each run holds of all lives together, as by
/// `osc_turn::laws::lives_are_one_run`. Which resources are found, `kept` and `crash` of the calls of a `KeptDevice` say, with
/// `osc_store::laws::starts_go_on`.
pub fn lives_are_one_run<A: Ciphers>()
    ensures calls { (old between new : State) (steps later : ℕ → List Noted) → AllGoOn old steps between → AllGoOn between later new
        → AllGoOn old (λ number. later number ++ steps number) new }
    ensures again { (parts : AnyParts) (own : AnyToken) (first last next : State) (steps : ℕ → List Noted)
        → IsBegun A.is_sealing parts own first → AllGoOn first steps last
        → IsBegun A.is_sealing (record parts { tree = last.server.tree }) own next → next.own.desk ≡ first.own.desk
        → AllGoOn first (λ number. restarts number ++ steps number) next }
{}

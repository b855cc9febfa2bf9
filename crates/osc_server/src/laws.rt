//! Laws of the definitions, for the crates above. These functions do nothing: whoever calls one has its clauses for a proof.
ghost use Rattle.std.specs.Prelude.{◌≡◌, ◌<◌, ◌≤◌, ℕ, List, length, Option};
ghost use Rattle.std.specs.Option.{ForSome};
ghost use Rattle.osc_authz.specs.{IsTable};
ghost use Rattle.osc_authz.specs.SecurityContext.{SecurityContext};
ghost use Rattle.osc_coap.specs.Message.{Message};
ghost use Rattle.osc_model.specs.{apply_read, IsWithinLimits};
ghost use Rattle.osc_model.specs.Arrival.{Arrival};
ghost use Rattle.osc_model.specs.Scope.{Scope};
ghost use Rattle.osc_model.specs.Tree.{Tree};
ghost use Rattle.osc_model.specs.declared.node.Moment.{Moment as AnyMoment};
ghost use Rattle.osc_model.specs.declared.reply.Reply.{Reply as AnyReply};
ghost use Rattle.osc_model.specs.declared.step.Step.{Step as AnyStep};
ghost use Rattle.osc_protect.specs.{SealedRequest};
ghost use Rattle.osc_run.specs.{Replies as AppliesTo};
ghost use Rattle.osc_options.specs.{read_request, reply_text};
ghost use Rattle.osc_server.specs.Hearing.{Hears, Ticks};
ghost use Rattle.osc_server.specs.Kept.{KeepsSealed};
ghost use Rattle.osc_server.specs.State.{State};
ghost use Rattle.osc_server.specs.Steps.{again};
ghost use Rattle.osc_server.specs.Table.{IsOpened, IsRefused, Met};
ghost use Rattle.osc_server.specs.declared.refusal.Refusal.{Refusal as AnyRefusal};

use osc_authz::laws::answers_kept;
use osc_ccm::Ciphers;
use osc_coap::laws::length_of_plaintext;
use osc_protect::TokenCipher;
use osc_protect::laws::one_request;

/// What answers a protected request has at most 512 bytes of payload, and a reply that does has a plaintext of at most 526 bytes.
pub fn lengths_of_replies()
    ensures payload { (root : Option (List ℕ)) (old new : Tree) (scope : Scope) (text : List ℕ) (reply : AnyReply) → IsWithinLimits old
        → AppliesTo old (apply_read root old scope (read_request text)) reply new → length reply.payload ≤ 512 }
    ensures text { (reply : AnyReply) → 0 < reply.code.0 → ForSome reply.etag (λ tag. length tag ≤ 8) → length reply.payload ≤ 512
        → length (reply_text reply) ≤ 526 }
{
    length_of_plaintext();
}

/// What a server keeps as the answer to a request was sealed under the context that keeps it, for the number of that request: whatever comes, each
/// tick and each start leave it so.
pub fn kept_answers<A: Ciphers>()
    ensures heard { (old new : State) (came : Arrival (List ℕ)) (step : AnyStep) → IsTable old.desk.table → KeepsSealed A.is_sealing old
        → Hears A.is_sealing old came step new → KeepsSealed A.is_sealing new }
    ensures ticked { (old new : State) (now : AnyMoment) (step : AnyStep) → KeepsSealed A.is_sealing old → Ticks old now step new → KeepsSealed A.is_sealing new }
    ensures restarted { (old : State) → KeepsSealed A.is_sealing (again old) }
{
    answers_kept::<TokenCipher<A>>();
}

/// A protected request is refused for one reason, or it opens: as one request, under one context, and to one text.
pub fn one_refusal<A: Ciphers>()
    ensures refused { (server : Met) (came : Arrival Message) (a b : AnyRefusal)
        → IsRefused A.is_sealing server came a → IsRefused A.is_sealing server came b → a ≡ b }
    ensures opened { (server : Met) (came : Arrival Message) (request : SealedRequest) (held : SecurityContext) (text : List ℕ) (refusal : AnyRefusal)
        → IsOpened A.is_sealing server came request held text → ¬ IsRefused A.is_sealing server came refusal }
    ensures once { (server : Met) (came : Arrival Message) (request other : SealedRequest) (held holder : SecurityContext) (text said : List ℕ)
        → IsOpened A.is_sealing server came request held text → IsOpened A.is_sealing server came other holder said
        → (request ≡ other) × (held ≡ holder) × (text ≡ said) }
{
    one_request();
}

//! Laws of the kinds of step: what tokens, desks, windows and protection do is what the kinds name. These functions do nothing:
//! whoever calls one has its clauses for a proof.

ghost use Rattle.std.specs.Prelude.{◌≡◌, ◌≤◌, ℕ, List, length, Option, Some, None, Ok, Err};
ghost use Rattle.osc_model.specs.{apply_read, code, nonce_drawn, quiet};
ghost use Rattle.osc_model.specs.Grant.{Grant};
ghost use Rattle.osc_model.specs.Tree.{Tree};
ghost use Rattle.osc_model.specs.declared.code.Code.{Code as AnyCode};
ghost use Rattle.osc_model.specs.declared.node.Draw.{Draw as AnyDraw};
ghost use Rattle.osc_model.specs.declared.node.Moment.{Moment as AnyMoment};
ghost use Rattle.osc_model.specs.declared.reply.Reply.{Reply as AnyReply};
ghost use Rattle.osc_model.specs.declared.step.ClientResult.TheVariants as result_of;
ghost use Rattle.osc_cbor.specs.{spelling};
ghost use Rattle.osc_coap.specs.Message.{Message};
ghost use Rattle.osc_coap.specs.{SpellsPlaintext, AreBytes};
ghost use Rattle.osc_coap.specs.Plaintext.{Plaintext};
ghost use Rattle.osc_options.specs.{request_of_plaintext, with_reply, or_code, read_request, reply_text, IsWithinRanges};
ghost use Rattle.osc_context.specs.{greatest_number};
ghost use Rattle.osc_window.specs.{IsFresh};
ghost use Rattle.osc_protect.specs.{plain_bytes};
ghost use Rattle.osc_scope.specs.{Entry, IsScope, scope_of};
ghost use Rattle.osc_token.specs.{FitTheirTypes, claims_item};
ghost use Rattle.osc_token.specs.declared.claims.Claims.{Claims as AnyClaims};
ghost use Rattle.osc_authz.specs.{ClientContextState, Finishes, offered_id, of_tokens, DeskState, Posts, IsTable, accepted, holder_at, meant};
ghost use Rattle.osc_authz.specs.Begun.{Begun};
ghost use Rattle.osc_authz.specs.SecurityContext.{SecurityContext};
ghost use Rattle.osc_authz.specs.Posting.{Posting};
ghost use Rattle.osc_authz.specs.declared.error.PostError.{PostError as AnyError};
ghost use Rattle.osc_authz.specs.declared.token_entry.TokenEntry.{TokenEntry};
ghost use Rattle.osc_authz.specs.declared.post.Post.{Post as AnyPost};
ghost use Rattle.osc_authz.specs.declared.post.PostAnswer.{PostAnswer as AnyAnswer};
ghost use Rattle.osc_authz.specs.declared.post.PostReply.TheVariants.{Known, New};
ghost use Rattle.osc_authz.specs.declared.rules.ContextRules.{ContextRules as AnyRules};
ghost use Rattle.osc_model.specs.declared.step.RefusedRequest.{RefusedRequest as AnyRefused};
ghost use Rattle.osc_run.specs.States.{ClientState, Exchange, Nothing};
ghost use Rattle.osc_run.specs.ServerKinds.{opening_note, reply_note, Replies, IsServerIdle, IsPosted, IsServed};
ghost use Rattle.osc_run.specs.ClientKinds.{IsStarted, IsMade};
ghost use Rattle.osc_run.specs.Runs.{IsTextOf};

use osc_ccm::Aead;

/// The text of minted claims gives no more than a grant that has them, which is what a run asks of its tokens.
pub fn minted_texts()
    ensures { (claims : AnyClaims) (entries : List Entry) (grant : Grant)
        → FitTheirTypes claims → IsScope claims.scope entries
        → grant.id ≡ claims.material.id → grant.secret ≡ claims.material.secret → grant.scope ≡ scope_of entries
        → grant.not_before ≡ claims.not_before → grant.expires ≡ claims.expires
        → IsTextOf grant (spelling (claims_item claims)) }
{
    osc_token::laws::minted_texts();
}

/// A post that made a context is the kind of step that adds one.
pub fn posts_that_agree<A: Aead>()
    ensures { (before after : DeskState) (posting : Posting) (post : AnyPost) (answer : AnyAnswer)
        → length posting.draw.0 ≡ 32 → Posts A.is_sealing before posting post after → post.answer ≡ Ok (New answer) → IsTable after.table
        → IsPosted (record { contexts = of_tokens before.table; tree = posting.on.tree; rules = before.rules }) posting.on.at
        (record quiet { opens = post.opened; drawn = Some answer.nonce2; holder = post.holder })
        (record { contexts = of_tokens after.table; tree = posting.on.tree; rules = after.rules }) }
{
    osc_authz::laws::posts_that_agree::<A>();
    osc_authz::laws::one_more_context();
}

/// A post that is refused is an idle step, though its token may have opened, whatever is noted of why.
pub fn posts_that_are_refused<A: Aead>()
    ensures { (before after : DeskState) (posting : Posting) (post : AnyPost) (error : AnyError) (why : Option AnyRefused)
        → Posts A.is_sealing before posting post after → post.answer ≡ Err error
        → IsServerIdle (record { contexts = of_tokens before.table; tree = posting.on.tree; rules = before.rules }) posting.on.at
        (record quiet { opens = post.opened; refused = why; holder = post.holder })
        (record { contexts = of_tokens after.table; tree = posting.on.tree; rules = after.rules }) }
{}

/// A post that is answered as before is an idle step, in which its token opened.
pub fn posts_that_are_known<A: Aead>()
    ensures { (before after : DeskState) (posting : Posting) (post : AnyPost) (answer : AnyAnswer)
        → Posts A.is_sealing before posting post after → post.answer ≡ Ok (Known answer)
        → IsServerIdle (record { contexts = of_tokens before.table; tree = posting.on.tree; rules = before.rules }) posting.on.at
        (record quiet { opens = post.opened; holder = post.holder })
        (record { contexts = of_tokens after.table; tree = posting.on.tree; rules = after.rules }) }
{
    osc_authz::laws::known_posts::<A>();
}

/// A request that opens under the context that it means, at a fresh number, is the kind of step that serves: the window takes the
/// number, and the reply is the machine's.
pub fn requests_that_open()
    ensures { (now : AnyMoment) (kid : List ℕ) (kid_context : Option (List ℕ)) (table : List TokenEntry) (held : SecurityContext) (number : ℕ) (text : List ℕ) (reply : AnyReply) (tree after : Tree) (rules : AnyRules)
        → IsTable table → meant (record { at = now; tree = tree }) kid kid_context table ≡ Some held
        → number ≤ greatest_number → IsFresh held.window number
        → IsWithinRanges reply → Replies tree (apply_read rules.revoked tree held.scope (read_request text)) reply after
        → IsServed (record { contexts = of_tokens table; tree = tree; rules = rules }) now
        (record quiet {
          seals = Some (reply_note held.name number reply);
          opens = Some (opening_note held.name number text);
          served = Some (record { context = held.name; number = number; plaintext = text; request = read_request text; moment = now; reply = reply });
          holder = holder_at kid table;
        })
        (record { contexts = of_tokens (accepted kid number table); tree = after; rules = rules }) }
{
    osc_authz::laws::meant_contexts();
    osc_authz::laws::numbers_taken();
}

/// An exchange that is begun is the kind of step that starts one.
pub fn exchanges_that_start()
    ensures { (draw : AnyDraw) (old : ClientState) → length draw.0 ≡ 32 → old.outstanding ≡ Nothing
        → IsStarted old (record quiet { drawn = Some (nonce_drawn draw) })
        (record old { outstanding = Exchange (record { nonce1 = nonce_drawn draw; recipient_id = offered_id old.context }) }) }
{}

/// An exchange that is finished with a context is the kind of step that makes one.
pub fn exchanges_that_make()
    ensures { (begun : Begun) (came : AnyCode) (payload : List ℕ) (made : ClientContextState) (old : ClientState)
        → old.outstanding ≡ Exchange begun → Finishes old.desk begun came payload (Ok made)
        → IsMade old (record quiet { result = Some result_of.Made }) (record old { context = Some made; outstanding = Nothing }) }
{}

/// The request, or the code that answers it, that the bytes of a plaintext come to: 4.00 where they are no plaintext.
pub fn what_is_read()
    ensures request { (text : List ℕ) (plaintext : Plaintext) → SpellsPlaintext text plaintext
        → read_request text ≡ or_code (request_of_plaintext plaintext) }
    ensures none { (text : List ℕ) → AreBytes text → ((plaintext : Plaintext) → ¬ SpellsPlaintext text plaintext)
        → read_request text ≡ Err (code 4 0) }
{
    osc_coap::laws::reading();
}

/// What is sealed of a message with a reply is the reply's plaintext, whatever the message says outside.
pub fn what_is_sealed()
    ensures { (message : Message) (reply : AnyReply) → plain_bytes (with_reply message reply) ≡ reply_text reply }
{
    osc_options::laws::a_written_reply();
}

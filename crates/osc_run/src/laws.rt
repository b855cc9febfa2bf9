//! Laws of the definitions, for the crates above. These functions do nothing: whoever calls one has its clauses for a proof.

ghost use Rattle.std.specs.Prelude.{◌≡◌, ◌≤◌, ◌<◌, ◌∷◌, ◌++◌, ℕ, List, length, Option};
ghost use Rattle.osc_model.specs.{apply_read, effect, HasBegun, IsNotOver, HaveOwnPaths, IsIsolated};
ghost use Rattle.osc_model.specs.Scope.{Scope};
ghost use Rattle.osc_model.specs.Tree.{Tree};
ghost use Rattle.osc_model.specs.declared.node.Moment.{Moment as AnyMoment};
ghost use Rattle.osc_model.specs.declared.reply.Reply.{Reply as AnyReply};
ghost use Rattle.osc_model.specs.declared.step.Entry.{Entry as AnyEntry};
ghost use Rattle.osc_scope.specs.{Entry, IsScope};
ghost use Rattle.osc_token.specs.{HasLawfulParts};
ghost use Rattle.osc_token.specs.declared.claims.Claims.{Claims as AnyClaims};
ghost use Rattle.osc_run.specs.States.{WorldState, grants_of};
ghost use Rattle.osc_run.specs.ServerKinds.{Replies};
ghost use Rattle.osc_options.specs.{read_request};
ghost use Rattle.osc_run.specs.Runs.{IsReached};
ghost use Rattle.osc_run.specs.Premise.{Premise, HasFreshDraws};
ghost use Rattle.osc_run.specs.History.{history, acceptances};
ghost use Rattle.osc_run.specs.Ages.{AreYoung};
ghost use Rattle.osc_run.specs.OneHistory.{IsUnrevoked, OneHistory};
ghost use Rattle.osc_run.specs.OwnNonces.{HasOwnNonces};

use osc_coap::laws::one_plaintext;
use osc_context::laws::{nonces_of_a_key, nonces_of_a_salt, one_master_salt};
use osc_model::laws::{isolation, never_out_of_memory, one_more_entry, replies_are_responses};
use osc_options::laws::{a_reply_is_read_again, a_written_reply};
use osc_protect::laws::aad_tells_the_number;
use osc_token::laws::{minted_claims, minted_texts};
use osc_window::laws::fresh_after;

/// In every run in which whatever opens was sealed before by the other end of its context, no drawn nonce comes twice and no two
/// grants share a secret, there is one history: no two entries share context and number, each was asked by its client and is
/// answered by its grant and the tree, their effects give the server's tree, and each accepted reply is that of its request.
pub fn one_history()
    ensures { (w : WorldState) → IsReached w → Premise w.minted w.notes → OneHistory w }
{
    one_more_entry();
    never_out_of_memory();
    replies_are_responses();
    one_plaintext();
    a_written_reply();
    a_reply_is_read_again();
    nonces_of_a_key();
    one_master_salt();
    nonces_of_a_salt();
    fresh_after();
    aad_tells_the_number();
}

/// In each of these runs nothing is served under a revoked token: after the entry that revokes a token, and before one that lets it in again,
/// no entry is of its grant, whatever is sent, by whom and in which order, over all restarts. Each entry comes on the resources that the entries
/// before it left.
pub fn none_revoked()
    ensures { (w : WorldState) → IsReached w → Premise w.minted w.notes → (before after : List AnyEntry) (entry : AnyEntry)
        → history w.notes ≡ before ++ entry ∷ after
        → IsUnrevoked (grants_of w.minted) w.server.rules.revoked (effect read_request w.server.rules.revoked (grants_of w.minted) w.first before) entry }
{
    one_history();
}

/// In every run a request is served under a context that a post of this run made. At a server with a greatest age of contexts it comes less than
/// that number of seconds after that post. So what was held back on its way for longer is worth nothing.
pub fn contexts_are_young()
    ensures { (w : WorldState) → AreYoung w }
{}

/// In each of these runs in which no two grants name a common path, each client's entries are answered as if they alone followed
/// the first tree, up to the first that is for lack of memory or of room; what other holders meet doesn't matter.
pub fn own_answers()
    ensures { (w : WorldState) → IsReached w → Premise w.minted w.notes → HaveOwnPaths (grants_of w.minted)
        → IsIsolated read_request w.server.rules.revoked (grants_of w.minted) w.first (history w.notes) }
{
    one_history();
    isolation();
}

/// In every run in which no drawn nonce comes twice, no two seals under one key share a nonce, those of lies aside (RFC 8613
/// section 5.2).
pub fn own_nonces()
    ensures { (w : WorldState) → IsReached w → HasFreshDraws w.notes → HasOwnNonces w.notes }
{
    one_more_entry();
    never_out_of_memory();
    replies_are_responses();
    one_plaintext();
    a_written_reply();
    a_reply_is_read_again();
    nonces_of_a_key();
    one_master_salt();
    nonces_of_a_salt();
    fresh_after();
    aad_tells_the_number();
}

/// What answers a plaintext has the code of a response (RFC 7252 section 12.1.2).
pub fn codes_of_replies()
    ensures least { (root : Option (List ℕ)) (old new : Tree) (scope : Scope) (text : List ℕ) (reply : AnyReply)
        → Replies old (apply_read root old scope (read_request text)) reply new → 64 ≤ reply.code.0 }
    ensures most { (root : Option (List ℕ)) (old new : Tree) (scope : Scope) (text : List ℕ) (reply : AnyReply)
        → Replies old (apply_read root old scope (read_request text)) reply new → reply.code.0 < 192 }
{
    replies_are_responses();
}

/// There are such runs: with whatever claims that are in their time, and from whatever tree, one in which a request is served and
/// its reply accepted.
pub fn runs_that_serve()
    ensures { (claims : AnyClaims) (entries : List Entry) (now : AnyMoment) (tree : Tree)
        → HasLawfulParts claims → IsScope claims.scope entries
        → HasBegun claims.not_before now → IsNotOver claims.expires now
        → (w : WorldState) × IsReached w × Premise w.minted w.notes × (w.first ≡ tree)
        × (length (history w.notes) ≡ 1) × (length (acceptances w.notes) ≡ 1) }
{
    a_written_reply();
    a_reply_is_read_again();
    minted_claims();
    minted_texts();
}

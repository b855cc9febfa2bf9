//! Laws of the definitions, for the crates above. These functions do nothing: whoever calls one has its clauses for a proof.

ghost use Rattle.std.specs.Prelude.{◌≡◌, ◌↔◌, ◌⊎◌, ◌≤◌, ◌<◌, ◌^◌, ℕ, List, [], ◌∷◌, length, true, false, Bool, replicate, Option, Some, None, Ok, Result, IfSome};
ghost use Rattle.osc_cbor.specs.{spelling};
ghost use Rattle.osc_model.specs.{code, nonce_drawn, revocation_of, stands, HasBegun, IsNotOver};
ghost use Rattle.osc_model.specs.Tree.{Tree as Resources};
ghost use Rattle.osc_model.specs.declared.resource.Resource.{Resource as AnyResource};
ghost use Rattle.osc_model.specs.declared.code.Code.{Code as AnyCode};
ghost use Rattle.std.specs.FinMap as map;
ghost use Rattle.osc_authz.specs.Standing.{Standing};
ghost use Rattle.osc_model.specs.declared.node.Draw.{Draw as AnyDraw};
ghost use Rattle.osc_scope.specs.{Entry, scope_of};
ghost use Rattle.osc_model.specs.Scope.{Scope as AnyScope};
ghost use Rattle.osc_token.specs.{ComesTo, HasLawfulParts};
ghost use Rattle.osc_token.specs.declared.claims.Claims.{Claims as AnyClaims};
ghost use Rattle.osc_authz.specs.Agreed.{IsAgreed};
ghost use Rattle.osc_authz.specs.Agreement.{Answers, end_of, known_of};
ghost use Rattle.osc_authz.specs.Begun.{Begun, ClientContextState};
ghost use Rattle.osc_authz.specs.Client.{Finishes};
ghost use Rattle.osc_authz.specs.Contexts.{OfToken, of_tokens, IsLive, AreKept, HasAdded, HasTaken};
ghost use Rattle.osc_authz.specs.Desk.{DeskState};
ghost use Rattle.osc_authz.specs.Exchange.{IsPost, IsAnswer, post_item, answer_item};
ghost use Rattle.osc_authz.specs.SecurityContext.{SecurityContext};
ghost use Rattle.osc_authz.specs.Known.{AreFew, known};
ghost use Rattle.osc_authz.specs.LastAnswer.{LastAnswerState};
ghost use Rattle.osc_authz.specs.LastAnswers.{Keeps};
ghost use Rattle.osc_authz.specs.HoldsToken.{HoldsToken};
ghost use Rattle.osc_authz.specs.Marked.{AreMarked, IsSameBut};
ghost use Rattle.osc_authz.specs.Members.{In};
ghost use Rattle.osc_authz.specs.Post.{Posts};
ghost use Rattle.osc_authz.specs.Posting.{Offer, Posting};
ghost use Rattle.osc_authz.specs.Table.{IsFull, IsLawfulContext, IsTable, KeepsPlace, accepted, alive, answered_by, contexts, holder_at, is_live, last_at, meant, taking, with_id, with_pending};
ghost use Rattle.osc_authz.specs.Welcome.{IsWelcome};
ghost use Rattle.osc_authz.specs.declared.error.FinishError.{FinishError as AnyFinishError};
ghost use Rattle.osc_authz.specs.declared.granted.ClientDesk.{ClientDesk as AnyClient};
ghost use Rattle.osc_authz.specs.declared.token_entry.TokenEntry.{TokenEntry};
ghost use Rattle.osc_authz.specs.declared.post.Post.{Post as AnyPost};
ghost use Rattle.osc_authz.specs.declared.post.PostAnswer.{PostAnswer as AnyAnswer};
ghost use Rattle.osc_authz.specs.declared.post.PostReply.{PostReply as AnyReply};
ghost use Rattle.osc_authz.specs.declared.post.PostReply.TheVariants.{Known, New};
ghost use Rattle.osc_authz.specs.declared.agreed_post.AgreedPost.{AgreedPost};
ghost use Rattle.osc_authz.specs.declared.error.PostError.{PostError as AnyPostError};

use osc_ccm::Aead;

/// What is written is read again, by whoever it is for.
pub fn what_is_written()
    ensures post { (token nonce1 client_id : List ℕ) → length token < 2 ^ 64
        → 1 ≤ length nonce1 → length nonce1 ≤ 64 → length client_id ≤ 7
        → IsPost (spelling (post_item token nonce1 client_id)) token nonce1 client_id }
    ensures answer { (nonce2 server_id : List ℕ)
        → 1 ≤ length nonce2 → length nonce2 ≤ 64 → length server_id ≤ 7
        → IsAnswer (spelling (answer_item nonce2 server_id)) nonce2 server_id }
{
    osc_cbor::laws::what_is_written();
}

/// Bytes are one post and one answer at most.
pub fn one_payload()
    ensures post { (body token nonce1 client_id others nonces ids : List ℕ)
        → IsPost body token nonce1 client_id → IsPost body others nonces ids
        → (token ≡ others) × (nonce1 ≡ nonces) × (client_id ≡ ids) }
    ensures answer { (payload nonce2 server_id nonces ids : List ℕ)
        → IsAnswer payload nonce2 server_id → IsAnswer payload nonces ids
        → (nonce2 ≡ nonces) × (server_id ≡ ids) }
{
    osc_cbor::laws::one_item();
}

/// How many bytes the payload of an answer has, where its nonce has 8 and its recipient ID one.
pub fn lengths_of_answers()
    ensures { (nonce2 : List ℕ) (id : ℕ) → length nonce2 ≡ 8 → length (spelling (answer_item nonce2 (id ∷ []))) ≡ 16 }
{}

/// A context is live exactly in the time of its token, as long as that isn't revoked and the context isn't too old.
pub fn live_in_its_time()
    ensures { (held : SecurityContext) (on : Standing)
        → is_live on held ≡ true ↔ (HasBegun held.not_before on.at × IsNotOver held.expires on.at × (stands on.tree held.revocation ≡ false) × IsNotOver held.ends on.at) }
{}

/// The context that a request means is held, pending or confirmed, and live, and has the request's kid as its recipient ID, by which the id of
/// its token is found.
pub fn meant_contexts()
    ensures { (on : Standing) (kid : List ℕ) (kid_context : Option (List ℕ)) (table : List TokenEntry) (held : SecurityContext)
        → meant on kid kid_context table ≡ Some held
        → (context : OfToken) × In context (of_tokens table) × (context.held ≡ held)
        × IsLive on held × (held.name.client_id ≡ kid) × (holder_at kid table ≡ Some context.token) }
{}

/// Security contexts with one recipient ID are one context, of one token id, and either confirmed or pending.
pub fn one_context()
    ensures held { (table : List TokenEntry) (context other : SecurityContext)
        → IsTable table → In context (contexts table) → In other (contexts table)
        → context.name.client_id ≡ other.name.client_id → context ≡ other }
    ensures of_token { (table : List TokenEntry) (context other : OfToken)
        → IsTable table → In context (of_tokens table) → In other (of_tokens table)
        → context.held.name.client_id ≡ other.held.name.client_id → context ≡ other }
{}

/// A live context of a table is the one that a request means by its recipient ID and its id context.
pub fn held_contexts_are_meant()
    ensures { (on : Standing) (table : List TokenEntry) (held : SecurityContext)
        → IsTable table → In held (contexts table) → IsLive on held
        → meant on held.name.client_id held.name.id_context table ≡ Some held }
{
    one_context();
    live_in_its_time();
}

/// Where the token ids without a live context leave the table, no context comes, and each that lives stays.
pub fn live_contexts()
    ensures { (on : Standing) (table : List TokenEntry)
        → AreKept on (of_tokens table) (of_tokens (alive on table)) }
{}

/// One more pending context of a token id, where the token ids without a live context have left the table, takes the place of
/// the one that was pending for this id, and each other that lives stays.
pub fn one_more_context()
    ensures { (on : Standing) (token : List ℕ) (held : SecurityContext) (remember : List AgreedPost → List AgreedPost) (table : List TokenEntry)
        → IsTable (with_pending token held remember (alive on table))
        → HasAdded on token held (of_tokens table) (of_tokens (with_pending token held remember (alive on table))) }
{}

/// Where the context with an ID accepts a number, its window takes the number, it is confirmed in the place of the older one of
/// its token id, and no other context changes.
pub fn numbers_taken()
    ensures { (on : Standing) (number : ℕ) (context : OfToken) (table : List TokenEntry)
        → IsTable table → In context (of_tokens table)
        → HasTaken on number context (of_tokens table) (of_tokens (accepted context.held.name.client_id number table)) }
{}

/// A post that made a context opened, and was granted.
pub fn posts_that_agree<A: Aead>()
    ensures { (before after : DeskState) (posting : Posting) (post : AnyPost) (answer : AnyAnswer)
        → Posts A.is_sealing before posting post after → post.answer ≡ Ok (New answer)
        → IsAgreed A.is_sealing before posting post answer after }
{}

/// A post that is known changes nothing, whatever it is answered.
pub fn known_posts<A: Aead>()
    ensures answered { (before after : DeskState) (posting : Posting) (post : AnyPost) (answer : AnyAnswer)
        → Posts A.is_sealing before posting post after → post.answer ≡ Ok (Known answer) → after ≡ before }
    ensures unchanged { (before after : DeskState) (offer : Offer) (text : List ℕ) (answer : Result AnyReply AnyPostError)
        (claims : AnyClaims) (scope : AnyScope) (made : AnyAnswer)
        → Answers before offer text answer after → ComesTo text before.audience offer.on.at (Ok (claims, scope))
        → known_of before offer claims ≡ Some made → after ≡ before }
{
    osc_token::laws::one_outcome();
}

/// Marks of revoked contexts stay right where a number is taken, any marks are right of no contexts, and no marks where there are no
/// resources.
pub fn marks_stay()
    ensures accepted { (tree : Resources) (id : List ℕ) (number : ℕ) (table : List TokenEntry) (marks : List Bool)
        → AreMarked tree table marks → AreMarked tree (accepted id number table) marks }
    ensures empty { (tree : Resources) (marks : List Bool) → AreMarked tree [] marks }
    ensures none { (table : List TokenEntry) → AreMarked map.empty table (replicate 256 false) }
{}

/// An answer that is kept changes no context, no token id and no mark.
pub fn answers_stay()
    ensures tokens { (answers : Bool) (id : List ℕ) (last : LastAnswerState) (table : List TokenEntry)
        → of_tokens (answered_by answers id last table) ≡ of_tokens (accepted id last.number table) }
    ensures contexts { (answers : Bool) (id : List ℕ) (last : LastAnswerState) (table : List TokenEntry)
        → contexts (answered_by answers id last table) ≡ contexts (accepted id last.number table) }
    ensures table { (answers : Bool) (id : List ℕ) (last : LastAnswerState) (table : List TokenEntry)
        → IsTable table → IsTable (answered_by answers id last table) }
    ensures places { (answers : Bool) (id : List ℕ) (last : LastAnswerState) (reserved : Option (List ℕ)) (table : List TokenEntry)
        → KeepsPlace reserved table → KeepsPlace reserved (answered_by answers id last table) }
    ensures marked { (answers : Bool) (id : List ℕ) (last : LastAnswerState) (tree : Resources) (table : List TokenEntry) (marks : List Bool)
        → AreMarked tree table marks → AreMarked tree (answered_by answers id last table) marks }
{}

/// Which answers are kept: a post adds none, and a request that is served adds its own, under its own context. Empty tables keep none.
pub fn answers_kept<A: Aead>()
    ensures posted { (before after : DeskState) (posting : Posting) (post : AnyPost) (held : SecurityContext) (last : LastAnswerState)
        → Posts A.is_sealing before posting post after → Keeps held last after.table → Keeps held last before.table }
    ensures served { (answers : Bool) (id : List ℕ) (own last : LastAnswerState) (table : List TokenEntry) (held other : SecurityContext)
        → IsTable table → with_id id table ≡ Some held → Keeps other last (answered_by answers id own table)
        → Keeps other last table ⊎ ((other ≡ taking own.number held) × (last ≡ own)) }
    ensures empty { (held : SecurityContext) (last : LastAnswerState) → ¬ Keeps held last [] }
{}

/// An answer that is kept for a context is found by the context's recipient ID.
pub fn answers_are_found()
    ensures { (id : List ℕ) (last : LastAnswerState) (table : List TokenEntry) (held : SecurityContext)
        → with_id id table ≡ Some held → last_at id (answered_by true id last table) ≡ Some last }
{}

/// A resource that is put or removed changes the tree at its path alone.
pub fn one_path_changed()
    ensures put { (tree : Resources) (path : List ℕ) (resource : AnyResource) → IsSameBut tree (map.insert tree path resource) path }
    ensures removed { (tree : Resources) (path : List ℕ) → IsSameBut tree (map.remove tree path) path }
    ensures unchanged { (tree : Resources) (path : List ℕ) → IsSameBut tree tree path }
{
    osc_model::laws::paths_are_ordered();
}

/// The token id whose place is kept always has one, or finds room.
pub fn a_kept_place_is_free()
    ensures { (on : Standing) (id : List ℕ) (table : List TokenEntry) → KeepsPlace (Some id) table → ¬ IsFull (Some id) id (alive on table) }
{}

/// Where no post is remembered, no post is known.
pub fn no_known_posts()
    ensures { (token nonce1 client_id : List ℕ) (table : List TokenEntry) → AreFew 0 table → known token nonce1 client_id table ≡ None }
{}

/// A post with a token that is welcome, and which isn't known, is answered 2.01, with the nonce of the draw.
pub fn welcome_posts<A: Aead>()
    ensures { (before after : DeskState) (on : Standing) (draw : AnyDraw) (post : AnyPost) (claims : AnyClaims) (entries : List Entry)
        (client : AnyClient) (nonce1 : List ℕ) (id : ℕ)
        → IsWelcome A.is_sealing before on claims entries client → length nonce1 ≡ 8
        → known claims.material.id nonce1 (id ∷ []) before.table ≡ None
        → Posts A.is_sealing before (record { on = on; body = spelling (post_item client.token nonce1 (id ∷ [])); draw = draw }) post after
        → (answer : AnyAnswer) × (post.answer ≡ Ok (New answer)) × (answer.nonce2 ≡ nonce_drawn draw) }
{
    what_is_written();
    one_payload();
    osc_token::laws::minted_tokens::<A>();
    osc_token::laws::what_was_minted::<A>();
}

/// What a client that holds a token posts, and the server answers 2.01, gives one name at both ends: however the exchange
/// finishes by that answer, it makes a context with the name of one that the server holds. That one has accepted no number yet,
/// and its IDs are lawful; where the claims are, its id context has at most 64 bytes.
pub fn one_name<A: Aead>()
    ensures { (before after : DeskState) (on : Standing) (draw : AnyDraw) (post : AnyPost) (answer : AnyAnswer)
        (claims : AnyClaims) (entries : List Entry) (client : AnyClient) (begun : Begun) (finished : Result ClientContextState AnyFinishError)
        → length draw.0 ≡ 32 → length begun.nonce1 ≡ 8 → HoldsToken A.is_sealing before.key claims entries client
        → Posts A.is_sealing before
        (record { on = on; body = spelling (post_item client.token begun.nonce1 (begun.recipient_id ∷ [])); draw = draw }) post after
        → post.answer ≡ Ok (New answer)
        → Finishes client begun (code 2 1) (spelling (answer_item answer.nonce2 (answer.recipient_id ∷ []))) finished
        → (held : SecurityContext) × In held (contexts after.table) × (held.scope ≡ scope_of entries)
        × (held.not_before ≡ claims.not_before) × (held.expires ≡ claims.expires)
        × (held.revocation ≡ revocation_of before.rules.revoked claims.material.id)
        × (held.ends ≡ end_of before.rules.seconds on.at)
        × (finished ≡ Ok (record { name = held.name; next = 0 }))
        × (held.window ≡ []) × IsLawfulContext held
        × (HasLawfulParts claims → IfSome held.name.id_context (λ bytes. length bytes ≤ 64)) }
{
    posts_that_agree::<A>();
    what_is_written();
    one_payload();
    osc_token::laws::minted_tokens::<A>();
    osc_token::laws::minted_texts();
    osc_token::laws::one_token::<A>();
}

/// A post has one outcome at most: one answer, and one table afterwards.
pub fn one_outcome<A: Aead>()
    ensures { (before after afters : DeskState) (posting : Posting) (post posts : AnyPost)
        → Posts A.is_sealing before posting post after → Posts A.is_sealing before posting posts afters
        → (post ≡ posts) × (after ≡ afters) }
{
    osc_cbor::laws::one_item();
    osc_token::laws::one_token::<A>();
    osc_token::laws::one_outcome();
}

/// An exchange finishes in one way at most by an answer of one code and payload.
pub fn one_finish()
    ensures { (desk : AnyClient) (begun : Begun) (came : AnyCode) (payload : List ℕ) (result other : Result ClientContextState AnyFinishError)
        → Finishes desk begun came payload result → Finishes desk begun came payload other → result ≡ other }
{
    one_payload();
}
